// What holds of the events of a region, the contract of functions that do nothing.

ghost use Rattle.std.specs.Prelude.{◌≡◌, ◌↔◌, ℕ, List};
ghost use Rattle.hx_code.specs.Local.{LocalView};
ghost use Rattle.hx_speculation.specs.Iteration.{Store};
ghost use Rattle.hx_speculation.specs.Region.{Region};
ghost use Rattle.hx_speculation.specs.Watch.{IsIndependent as IsIndependentLoop};
ghost use Rattle.hx_advise.specs.declared.watch.Need.{Need};
ghost use Rattle.hx_advise.specs.Events.{Event, IsIndependent};
ghost use Rattle.hx_advise.specs.Watch.{AnyWord, IsNeed};
ghost use Rattle.hx_advise.specs.Regions.{after, events_after, IsOver};

/// The events tell whether a loop is independent: those of any number of words are independent where the loop is, and those of a loop
/// that is over behind them only there.
pub fn events_tell()
    ensures all { (r : Region LocalView) (entry : Store) (n : ℕ) → IsOver (after r entry n) → (IsIndependent (events_after r entry n) ↔ IsIndependentLoop r entry) }
    ensures some { (r : Region LocalView) (entry : Store) (n : ℕ) → IsIndependentLoop r entry → IsIndependent (events_after r entry n) }
{}

/// Events have no other need than the one that is told of them, neither of a word nor of any; and no turn needs a word exactly where they
/// are independent.
pub fn needs_are_single()
    ensures word { (es : List Event) (a : ℕ) (n m : Need) → IsNeed es (λ b. b ≡ a) n → IsNeed es (λ b. b ≡ a) m → (n.turns ≡ m.turns) × (n.distance ≡ m.distance) }
    ensures any { (es : List Event) (n m : Need) → IsNeed es AnyWord n → IsNeed es AnyWord m → (n.turns ≡ m.turns) × (n.distance ≡ m.distance) }
    ensures none { (es : List Event) (n : Need) → IsNeed es AnyWord n → ((n.turns ≡ 0) ↔ IsIndependent es) }
{}
