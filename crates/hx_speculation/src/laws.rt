// What holds of every board, the contracts of functions that do nothing.

ghost use Rattle.std.specs.Prelude.{◌++◌, ◌∷◌, Some, ◌≡◌, ℕ, ℤ, List};
ghost use Rattle.hx_marks.specs.Table.{look};
ghost use Rattle.hx_code.specs.Local.{LocalView};
ghost use Rattle.hx_speculation.specs.Iteration.{Store};
ghost use Rattle.hx_speculation.specs.Region.{Region};
ghost use Rattle.hx_speculation.specs.Slots.{Slot};
ghost use Rattle.hx_speculation.specs.Board.{Capacities, Call, after, opened};
ghost use Rattle.hx_speculation.specs.Sound.{IsSound, HaveTrackedFrames};
ghost use Rattle.hx_speculation.specs.View.{view};
ghost use Rattle.hx_speculation.specs.Replay.{Course, replayed, world_at};
ghost use Rattle.hx_speculation.specs.Watch.{IsIndependent, IsQuiet};
ghost use Rattle.hx_speculation.specs.Attempts.{AttemptsAreOne, MarksAreOfEntry};

/// Whatever calls come, in whichever order and from whichever workers, the board shows a state that the plain region comes to,
/// or its end, provided that frames which are settled are tracked.
pub fn every_board()
    ensures { (r : Region LocalView) (entry : Store) (caps : Capacities) (calls : List (Call LocalView)) → HaveTrackedFrames r calls → IsSound r entry (after r caps calls (opened entry)) }
{}

/// Whatever the schedule, what is settled is a state that the plain region comes to, or its end. Each entry names a worker: one
/// without a frame asks for one; another runs a stretch, and hands on what that stopped for.
pub fn every_schedule()
    ensures { (c : Course LocalView) (entry : Store) (schedule : List ℕ) → IsSound c.region entry (replayed c schedule (world_at entry)).board }
{}

/// The value of each mark is what its iteration sees at the word now: that of the nearest earlier iteration that has written it, or
/// the committed one.
pub fn marks_are_views()
    ensures { (r : Region LocalView) (entry : Store) (caps : Capacities) (calls : List (Call LocalView)) (before : List (Slot LocalView)) (x : Slot LocalView) (later : List (Slot LocalView)) (a : ℕ) (v : ℤ) → HaveTrackedFrames r calls → (after r caps calls (opened entry)).active ≡ before ++ x ∷ later → look x.marks a ≡ Some v → view (after r caps calls (opened entry)).store before a ≡ v }
{}

/// Quiet loops never repeat: where each earlier turn of the plain region that writes a word which a later turn reads before it writes it
/// writes what the entry's store has there, and no worker has given its iteration up, each active iteration that the plain region begins
/// too is in its first attempt, and no whole turn took more than one. Iterations behind the loop's end may do as they like. Behind it
/// stands this: as long as such an iteration has committed no word, each of its marks has the value of the entry's store.
pub fn never_repeats()
    ensures attempts { (c : Course LocalView) (entry : Store) (schedule : List ℕ) → IsQuiet c.region entry → (replayed c schedule (world_at entry)).board.counts.abandons ≡ 0 → AttemptsAreOne c.region entry (replayed c schedule (world_at entry)).board.head (replayed c schedule (world_at entry)).board.active }
    ensures repeats { (c : Course LocalView) (entry : Store) (schedule : List ℕ) → IsQuiet c.region entry → (replayed c schedule (world_at entry)).board.counts.abandons ≡ 0 → (replayed c schedule (world_at entry)).board.counts.repeats ≡ 0 }
    ensures marks { (c : Course LocalView) (entry : Store) (schedule : List ℕ) → IsQuiet c.region entry → (replayed c schedule (world_at entry)).board.counts.abandons ≡ 0 → (let b = (replayed c schedule (world_at entry)).board in MarksAreOfEntry c.region entry b.head b.store b.text b.head b.active) }
{}

/// Independent loops, where no turn of the plain region reads, before it writes it, a word that an earlier turn wrote, are quiet.
pub fn independent_is_quiet()
    ensures { (r : Region LocalView) (entry : Store) → IsIndependent r entry → IsQuiet r entry }
{}

/// So independent loops never repeat.
pub fn independent_never_repeat()
    ensures attempts { (c : Course LocalView) (entry : Store) (schedule : List ℕ) → IsIndependent c.region entry → (replayed c schedule (world_at entry)).board.counts.abandons ≡ 0 → AttemptsAreOne c.region entry (replayed c schedule (world_at entry)).board.head (replayed c schedule (world_at entry)).board.active }
    ensures repeats { (c : Course LocalView) (entry : Store) (schedule : List ℕ) → IsIndependent c.region entry → (replayed c schedule (world_at entry)).board.counts.abandons ≡ 0 → (replayed c schedule (world_at entry)).board.counts.repeats ≡ 0 }
    ensures marks { (c : Course LocalView) (entry : Store) (schedule : List ℕ) → IsIndependent c.region entry → (replayed c schedule (world_at entry)).board.counts.abandons ≡ 0 → (let b = (replayed c schedule (world_at entry)).board in MarksAreOfEntry c.region entry b.head b.store b.text b.head b.active) }
{}
