// What holds of the region of valid code, the contracts of functions that do nothing.

ghost use Rattle.std.specs.Prelude.{◌≡◌, ℕ, ℤ, List, length};
ghost use Rattle.hx_code.specs.Code.{CodeView, store_words};
ghost use Rattle.hx_code.specs.Local.{LocalView};
ghost use Rattle.hx_code.specs.Valid.{IsValid};
ghost use Rattle.hx_code.specs.Region.{Opened, region_opening, region_after};
ghost use Rattle.hx_word.specs.Running.{IsOpened};
ghost use Rattle.hx_speculation.specs.Iteration.{Store};
ghost use Rattle.hx_frame.specs.Automaton.{ask_in};
ghost use Rattle.hx_regions.specs.Region.{store_of, plain_after, Shows, StandsIn, FitsAsked, FitsPlain};

/// After as many words, the machine's region and the plain one of the theorem are at the same: both go on from the same local state
/// of the same iteration, or both have ended in it by the same exit, over the same store and with the same text and whole turns; and the
/// region is opened as it was.
pub fn regions_agree()
    ensures { (code : CodeView) → IsValid code → (o : Opened) → IsOpened code o → (words : List ℤ) → length words ≡ store_words code → (n : ℕ) → Shows o (region_after code n (region_opening code o words)) (plain_after code o (store_of words) n) }
{}

/// Whatever the store, after any number of words the plain region is at a local state that fits the code and stands in its region,
/// or has ended, and its text fits behind what was printed before.
pub fn states_fit()
    ensures { (code : CodeView) → IsValid code → (o : Opened) → IsOpened code o → (entry : Store) (n : ℕ) → FitsPlain code o (plain_after code o entry n) }
{}

/// A local state that fits the code and stands in a region asks for words that the store has, and goes on in such states only.
pub fn one_word_fits()
    ensures { (code : CodeView) → IsValid code → (r : ℕ) (l : LocalView) → StandsIn code r l → FitsAsked code r (ask_in code l) }
{}
