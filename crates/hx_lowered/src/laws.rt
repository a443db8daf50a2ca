// A law of lowering, the contract of a function that does nothing.

ghost use Rattle.hx_lowered.specs.Lowered.{LoweredCodeIsValid, SpelledCodeIsShort};

/// The words of an accepted program keep each rule of valid code, as long as there are fewer than
/// 2^32 of them: so a machine is never stuck in them, and a validator has nothing to refuse.
pub fn lowered_code_is_valid()
    ensures { LoweredCodeIsValid }
{}

/// The program that a source spells has fewer than 2^32 words: a source has at most 65536 bytes,
/// and each of its tokens stands for ten words at most.
pub fn spelled_code_is_short()
    ensures { SpelledCodeIsShort }
{}
