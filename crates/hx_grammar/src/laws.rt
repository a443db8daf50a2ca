// Laws of reading, each the contract of a function that does nothing.

ghost use Rattle.hx_grammar.specs.Laws.{
  HigherIsTooDeep,
  SpellsOneAtMost,
  SyntaxSpellsNone,
  TooDeepSpellsHigher,
  WhatIsReadIsSpelled,
  WhatIsSpelledIsRead,
};

/// The reading of tokens finds the one program that the grammar gives them, and each refusal means that there is none.
/// At every room, above which a program, a function and its body are three further nodes:
///
/// - `sound`: what is read is a program that the tokens spell, of height at most the room and three.
/// - `complete`: such a program is read.
/// - `too_high`: tokens that spell a higher program are refused as too deep.
/// - `unique`: tokens spell one program at most, of whatever height: the grammar is unambiguous.
/// - `syntax`: where the syntax is refused, the tokens spell no program of any height.
/// - `too_deep`: where they are refused as too deep, they spell none of height at most the room and three.
pub fn reading_is_right()
    ensures sound { WhatIsReadIsSpelled }
    ensures complete { WhatIsSpelledIsRead }
    ensures too_high { HigherIsTooDeep }
    ensures unique { SpellsOneAtMost }
    ensures syntax { SyntaxSpellsNone }
    ensures too_deep { TooDeepSpellsHigher }
{}
