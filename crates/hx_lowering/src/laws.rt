// What holds of the code of every program, the contract of a function that does nothing.

ghost use Rattle.hx_lowering.specs.Laws.{CodeBehaves};

/// The code of a program does what the program means, and nothing else.
pub fn code_behaves()
    ensures { CodeBehaves }
{}
