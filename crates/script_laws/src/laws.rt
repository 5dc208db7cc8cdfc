// What holds of every instruction of a script.
ghost use Rattle.script_laws.specs.AtHand.{LoadsTakeWhatWasRead};
ghost use Rattle.script_laws.specs.Laws.{InstructionsHaveOneOutcome, InstructionsKeepChildren, InstructionsKeepCode};

/// An instruction does one thing, and tells one thing, or is halted for one reason; and never both, where no process has to be
/// waited for.
pub fn instructions_have_one_outcome()
    ensures { InstructionsHaveOneOutcome }
{}

/// Modules and processes stay consistent where an instruction is carried out: no process uses code that is gone.
pub fn instructions_keep_code()
    ensures { InstructionsKeepCode }
{}

/// Each child that runs is a process of its own, which lives, where an instruction is carried out.
pub fn instructions_keep_children()
    ensures { InstructionsKeepChildren }
{}

/// A load takes the source that was read, of the application and the version whose object code it is, where modules of the
/// release differ in name.
pub fn loads_take_what_was_read()
    ensures { LoadsTakeWhatWasRead }
{}
