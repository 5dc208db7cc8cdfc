// What takes an instruction back.
use code_changes::CodeChangeUndo;
use suspensions::ResumeUndo;

/// What takes an instruction of a script back. At most one part of it can be refused, for lack of memory, and it goes first.
#[derive(Drop)]
pub enum InstructionUndo {
    /// Nothing was changed.
    Nothing,
    /// So many modules are new among those whose object code was read.
    Read(usize),
    /// Code was loaded or removed.
    Replaced(code_replacement::ReplacementUndo),
    /// Old code was purged.
    Purged(code_replacement::Purges),
    /// So many processes were suspended.
    Suspended(usize),
    /// Processes were resumed.
    Resumed(ResumeUndo),
    /// Processes have changed their states, and supervisors have specified their children anew.
    Changed(CodeChangeUndo),
    /// Children and applications were changed, and so many children were noted.
    Children(script_children::ChildrenUndo, usize),
}
