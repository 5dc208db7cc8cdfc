// Why an instruction is not carried out.
use erl_term::Term;

/// Why an instruction of a script is not carried out. It has done nothing then.
#[derive(Drop)]
pub enum Halt {
    /// This process runs, and is to be suspended.
    Busy(u64),
    /// It has failed, for this reason.
    Failed(Term),
    /// The serial of a load, or the turn of a process, can't be counted further.
    CounterEnd,
}
