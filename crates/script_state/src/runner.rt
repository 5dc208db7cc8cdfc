// A script that is run.
ghost use Rattle.std.specs.Prelude.{◌≡◌, slice_get};
ghost use Rattle.std.specs.Option.{option_copied};

use crate::noted::NotedVersion;
use app_table::{ChildName, FormerSpecs};
use erl_term::Term;
use low_instructions::{Low, Script};
use release_words::Version;

/// How far a script has come, and what its instructions have left for those behind them. Contracts see it as `ProgressState`,
/// its lists without the room that they have.
#[derive(Drop)]
pub struct Progress {
    /// The index of the next instruction, counted from 0.
    pub next: usize,
    /// The processes that were suspended and not resumed since, in order. Some may have ended.
    pub suspended: Vec<u64>,
    /// The children that were stopped, in order.
    pub stopped: Vec<ChildName>,
    /// What is noted of the modules whose object code is at hand, in the order in which it was read.
    pub versions: Vec<NotedVersion>,
}

/// A script that is run. Contracts see it as `RunnerState`.
#[derive(Drop)]
pub struct Runner {
    /// The version of the release that is being installed.
    pub target: Version,
    /// The version of the script's entry in its relup: that which is upgraded from, or downgraded to.
    pub other: Version,
    /// What describes the entry.
    pub description: Term,
    /// The instructions, in order.
    pub script: Script,
    /// What the applications were specified by before the install.
    pub former: FormerSpecs,
    /// How far it has come.
    pub progress: Progress,
}

/// The next instruction of a script, if one is left. Takes no memory.
pub fn instruction_at(script: &[Low], index: usize) -> Option<&Low>
    ensures { option_copied result ≡ slice_get script.now index }
{
    script.get(index)
}
