// How a script ends.
use app_table::PutBack;
use erl_term::Term;
use low_instructions::Script;
use process_table::Resumed;
use release_words::Version;
use script_state::{Progress, Runner};
use values::Row;

/// What takes the end of a script back that was finished.
#[derive(Drop)]
pub struct Finish {
    /// The script.
    pub runner: Runner,
    /// The processes that were resumed, and whether each was suspended.
    pub resumed: Row<Resumed>,
    /// What takes the change of statuses back.
    pub statuses: release_statuses::ReleasesUndo,
}

/// What takes it back that a script was given up before the point of no return.
#[derive(Drop)]
pub struct Recovery {
    /// The script, but for what the applications were specified by before it: that stands in place again.
    pub script: Abandoned,
    /// The specifications that stood in their place, and the applications that were added.
    pub specs: PutBack,
}

/// A script that was given up, but for what the applications were specified by before it.
#[derive(Drop)]
pub struct Abandoned {
    /// The version of the release that was being installed.
    pub target: Version,
    /// The version that the relup's entry names.
    pub other: Version,
    /// What describes the entry.
    pub description: Term,
    /// The instructions, in order.
    pub script: Script,
    /// How far it had come.
    pub progress: Progress,
}
