// What a step of a node gives, and what takes an event back.
ghost use Rattle.std.specs.Prelude.{◌≡◌};

use code_server::Modules;
use erl_ir::Module;
use node_types::{Answer, Note, Refusal};
use process_table::Processes;
use script_ends::{Finish, Recovery};
use script_state::Runner;
use sys_protocol::AppTable;
use undo_journal::Stepped;
use values::{Boxed, Failure};

/// What one step of a node gives: what is told of it and its record, or why it isn't made.
pub type Step = Result<Stepped<Answer, Note, Record>, Failure<Refusal>>;

/// What stood in a node before it restarted.
#[derive(Drop)]
pub struct Displaced {
    /// The modules.
    pub modules: Modules<Module>,
    /// The processes.
    pub processes: Processes,
    /// The applications.
    pub apps: AppTable,
    /// The script that ran, if one did.
    pub runner: Option<Runner>,
    /// What takes the change of statuses back.
    pub statuses: release_statuses::ReleasesUndo,
}

/// The way back of an event, by its kind. What is large and seldom has memory of its own.
#[derive(Drop)]
pub enum WayBack {
    /// The processes were changed, and no children.
    OfProcesses(process_table::ProcessesUndo),
    /// The processes were changed, and with them children.
    OfChildren(process_table::ProcessesUndo, Boxed<app_table::AppsUndo>),
    /// A module was loaded or purged, processes that lingered in it were killed, and with them children, if any.
    OfCode(Boxed<code_replacement::ReplacementUndo>),
    /// A module was deleted.
    OfDeletion(Boxed<code_server::ModulesUndo<Module>>),
    /// A release was set unpacked, or removed.
    OfReleases(Boxed<release_statuses::ReleasesUndo>),
    /// An install has begun. The script that runs keeps what takes it back.
    OfInstall,
    /// An instruction of the script was carried out.
    OfInstruction(Boxed<script_runner::InstructionUndo>),
    /// The script was finished.
    OfFinish(Boxed<Finish>),
    /// The script was given up before its point of no return.
    OfRecovery(Boxed<Recovery>),
    /// Several modules were purged, processes that lingered in them were killed, and with them children, if any; and statuses of
    /// releases were changed, or not.
    OfPurges(Boxed<code_replacement::Purges>, Option<Boxed<release_statuses::ReleasesUndo>>),
    /// The node has restarted.
    OfRestart(Boxed<Displaced>),
}

/// What takes an event back: the record that a journal keeps of it.
pub struct Record {
    /// The way back.
    pub way_back: WayBack,
}

/// It is taken apart here, so that who drops one above, or a journal that keeps one, has nothing to prove of its parts.
impl Drop for Record {
    fn drop(self) {
        let Record {
            way_back: _way_back,
        } = self;
    }
}

impl Record {
    /// Its way back, taken out of it. Takes no memory.
    pub(crate) fn into_way_back(self) -> WayBack
        ensures { result ≡ self.way_back }
    {
        let Record { way_back } = self;
        way_back
    }
}
