// Requests, and the lines that make them.
use crate::name::Name;
use undo_journal::Mark;

/// What is asked without changing anything.
#[derive(Clone, Copy)]
pub enum Question {
    /// `modules`
    Modules,
    /// `apps`
    Apps,
    /// `replies`
    Replies,
    /// `mark`
    Mark,
    /// `which`
    Which,
}

/// A change of the releases that a node knows, or of the one that runs, that needs nothing but a version.
#[derive(Clone, Copy)]
pub enum ReleaseChange {
    /// `remove`
    Remove,
    /// `install`
    Install,
    /// `permanent`
    MakePermanent,
    /// `reboot`
    RebootOld,
}

/// A change of a module that needs nothing but its name.
#[derive(Clone, Copy)]
pub enum CodeOperation {
    /// `delete`
    Delete,
    /// `purge`
    Purge,
    /// `soft_purge`
    SoftPurge,
}

/// What a mark is named for.
#[derive(Clone, Copy)]
pub enum MarkUse {
    /// `undo`: to go back to it.
    Undo,
    /// `forget`: to have it as the floor.
    Forget,
}

/// What arrives.
#[derive(Clone, Copy)]
pub enum ArrivalKind {
    /// `call`
    Call,
    /// `cast`
    Cast,
    /// `send`
    Info,
}

/// What a process is asked for.
#[derive(Clone, Copy)]
pub enum Service {
    /// `take`: to take its next message.
    Take,
    /// `retake`: the job that it runs.
    Retake,
    /// `proc`: what it is.
    Show,
}

/// What follows the word of a command.
#[derive(Clone, Copy)]
pub enum CommandOperands {
    /// No word: the command asks this.
    Nothing(Question),
    /// `MOD`: the command makes this change of a module.
    Module(CodeOperation),
    /// `MOD PATH`: the command loads a module.
    ModuleAndPath,
    /// `K`: the command names a mark for this.
    Mark(MarkUse),
    /// `J`: the command commits a result.
    Result,
    /// `NAME TERM`: the command has this arrive.
    NameAndTerm(ArrivalKind),
    /// `PROC`: the command asks this of a process.
    Process(Service),
    /// `APP ID`: the command revives a child.
    AppAndChild,
    /// `VSN`: the command unpacks a release.
    Unpack,
    /// `VSN`: the command makes this change of the releases.
    Version(ReleaseChange),
    /// `FROM TO`: the command tells the relup of two releases.
    TwoVersions,
    /// No word, or `give_up`: the command has the script go on.
    Step,
    /// No word: the command sweeps.
    Sweep,
}

/// A process, as it is named.
#[derive(Clone, Copy)]
pub enum Proc<'a> {
    /// The one with this pid.
    Pid(u64),
    /// The one that is registered under a name.
    Name(Name<'a>),
}

/// What a line asks for.
#[derive(Clone, Copy)]
pub enum Request<'a> {
    /// To tell something.
    Ask(Question),
    /// To change a module.
    Alter(CodeOperation, Name<'a>),
    /// To load a module of the file at a path.
    Load(Name<'a>, &'a str),
    /// To undo every step after a mark.
    Undo(Mark),
    /// To forget every station before a mark's.
    Forget(Mark),
    /// To commit the result of so many a job, counted from 1.
    Commit(u64),
    /// To have something arrive for a name. The text is that of its term, without the dot.
    Arrive(ArrivalKind, Name<'a>, &'a str),
    /// To ask something of a process.
    Serve(Service, Proc<'a>),
    /// To revive a child of an application, by its Id.
    Revive(Name<'a>, Name<'a>),
    /// To unpack the release of a version.
    Unpack(&'a str),
    /// To change the releases, by a version.
    Release(ReleaseChange, &'a str),
    /// To tell the relup that leads from the release of a version to that of another.
    Relup(&'a str, &'a str),
    /// To have the script that runs go on by one instruction.
    Advance {
        /// Whether processes that run, and are to be suspended, are passed over, and not waited for.
        give_up: bool,
    },
    /// To purge old code that scripts have left to be purged softly.
    Sweep,
}

/// What a line of at most 65,536 bytes says.
#[derive(Clone, Copy)]
pub enum Line<'a> {
    /// Nothing, and it has no answer: it is blank, or a comment.
    Silent,
    /// Nothing that is a command.
    Unknown,
    /// A request.
    Asks(Request<'a>),
}
