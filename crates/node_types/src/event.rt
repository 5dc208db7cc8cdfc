// What happens to a node, and what is told of it.
use code_server::CodeError;
use erl_ir::Module;
use erl_semantics::{Done, Job};
use erl_term::{Atom, Term};
use install_checks::InstallError;
use low_instructions::Low;
use process_table::{ClientMessage, ProcError};
use release_statuses::{RelError, Vsn};
use release_table::Release;
use release_words::Version;
use std::alloc::{AllocError, Global};
use std::fmt;
use sys_protocol::SysError;
use thiserror::Error;
use values::{Duplicate, Row, Same};

/// An event: what makes a step of a node.
pub enum Event {
    /// A message of a client comes for the process of a name.
    Arrive {
        /// The client.
        client: u64,
        /// The name.
        name: Atom,
        /// What comes.
        body: ClientMessage,
    },
    /// The process of a pid takes its next message, and runs it.
    Take(u64),
    /// What a job has done is done.
    Commit(Done),
    /// A child that is due starts again.
    Revive {
        /// Its application.
        app: Atom,
        /// Its Id.
        id: Term,
    },
    /// A module is loaded; where it has old code, that is purged first.
    Load(Module),
    /// A module's current code becomes old.
    Delete(Atom),
    /// A module's old code is purged, and those who linger in it are killed.
    Purge(Atom),
    /// A module's old code is purged, where nobody lingers in it.
    SoftPurge(Atom),
    /// A release is set unpacked: the node knows it from then on.
    SetUnpacked(Release),
    /// The release of a version is removed, unless it is the permanent one.
    Remove(Vsn),
    /// An install of the release of a version begins: its script is to be run, one instruction after the other.
    Install(Vsn),
    /// The next instruction of the script is carried out; behind the last one the script is finished.
    Advance {
        /// Whether processes that run, and are to be suspended, are passed over, and not waited for.
        give_up: bool,
    },
    /// The release of a version, which is current, is made permanent.
    MakePermanent(Vsn),
    /// The node restarts with the release of a version, which is old.
    RebootOld(Vsn),
    /// Old code that scripts have left to be purged softly is purged, where nobody lingers in it.
    Sweep,
}

/// It is taken apart here, so that who drops one above has nothing to prove of its parts.
impl Drop for Event {
    fn drop(self) {
        match self {
            Event::Arrive {
                client: _client,
                name: _name,
                body: _body,
            } => {}
            Event::Take(_pid) => {}
            Event::Commit(_done) => {}
            Event::Revive { app: _app, id: _id } => {}
            Event::Load(_module) => {}
            Event::Delete(_name) => {}
            Event::Purge(_name) => {}
            Event::SoftPurge(_name) => {}
            Event::SetUnpacked(_release) => {}
            Event::Remove(_vsn) => {}
            Event::Install(_vsn) => {}
            Event::Advance { give_up: _give_up } => {}
            Event::MakePermanent(_vsn) => {}
            Event::RebootOld(_vsn) => {}
            Event::Sweep => {}
        }
    }
}

/// The answer to an event that is accepted.
#[derive(Drop)]
pub enum Answer {
    /// To a take: the job.
    Job(Job),
    /// To a revival: the pid of the child's process.
    Revived(u64),
    /// To a purge: whether processes were killed.
    Killed(bool),
    /// To an install: it has begun.
    Installing {
        /// The version of the release that is being installed.
        vsn: Version,
        /// How many instructions its script has.
        instructions: usize,
    },
    /// To an advance: the instruction that was carried out.
    Ran(Low),
    /// To an advance: the script is finished.
    Finished {
        /// The version that the script's entry in its relup names: that which was upgraded from, or downgraded to.
        vsn: Version,
        /// What describes the entry.
        description: Term,
    },
    /// To an advance: the instruction has failed for this reason, before the point of no return, and the script is given up.
    Recovered(Term),
    /// To an advance: the instruction has failed for this reason, behind the point of no return, and the node has restarted.
    Restarted(Term),
    /// To a sweep: the modules whose old code was purged, in the order of their names.
    Swept(Row<Atom>),
    /// To all others.
    Unit,
}

/// Why an event is refused; never for lack of memory.
#[derive(Error)]
pub enum Refusal {
    /// The processes refuse it.
    #[error("{0}")]
    OfProcesses(ProcError),
    /// The modules refuse it.
    #[error("{0}")]
    OfModules(CodeError),
    /// The applications refuse it.
    #[error("{0}")]
    OfApps(SysError),
    /// The releases refuse it.
    #[error("{0}")]
    OfReleases(RelError),
    /// The release can't be installed.
    #[error("the release can't be installed")]
    OfInstall(InstallError),
    /// A script runs.
    #[error("a script runs")]
    Installing,
    /// No script runs.
    #[error("no script runs")]
    NotInstalling,
    /// The process of this pid runs, and is to be suspended.
    #[error("a process runs, and is to be suspended")]
    Busy(u64),
    /// The serial of a load, or the turn of a process, can't be counted further.
    #[error("a number can't be counted further")]
    CounterEnd,
}

/// It is taken apart here, so that who drops one above has nothing to prove of its parts.
impl Drop for Refusal {
    fn drop(self) {
        match self {
            Refusal::OfProcesses(_why) => {}
            Refusal::OfModules(_why) => {}
            Refusal::OfApps(_why) => {}
            Refusal::OfReleases(_why) => {}
            Refusal::OfInstall(_why) => {}
            Refusal::Installing => {}
            Refusal::NotInstalling => {}
            Refusal::Busy(_pid) => {}
            Refusal::CounterEnd => {}
        }
    }
}

/// As it is displayed.
impl fmt::Debug for Refusal {
    fn fmt<W: fmt::Write>(&self, f: &mut fmt::Formatter<W>) -> fmt::Result {
        write!(f, "{self}")
    }
}

impl Duplicate for Answer {
    fn copy(&self, alloc: Global) -> Result<Answer, AllocError> {
        match self {
            Answer::Job(job) => Ok(Answer::Job(job.copy(alloc)?)),
            Answer::Revived(pid) => Ok(Answer::Revived(*pid)),
            Answer::Killed(killed) => Ok(Answer::Killed(*killed)),
            Answer::Installing { vsn, instructions } => Ok(Answer::Installing {
                vsn: vsn.copy(alloc)?,
                instructions: *instructions,
            }),
            Answer::Ran(instruction) => Ok(Answer::Ran(instruction.copy(alloc)?)),
            Answer::Finished { vsn, description } => Ok(Answer::Finished {
                vsn: vsn.copy(alloc)?,
                description: description.copy(alloc)?,
            }),
            Answer::Recovered(reason) => Ok(Answer::Recovered(reason.copy(alloc)?)),
            Answer::Restarted(reason) => Ok(Answer::Restarted(reason.copy(alloc)?)),
            Answer::Swept(modules) => Ok(Answer::Swept(modules.copy(alloc)?)),
            Answer::Unit => Ok(Answer::Unit),
        }
    }
}

impl Same for Answer {
    fn same(&self, other: &Answer) -> bool {
        match (self, other) {
            (Answer::Job(job), Answer::Job(with)) => job.same(with),
            (Answer::Revived(pid), Answer::Revived(with)) => *pid == *with,
            (Answer::Killed(killed), Answer::Killed(with)) => *killed == *with,
            (
                Answer::Installing { vsn, instructions },
                Answer::Installing {
                    vsn: v,
                    instructions: i,
                },
            ) => vsn.same(v) && *instructions == *i,
            (Answer::Ran(instruction), Answer::Ran(with)) => instruction.same(with),
            (
                Answer::Finished { vsn, description },
                Answer::Finished {
                    vsn: v,
                    description: d,
                },
            ) => vsn.same(v) && description.same(d),
            (Answer::Recovered(reason), Answer::Recovered(with)) => reason.same(with),
            (Answer::Restarted(reason), Answer::Restarted(with)) => reason.same(with),
            (Answer::Swept(modules), Answer::Swept(with)) => modules.same(with),
            (Answer::Unit, Answer::Unit) => true,
            (_, _) => false,
        }
    }
}

impl Same for Event {
    fn same(&self, other: &Event) -> bool {
        match (self, other) {
            (
                Event::Arrive { client, name, body },
                Event::Arrive {
                    client: c,
                    name: n,
                    body: b,
                },
            ) => *client == *c && name.same(n) && body.same(b),
            (Event::Take(pid), Event::Take(with)) => *pid == *with,
            (Event::Commit(done), Event::Commit(with)) => done.same(with),
            (Event::Revive { app, id }, Event::Revive { app: a, id: i }) => app.same(a)
                && id.same(i),
            (Event::Load(module), Event::Load(with)) => module.same(with),
            (Event::Delete(name), Event::Delete(with)) => name.same(with),
            (Event::Purge(name), Event::Purge(with)) => name.same(with),
            (Event::SoftPurge(name), Event::SoftPurge(with)) => name.same(with),
            (Event::SetUnpacked(release), Event::SetUnpacked(with)) => release.same(with),
            (Event::Remove(vsn), Event::Remove(with)) => vsn.same(with),
            (Event::Install(vsn), Event::Install(with)) => vsn.same(with),
            (Event::Advance { give_up }, Event::Advance { give_up: with }) => *give_up == *with,
            (Event::MakePermanent(vsn), Event::MakePermanent(with)) => vsn.same(with),
            (Event::RebootOld(vsn), Event::RebootOld(with)) => vsn.same(with),
            (Event::Sweep, Event::Sweep) => true,
            (_, _) => false,
        }
    }
}

impl Duplicate for Event {
    fn copy(&self, alloc: Global) -> Result<Event, AllocError> {
        match self {
            Event::Arrive { client, name, body } => Ok(Event::Arrive {
                client: *client,
                name: name.copy(alloc)?,
                body: body.copy(alloc)?,
            }),
            Event::Take(pid) => Ok(Event::Take(*pid)),
            Event::Commit(done) => Ok(Event::Commit(done.copy(alloc)?)),
            Event::Revive { app, id } => Ok(Event::Revive {
                app: app.copy(alloc)?,
                id: id.copy(alloc)?,
            }),
            Event::Load(module) => Ok(Event::Load(module.copy(alloc)?)),
            Event::Delete(name) => Ok(Event::Delete(name.copy(alloc)?)),
            Event::Purge(name) => Ok(Event::Purge(name.copy(alloc)?)),
            Event::SoftPurge(name) => Ok(Event::SoftPurge(name.copy(alloc)?)),
            Event::SetUnpacked(release) => Ok(Event::SetUnpacked(release.copy(alloc)?)),
            Event::Remove(vsn) => Ok(Event::Remove(vsn.copy(alloc)?)),
            Event::Install(vsn) => Ok(Event::Install(vsn.copy(alloc)?)),
            Event::Advance { give_up } => Ok(Event::Advance { give_up: *give_up }),
            Event::MakePermanent(vsn) => Ok(Event::MakePermanent(vsn.copy(alloc)?)),
            Event::RebootOld(vsn) => Ok(Event::RebootOld(vsn.copy(alloc)?)),
            Event::Sweep => Ok(Event::Sweep),
        }
    }
}

impl Same for Refusal {
    fn same(&self, other: &Refusal) -> bool {
        match (self, other) {
            (Refusal::OfProcesses(why), Refusal::OfProcesses(with)) => *why == *with,
            (Refusal::OfModules(why), Refusal::OfModules(with)) => *why == *with,
            (Refusal::OfApps(why), Refusal::OfApps(with)) => why.same(with),
            (Refusal::OfReleases(why), Refusal::OfReleases(with)) => *why == *with,
            (Refusal::OfInstall(why), Refusal::OfInstall(with)) => *why == *with,
            (Refusal::Installing, Refusal::Installing) => true,
            (Refusal::NotInstalling, Refusal::NotInstalling) => true,
            (Refusal::Busy(pid), Refusal::Busy(with)) => *pid == *with,
            (Refusal::CounterEnd, Refusal::CounterEnd) => true,
            (_, _) => false,
        }
    }
}

impl Duplicate for Refusal {
    fn copy(&self, alloc: Global) -> Result<Refusal, AllocError> {
        match self {
            Refusal::OfProcesses(why) => Ok(Refusal::OfProcesses(*why)),
            Refusal::OfModules(why) => Ok(Refusal::OfModules(*why)),
            Refusal::OfApps(why) => Ok(Refusal::OfApps(why.copy(alloc)?)),
            Refusal::OfReleases(why) => Ok(Refusal::OfReleases(*why)),
            Refusal::OfInstall(why) => Ok(Refusal::OfInstall(*why)),
            Refusal::Installing => Ok(Refusal::Installing),
            Refusal::NotInstalling => Ok(Refusal::NotInstalling),
            Refusal::Busy(pid) => Ok(Refusal::Busy(*pid)),
            Refusal::CounterEnd => Ok(Refusal::CounterEnd),
        }
    }
}
