// Children of supervisors.
ghost use Rattle.std.specs.Prelude.{◌≡◌};
ghost use Rattle.std.specs.List.{list_any};
ghost use Rattle.app_table.specs.Children.{in_state, is_due, runs_as};
ghost use Rattle.app_table.specs.Modules.{has_module, has_none, is_first_for};
ghost use Rattle.app_table.specs.Ordered.{pid_in};

use child_specs::ChildSpec;
use erl_term::Atom;

/// Whether a child runs (supervisor(3)).
#[derive(Clone, Copy, Debug, PartialEq, Eq, Drop)]
pub enum ChildState {
    /// It runs as the process of this pid.
    Running(u64),
    /// Its process has ended, and it is to be started again.
    Due,
    /// It has no process, and isn't started again by itself.
    Stopped,
}

/// A child of an application's supervisor.
#[derive(Drop)]
pub struct Child {
    /// What it is.
    pub spec: ChildSpec,
    /// Whether it runs.
    pub state: ChildState,
}

impl Child {
    /// It is in this state now.
    pub(crate) fn set(&mut self, state: ChildState)
        ensures { self.new ≡ in_state state self.old }
    {
        self.state = state;
    }

    /// Whether it is to be started again. Takes no memory.
    pub fn is_due(&self) -> bool
        ensures { result ≡ is_due self.now }
    {
        match self.state {
            ChildState::Due => true,
            ChildState::Running(_) | ChildState::Stopped => false,
        }
    }

    /// The pid of the process that it runs as.
    pub(crate) fn pid(&self) -> Option<u64>
        ensures { result ≡ pid_in self.now.state }
    {
        match self.state {
            ChildState::Running(its) => Some(its),
            ChildState::Due | ChildState::Stopped => None,
        }
    }

    /// Whether it runs as the process of a pid. Takes no memory.
    pub fn runs_as(&self, pid: u64) -> bool
        ensures { result ≡ runs_as pid self.now }
    {
        match self.state {
            ChildState::Running(its) => its == pid,
            ChildState::Due | ChildState::Stopped => false,
        }
    }

    /// Whether it has no process.
    pub(crate) fn has_none(&self) -> bool
        ensures { result ≡ has_none self.now.state }
    {
        match self.state {
            ChildState::Due | ChildState::Stopped => true,
            ChildState::Running(_) => false,
        }
    }

    /// Whether its specification names a module. Takes no memory.
    pub fn has_module(&self, name: &Atom) -> bool
        ensures { result ≡ has_module name.now self.now }
    {
        self.spec
            .modules
            .as_slice()
            .iter()
            .any(|each| *each == *name)
    }

    /// Whether its specification names a module, and none of those before it.
    pub(crate) fn is_first_for(&self, before: &[Atom], name: &Atom) -> bool
        ensures { result ≡ is_first_for before.now name.now self.now }
    {
        self.has_module(name) && !self.has_any(before)
    }

    /// Whether its specification names one of these modules.
    fn has_any(&self, names: &[Atom]) -> bool
        ensures { result ≡ list_any (λ name. has_module name self.now) names.now }
    {
        names.iter().any(|name| self.has_module(name))
    }
}
