// Findings.
use crate::interface::Call;
use erl_term::Atom;
use low_instructions::Direction;
use release_words::{copied_variants, same_variants};
use std::alloc::{AllocError, Global};
use values::{Duplicate, Same};

/// What is likely wrong with an upgrade, and where. An index is that of an instruction of the script, from 0.
#[derive(Drop)]
pub enum Finding {
    /// An application of the release that is installed has this module, the release that is left lacks it or has other code of
    /// it, and no instruction loads it. The node runs on with the code that it has, until it is restarted. Load the module, or
    /// see that nobody needs the new code before a restart.
    NotLoaded {
        /// The application.
        application: Atom,
        /// The module.
        module: Atom,
    },
    /// This module is loaded, though both releases have the same code of it, and no application that has it is started. Its old
    /// code is purged for nothing, and with it the processes that run it. Take out the instruction, and those that are there for
    /// it.
    LoadedAgain {
        /// Where it is loaded.
        index: usize,
        /// The module.
        module: Atom,
    },
    /// Processes are to change their state by this module, and its code at that point exports no `code_change/3`. The upgrade
    /// fails at the first of them that the script has suspended. Write the function, or take the module out of the instruction.
    /// A callback module of an application isn't reported, for the change of its code is that of a supervisor.
    NoCodeChange {
        /// Where their state is changed.
        index: usize,
        /// The module.
        module: Atom,
    },
    /// This application is started, and no instruction before stops it. That is right for one that the upgrade adds. If the
    /// application runs already, its start fails, and so does the upgrade.
    Starts {
        /// Where it is started.
        index: usize,
        /// The application.
        application: Atom,
    },
    /// This application is started, and an instruction before stops it. It serves nobody in between, and its processes lose
    /// their state. If they are to keep it, upgrade its modules instead.
    Restarts {
        /// Where it is started again.
        index: usize,
        /// The application.
        application: Atom,
    },
    /// This application is stopped, and no instruction after it starts the application. That is right for one that the upgrade
    /// removes.
    Stops {
        /// Where it is stopped.
        index: usize,
        /// The application.
        application: Atom,
    },
    /// No script leads down again: only a restart leads back to the release that is left. Write the instructions for the way
    /// down, or see that nobody needs it.
    NoWayDown,
    /// This module is loaded on the way up, and the script that leads down neither loads nor removes it. After both, the node
    /// has its new code in the old release. Load its old code on the way down, or remove it.
    NotUndone {
        /// Where it is loaded on the way up.
        index: usize,
        /// The module.
        module: Atom,
    },
    /// The processes of this module are suspended, and no instruction after it resumes them. This node resumes them at the end
    /// of the script; OTP leaves them suspended for ever, though the install succeeds. Resume the module.
    NotResumedOnOtp {
        /// Whether it is on the way up.
        way: Direction,
        /// Where they are suspended.
        index: usize,
        /// The module.
        module: Atom,
    },
    /// The processes of this module are resumed, and were not suspended by its name. This node resumes the processes whose
    /// children name it; OTP resumes none. Resume them by the names that they are suspended by.
    ResumesNobodyOnOtp {
        /// Whether it is on the way up.
        way: Direction,
        /// Where they are resumed.
        index: usize,
        /// The module.
        module: Atom,
    },
    /// The processes of this module are to change their state, and were not suspended by its name. This node changes the state
    /// of the suspended processes whose children name it; OTP changes none. Suspend them by the name that changes them.
    ChangesNobodyOnOtp {
        /// Whether it is on the way up.
        way: Direction,
        /// Where their state is changed.
        index: usize,
        /// The module.
        module: Atom,
    },
    /// The children of this module are started, and were not stopped by its name, or are started already. This node starts the
    /// stopped children that name it; OTP starts none. Start them by the names that they are stopped by.
    StartsNobodyOnOtp {
        /// Whether it is on the way up.
        way: Direction,
        /// Where they are started.
        index: usize,
        /// The module.
        module: Atom,
    },
    /// A script has no point of no return: this node refuses it, and OTP executes it. Write one.
    NoPointOnOtp {
        /// Whether it is on the way up.
        way: Direction,
    },
    /// This is a second point of no return: this node refuses the script, and OTP executes it. Take it out.
    SecondPointOnOtp {
        /// Whether it is on the way up.
        way: Direction,
        /// Where it is.
        index: usize,
    },
    /// An instruction is before the point of no return that belongs after it: this node refuses the script, and OTP executes it.
    /// Move the instruction after the point.
    EarlyOnOtp {
        /// Whether it is on the way up.
        way: Direction,
        /// Where it is.
        index: usize,
    },
    /// Processes are suspended, or children stopped, while the supervisor of an application is kept suspended by its callback
    /// module. OTP asks all supervisors then, fails, and restarts the node. Resume the supervisor before.
    SuspendedSupervisorOnOtp {
        /// Whether it is on the way up.
        way: Direction,
        /// Where they are suspended or stopped.
        index: usize,
        /// The callback module.
        module: Atom,
    },
    /// A module calls a function of another module, and at each of these points of the script that module's current code doesn't
    /// export it, or it has no current code. A process that makes the call then ends with `undef`. Load the called module before
    /// the caller, and remove it after the caller.
    Unanswered {
        /// Whether it is on the way up.
        way: Direction,
        /// The number of instructions after which it begins.
        from: usize,
        /// The number of instructions after which it ends; none if it lasts to the end.
        to: Option<usize>,
        /// The module that calls.
        caller: Atom,
        /// The function that it calls.
        call: Call,
    },
    /// An instruction applies this function of a module of the releases. At that point the module's current code doesn't export
    /// it, or the module has no current code: the instruction fails.
    AppliesNobody {
        /// Whether it is on the way up.
        way: Direction,
        /// The index of the instruction.
        index: usize,
        /// The function.
        call: Call,
    },
    /// A module of the release that is installed calls a function of a module that neither release has. If OTP has the module,
    /// the call can't be rehearsed; else add its application to the release.
    CallsOutside {
        /// The module that calls.
        caller: Atom,
        /// The function that it calls.
        call: Call,
    },
    /// This function of a module of the release that is installed serves a process, and calls `gen_server:call`. The call ends
    /// the process here, so it can't be rehearsed.
    CallsInCallback {
        /// The function.
        callback: Call,
    },
}

impl Same for Finding {
    fn same(&self, other: &Finding) -> bool {
        same_variants!(
            self, other, Finding,
            NotLoaded { application: a, module: m }
            LoadedAgain { index: i, module: m }
            NoCodeChange { index: i, module: m }
            Starts { index: i, application: a }
            Restarts { index: i, application: a }
            Stops { index: i, application: a }
            NoWayDown {}
            NotUndone { index: i, module: m }
            NotResumedOnOtp { way: w, index: i, module: m }
            ResumesNobodyOnOtp { way: w, index: i, module: m }
            ChangesNobodyOnOtp { way: w, index: i, module: m }
            StartsNobodyOnOtp { way: w, index: i, module: m }
            NoPointOnOtp { way: w }
            SecondPointOnOtp { way: w, index: i }
            EarlyOnOtp { way: w, index: i }
            SuspendedSupervisorOnOtp { way: w, index: i, module: m }
            Unanswered { way: w, from: f, to: t, caller: c, call: k }
            AppliesNobody { way: w, index: i, call: k }
            CallsOutside { caller: c, call: k }
            CallsInCallback { callback: k }
        )
    }
}

impl Duplicate for Finding {
    fn copy(&self, alloc: Global) -> Result<Finding, AllocError> {
        copied_variants!(
            self, alloc, Finding,
            NotLoaded { application, module }
            LoadedAgain { index, module }
            NoCodeChange { index, module }
            Starts { index, application }
            Restarts { index, application }
            Stops { index, application }
            NoWayDown {}
            NotUndone { index, module }
            NotResumedOnOtp { way, index, module }
            ResumesNobodyOnOtp { way, index, module }
            ChangesNobodyOnOtp { way, index, module }
            StartsNobodyOnOtp { way, index, module }
            NoPointOnOtp { way }
            SecondPointOnOtp { way, index }
            EarlyOnOtp { way, index }
            SuspendedSupervisorOnOtp { way, index, module }
            Unanswered { way, from, to, caller, call }
            AppliesNobody { way, index, call }
            CallsOutside { caller, call }
            CallsInCallback { callback }
        )
    }
}
