// Why an application doesn't start, stop or go.
use crate::start_failed::StartFailed;
use erl_term::Term;
use std::fmt;
use thiserror::Error;

/// Why an application doesn't start, isn't stopped, or isn't unloaded (application(3)).
#[derive(Drop, Error)]
pub enum AppError {
    /// It is not loaded.
    #[error("the application is not loaded")]
    NotLoaded,
    /// It is started already.
    #[error("the application is started already")]
    AlreadyStarted,
    /// Its callback module's `init` gave no supervision: `{bad_init,V}`.
    #[error("the application's init gave no supervision")]
    BadInit(Term),
    /// A child has failed to start.
    #[error("a child has failed to start")]
    StartFailed(StartFailed),
    /// It is not started.
    #[error("the application is not started")]
    NotStarted,
    /// It is started, and can't be unloaded.
    #[error("the application is started")]
    Running,
}

/// As it is displayed.
impl fmt::Debug for AppError {
    fn fmt<W: fmt::Write>(&self, f: &mut fmt::Formatter<W>) -> fmt::Result {
        write!(f, "{self}")
    }
}
