// What is told of a fault, for the one who is to mend it.
ghost use Rattle.std.specs.Prelude.{IfOk, string_bytes};
ghost use Rattle.std.specs.Str.{chars};
ghost use Rattle.diagnostics.specs.Shown.{IsOneLine};

use crate::ending::Fault;
use diagnostics::{Diagnostic, HiddenRel, diagnose, not_started, push_shown};
use node_shell::StartFault;
use release_boot::BootError;
use std::alloc::{AllocError, Global};

/// What is told of a fault.
#[derive(Drop)]
pub struct FaultText {
    /// One line, whatever names and texts of files it holds.
    pub line: String,
    /// What stands below it on a terminal: the line of the file in which the fault is, and a mark below its place.
    pub excerpt: Option<String>,
}

/// What is told of a fault.
///
/// # Errors
///
/// `AllocError` where memory is refused.
pub fn describe(alloc: Global, fault: &Fault) -> Result<FaultText, AllocError>
    ensures { IfOk result (λ told. IsOneLine (chars (string_bytes told.line))) }
{
    match fault {
        Fault::Start(StartFault::OfFiles { fault, files }) => {
            of_diagnostic(alloc, &diagnose(alloc, files, fault)?)
        }
        Fault::Start(StartFault::OfBoot(BootError::NotStarted { app, reason })) => {
            of_text(alloc, not_started(alloc, app, reason)?.as_str())
        }
        _ => of_text(alloc, format!(in alloc; "{fault}")?.as_str()),
    }
}

/// What is told of a fault of a file.
fn of_diagnostic(alloc: Global, diagnostic: &Diagnostic) -> Result<FaultText, AllocError>
    ensures { IfOk result (λ told. IsOneLine (chars (string_bytes told.line))) }
{
    let mut told = of_text(alloc, format!(in alloc; "{diagnostic}")?.as_str())?;
    if let Some(excerpt) = &diagnostic.excerpt {
        told.excerpt = Some(format!(in alloc; "{excerpt}")?);
    }
    Ok(told)
}

/// What is told as one line.
fn of_text(alloc: Global, text: &str) -> Result<FaultText, AllocError>
    ensures { IfOk result (λ told. IsOneLine (chars (string_bytes told.line))) }
{
    let mut line = String::new(alloc);
    push_shown(text, &mut line)?;
    Ok(FaultText {
        line,
        excerpt: None,
    })
}

/// What is told where a file with a hidden name counts as the release.
///
/// # Errors
///
/// `AllocError` where memory is refused.
pub fn warning(alloc: Global, hidden: HiddenRel<'_>) -> Result<String, AllocError>
    ensures { IfOk result (λ line. IsOneLine (chars (string_bytes line))) }
{
    let mut line = String::new(alloc);
    push_shown("warning: ", &mut line)?;
    push_shown(hidden.taken, &mut line)?;
    push_shown(" is read as the release, and not ", &mut line)?;
    push_shown(hidden.other, &mut line)?;
    Ok(line)
}
