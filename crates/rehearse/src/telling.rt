// Messages about faults, for the reader who is to mend them.
use crate::ending::Fault;
use diagnostics::{diagnose, not_started, push_shown};
use rehearsal_report::KINDS;
use release_boot::BootError;
use release_files::{Files, ReleaseFault};
use std::alloc::{AllocError, Global};
use upgrade_files::UnreadFaults;
use upgrade_rehearsal::Fault as RehearsalFault;

/// Prints a fault on the standard error, a line each. For a fault in a file, the faulty line is printed below, and a mark below
/// its place. If the standard error can't be written, only the status shows the fault.
pub fn tell(rt: HostRuntime, fault: &Fault) {
    let Ok(told) = describe(rt.alloc(), fault) else {
        let _ = eprintln!(rt; "rehearse: out of memory");
        return;
    };
    let _ = eprintln!(rt; "{told}");
}

/// Returns the message about a fault.
fn describe(alloc: Global, fault: &Fault) -> Result<String, AllocError> {
    let mut told = String::new(alloc);
    match fault {
        Fault::Releases(unread) => push_unread(alloc, unread, &mut told)?,
        Fault::Rehearsal(RehearsalFault::Boot(BootError::NotStarted { app, reason })) => {
            push_line(not_started(alloc, app, reason)?.as_str(), &mut told)?;
        }
        fault => {
            let mut text = format!(in alloc; "{fault}")?;
            push_help(fault, &mut text)?;
            push_line(text.as_str(), &mut told)?;
        }
    }
    Ok(told)
}

/// Appends what to write to mend the fault, if that is known.
fn push_help(fault: &Fault, text: &mut String) -> Result<(), AllocError> {
    match fault {
        Fault::UnknownKind(_) => push_kinds(text),
        _ => Ok(()),
    }
}

/// Appends all kinds of findings.
fn push_kinds(text: &mut String) -> Result<(), AllocError> {
    text.push_str("; the kinds are")?;
    for (index, kind) in KINDS.iter().enumerate() {
        text.push_str(if index == 0 { " " } else { ", " })?;
        text.push_str(kind.word())?;
    }
    Ok(())
}

/// Appends a line of the program.
fn push_line(text: &str, told: &mut String) -> Result<(), AllocError> {
    told.push_str("rehearse: ")?;
    push_shown(text, told)
}

/// Appends the messages about the files of two releases: each fault below the one before it.
fn push_unread(alloc: Global, unread: &UnreadFaults, told: &mut String) -> Result<(), AllocError> {
    for fault in &unread.faults {
        if !told.is_empty() {
            told.push('\n')?;
        }
        push_fault(alloc, &unread.files, fault, told)?;
    }
    Ok(())
}

/// Appends the message about a file.
fn push_fault(
    alloc: Global,
    files: &Files,
    fault: &ReleaseFault,
    told: &mut String,
) -> Result<(), AllocError> {
    let diagnostic = diagnose(alloc, files, fault)?;
    let text = format!(in alloc; "{diagnostic}")?;
    push_line(text.as_str(), told)?;
    if let Some(excerpt) = &diagnostic.excerpt {
        let shown = format!(in alloc; "\n{excerpt}")?;
        told.push_str(shown.as_str())?;
    }
    Ok(())
}
