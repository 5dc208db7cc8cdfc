//! An Erlang/OTP node whose release commands can be undone, as a program.
//!
//! `relnode ROOT VSN` reads the files below ROOT, boots the release of version VSN, and then reads commands from its standard
//! input, one a line; the answers go to its standard output. docs/COMMANDS.md is the manual page of the commands.
//!
//! What is proved of it is the contract of [`node_shell::run`], that the program ends as the run ended
//! ([`ending::run_to_end`]), and the status of each end ([`ending::exit_code`]); and that what is told of a fault is one
//! line ([`telling::describe`]). The rest of this file, the command line and the reading of the files are proved safe and
//! to return, and are tested by transcripts and by hand.
#![tactic(auto)]

mod ending;
mod telling;

use diagnostics::hidden_rel;
use ending::{Fault, console_to_end, exit_code, run_to_end, serve_to_end};
use file_tree::read_tree;
use release_files::Files;
use relnode_options::{Invocation, Options, Way, read_invocation};
use std::hash::RandomState;
use std::io;
use std::io::IsTerminal;
use std::process::ExitCode;
use std::random::RandomSource;
use std::rt::Runtime;
use std::sync::Wait;
use std::thread::Threads;
use telling::{describe, warning};

/// Does what the command line asks for, and finds faults in this order: the command line, the files, the
/// boot, the commands.
fn start<R: Runtime + RandomSource + AllocGlobal + Threads + Wait + Sync>(
    rt: &R,
) -> Result<(), Fault> {
    match read_invocation(rt)? {
        Invocation::Show(text) => Ok(rt.print(text)?),
        Invocation::Run(options) => execute(rt, &options),
    }
}

/// Boots the release, and runs the commands of the standard input, at a console or with workers if these are asked for.
fn execute<R: Runtime + RandomSource + AllocGlobal + Threads + Wait + Sync>(
    rt: &R,
    options: &Options,
) -> Result<(), Fault> {
    let hashing = RandomState::new(rt).map_err(Fault::NoRandomBytes)?;
    let files = read_tree(rt, hashing, options.root.as_str())?;
    warn(rt, &files, options.vsn.as_str());
    let mut reader = rt.reader();
    let mut writer = io::writer(rt);
    let vsn = options.vsn.as_str();
    match options.way {
        Way::Stepped => run_to_end(rt.alloc(), hashing, files, vsn, &mut reader, &mut writer),
        Way::Console => console_to_end(rt.alloc(), hashing, files, vsn, &mut reader, &mut writer),
        Way::Workers(workers) => serve_to_end(
            rt,
            rt.alloc(),
            hashing,
            files,
            vsn,
            workers,
            &mut reader,
            &mut writer,
        ),
    }
}

/// Says so where a file with a hidden name counts as the release. Where standard error cannot be written, or there is no
/// memory for the line, nothing is said.
fn warn<R: Runtime + AllocGlobal>(rt: &R, files: &Files, vsn: &str) {
    if let Some(hidden) = hidden_rel(files, vsn) {
        if let Ok(line) = warning(rt.alloc(), hidden) {
            let _ = eprintln!(rt; "relnode: {line}");
        }
    }
}

/// Tells a fault as one line on the standard error; on a terminal the line of the file in which it is stands below. Where
/// standard error cannot be written, the status alone tells of the fault.
fn tell(rt: HostRuntime, fault: &Fault) {
    let Ok(told) = describe(rt.alloc(), fault) else {
        let _ = eprintln!(rt; "relnode: out of memory");
        return;
    };
    let _ = eprintln!(rt; "relnode: {}", told.line);
    if let Some(excerpt) = &told.excerpt {
        if rt.stderr().is_terminal() {
            let _ = eprintln!(rt; "{excerpt}");
        }
    }
}

/// Runs the program.
fn main(rt: HostRuntime) -> ExitCode {
    let end = start(&rt);
    if let Err(fault) = &end {
        tell(rt, fault);
    }
    exit_code(&end)
}
