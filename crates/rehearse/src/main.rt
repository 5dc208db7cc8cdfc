//! Rehearses the upgrade of an Erlang/OTP release before it is made, as a program.
//!
//! `rehearse ROOT FROM TO` reads the releases below ROOT, and prints what the upgrade from the one to the other does, step by
//! step, and what is likely wrong with it. docs/REHEARSAL.md shows an example.
//!
//! Proved are the status of each end ([`ending::exit_code`]); that a rehearsal ends by the verdict on its report
//! ([`reporting::end_of`]); that what is found is exactly what is likely wrong with the releases, the scripts and the rehearsal
//! ([`reporting::find_all`]); that the report has it, and what the command line allows ([`reporting::report_of`]); and that what
//! is printed of a fault of the files is one line. What is found and compared, and the verdict, are defined in the crates below,
//! with their contracts.
#![tactic(auto)]

ghost use Rattle.std.specs.Prelude.{IfOk};
ghost use Rattle.rehearse.specs.Reporting.{IsEnd};

mod appups;
mod asking;
mod bar;
mod ending;
mod place;
mod replacing;
mod reporting;
mod telling;

use asking::{Asked, read_asked, versions_of};
use bar::Bar;
use ending::{End, Fault, exit_code, worse};
use otp_files::print_relup;
use place::{try_place, write_at, write_output};
use rehearsal_json::write_json;
use rehearsal_report::Report;
use rehearsals::Rehearsal;
use rehearse_options::{Invocation, Options, read_invocation};
use reporting::{end_of, find_all, page_of, report_of, text_of};
use std::alloc::Global;
use std::hash::RandomState;
use std::io;
use std::io::IsTerminal;
use std::process::ExitCode;
use std::random::RandomSource;
use std::rt::Runtime;
use telling::tell;
use upgrade_files::Chosen;
use upgrade_rehearsal::rehearse;
use values::Duplicate;

/// Does what the command line asks for.
fn start<R: Runtime + RandomSource + AllocGlobal>(rt: &R, has_bar: bool) -> Result<End, Fault> {
    match read_invocation(rt)? {
        Invocation::Show(text) => {
            rt.print(text)?;
            Ok(End::Goes)
        }
        Invocation::Run(options) => execute(rt, has_bar, &options),
    }
}

/// Works on each release that FROM names.
fn execute<R: Runtime + RandomSource + AllocGlobal>(
    rt: &R,
    has_bar: bool,
    options: &Options,
) -> Result<End, Fault> {
    let hashing = RandomState::new(rt).map_err(Fault::NoRandomBytes)?;
    let versions = versions_of(rt.alloc(), options.from.as_str())?;
    match versions.as_slice() {
        [from] => execute_one(rt, has_bar, hashing, options, from),
        several => execute_all(rt, has_bar, hashing, options, several),
    }
}

/// Prints the relup from a release, if only that is asked for, or else rehearses, and writes the report.
fn execute_one<R: Runtime + RandomSource + AllocGlobal>(
    rt: &R,
    has_bar: bool,
    hashing: RandomState,
    options: &Options,
    from: &str,
) -> Result<End, Fault> {
    let asked = read_asked(rt, hashing, options, from)?;
    if options.relup {
        return show_relup(rt, &asked.chosen);
    }
    try_files(rt, options)?;
    let rehearsal = carry_out(rt, has_bar && !options.quiet, hashing, &asked)?;
    let found = find_all(rt.alloc(), &asked.chosen, &rehearsal)?;
    write_told(rt, options, &report_of(&asked, &rehearsal, &found))
}

/// Rehearses from each of several releases, one after the other, and returns the worst of their ends.
fn execute_all<R: Runtime + RandomSource + AllocGlobal>(
    rt: &R,
    has_bar: bool,
    hashing: RandomState,
    options: &Options,
    versions: &[&str],
) -> Result<End, Fault> {
    if is_for_one(options) {
        return Err(Fault::SeveralVersions);
    }
    let mut end = End::Goes;
    for (index, from) in versions.iter().enumerate() {
        if index > 0 {
            rt.print("\n")?;
        }
        end = worse(end, execute_one(rt, has_bar, hashing, options, from)?);
    }
    Ok(end)
}

/// Returns whether what is asked for works for only one release that is left.
fn is_for_one(options: &Options) -> bool {
    options.relup || options.html.is_some() || options.json.is_some()
}

/// Prints the relup.
fn show_relup<R: Runtime + AllocGlobal>(rt: &R, chosen: &Chosen) -> Result<End, Fault> {
    let mut text = Vec::new(rt.alloc());
    print_relup(&chosen.to.relup, &mut text)?;
    write_output(rt, text.as_slice())?;
    Ok(End::Goes)
}

/// Rehearses the upgrade; on a terminal a bar shows the progress.
fn carry_out<R: Runtime + AllocGlobal>(
    rt: &R,
    has_bar: bool,
    hashing: RandomState,
    asked: &Asked,
) -> Result<Rehearsal, Fault> {
    let to = asked.chosen.to.copy(rt.alloc())?;
    let mut bar = Bar::new(rt, has_bar, instructions_of(&asked.chosen));
    let traffic = asked.traffic.as_slice();
    let rehearsed = rehearse(
        rt.alloc(),
        hashing,
        &asked.chosen.from,
        to,
        traffic,
        &mut bar,
    );
    bar.clear();
    Ok(rehearsed?)
}

/// Returns the number of instructions that a rehearsal executes if none fails: both ways twice, each with the step that ends it.
fn instructions_of(chosen: &Chosen) -> u64 {
    let up = chosen.up().len() as u64;
    let down = chosen.down().map_or(0, |script| script.len() as u64);
    up.saturating_add(down).saturating_add(2).saturating_mul(2)
}

/// Writes the report of a rehearsal: the text, and then the page and the JSON, if they are asked for. Each is written even if
/// another one can't be.
fn write_told<R: Runtime + RandomSource + AllocGlobal>(
    rt: &R,
    options: &Options,
    report: &Report<'_>,
) -> Result<End, Fault>
    ensures { IfOk result (IsEnd report.now) }
{
    let text = text_of(rt.alloc(), report, options.quiet)?;
    let told = write_output(rt, text.as_slice());
    let paged = put_page(rt, options, report);
    let sent = put_json(rt, options, report);
    told?;
    paged?;
    sent?;
    Ok(end_of(report))
}

/// Writes the page, if one is asked for.
fn put_page<R: Runtime + RandomSource + AllocGlobal>(
    rt: &R,
    options: &Options,
    report: &Report<'_>,
) -> Result<(), Fault> {
    match &options.html {
        Some(path) => {
            let page = page_of(rt.alloc(), report)?;
            put_file(rt, path.as_str(), page.as_slice())
        }
        None => Ok(()),
    }
}

/// Writes the JSON, if it is asked for.
fn put_json<R: Runtime + RandomSource + AllocGlobal>(
    rt: &R,
    options: &Options,
    report: &Report<'_>,
) -> Result<(), Fault> {
    match &options.json {
        Some(path) => {
            let mut text = write_json(rt.alloc(), report)?;
            text.push('\n')?;
            put_file(rt, path.as_str(), text.as_bytes())
        }
        None => Ok(()),
    }
}

/// Writes the report into a file.
fn put_file<R: Runtime + RandomSource + AllocGlobal>(
    rt: &R,
    path: &str,
    text: &[u8],
) -> Result<(), Fault> {
    let written = write_at(rt, path, text);
    file_fault(rt.alloc(), path, written)
}

/// Tries whether the page and the JSON can be written, if they are asked for.
fn try_files<R: Runtime + RandomSource + AllocGlobal>(
    rt: &R,
    options: &Options,
) -> Result<(), Fault> {
    try_file(rt, &options.html)?;
    try_file(rt, &options.json)
}

/// Tries whether a file can be written, if one is named.
fn try_file<R: Runtime + RandomSource + AllocGlobal>(
    rt: &R,
    path: &Option<String>,
) -> Result<(), Fault> {
    match path {
        Some(path) => {
            let tried = try_place(rt, path.as_str());
            file_fault(rt.alloc(), path.as_str(), tried)
        }
        None => Ok(()),
    }
}

/// Returns why the report can't be written at a path, if it can't.
fn file_fault(alloc: Global, path: &str, written: io::Result<()>) -> Result<(), Fault> {
    match written {
        Ok(()) => Ok(()),
        Err(error) => Err(Fault::File(String::from_str(alloc, path)?, error)),
    }
}

/// Runs the program.
fn main(rt: HostRuntime) -> ExitCode {
    let has_bar = rt.stderr().is_terminal();
    let end = start(&rt, has_bar);
    if let Err(fault) = &end {
        tell(rt, fault);
    }
    exit_code(&end)
}
