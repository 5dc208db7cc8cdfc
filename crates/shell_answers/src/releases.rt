// Releases, as an answer.
ghost use Rattle.std.specs.Prelude.{◌≡◌, ◌++◌, IfOk, OnOk, map};
ghost use Rattle.std.specs.Str.{chars};
ghost use Rattle.erl_term.specs.Conversions.{rows};
ghost use Rattle.erl_term.specs.Text.{elements_text, text, utf8};
ghost use Rattle.release_statuses.specs.Statuses.{which_releases};
ghost use Rattle.release_words.specs.Words.{string_tree};
ghost use Rattle.shell_answers.specs.Answers.{AreNames, characters, line_of, named_version, named_versions, release_of};
ghost use Rattle.shell_answers.specs.Answers.{releases_in, releases_of, set_unpacked, status_of};

use crate::bytes::{put, put_separator};
use erl_term::print_string;
use otp_files::RelApp;
use release_statuses::{Listed, Status};
use std::alloc::{AllocError, Global};

/// Appends the word of a status.
pub(crate) fn put_status(status: Status, out: &mut Vec<u8>) -> Result<(), AllocError>
    ensures { OnOk result (out.new.items ≡ out.old.items ++ utf8 (text (status_of status))) }
{
    match status {
        Status::Unpacked => put(b"unpacked", out),
        Status::Current => put(b"current", out),
        Status::Permanent => put(b"permanent", out),
        Status::Old => put(b"old", out),
    }
}

/// Appends `{ok,"Vsn"}`.
pub fn write_unpacked(vsn: &str, out: &mut Vec<u8>) -> Result<(), AllocError>
    ensures { OnOk result (out.new.items ≡ out.old.items ++ line_of (set_unpacked (chars vsn.now))) }
{
    put(b"{ok,", out)?;
    print_string(vsn, out)?;
    put(b"}\n", out)
}

/// The text `App-Vsn` of an application.
fn named_version(alloc: Global, app: &RelApp) -> Result<String, AllocError>
    ensures { IfOk result (λ name. characters name ≡ named_version app.now) }
{
    let mut name = String::from_str(alloc, app.name.as_str())?;
    name.push('-')?;
    name.push_str(app.vsn.as_str())?;
    Ok(name)
}

/// The texts `App-Vsn` of the applications of a release, in order.
fn names_of_apps(alloc: Global, apps: &[RelApp]) -> Result<Vec<String>, AllocError>
    ensures { IfOk result (λ names. map characters names.items ≡ map named_version apps.now) }
{
    let mut names = Vec::with_capacity(alloc, apps.len())?;
    for app in apps {
        names.push(named_version(alloc, app)?)?;
    }
    Ok(names)
}

/// The texts `App-Vsn` of the applications of releases, a row a release, in order. They are made before anything is written, so
/// that lack of memory leaves the output as it is.
///
/// # Errors
///
/// `AllocError` where memory is refused.
pub fn names_in_releases(alloc: Global, releases: &[Listed]) -> Result<Vec<Vec<String>>, AllocError>
    ensures { IfOk result (λ names. AreNames names.items releases.now) }
{
    let mut names = Vec::with_capacity(alloc, releases.len())?;
    for it in releases {
        names.push(names_of_apps(alloc, it.release.rel.apps.as_slice())?)?;
    }
    Ok(names)
}

/// Appends texts as strings, with commas between them.
fn put_strings(texts: &[String], out: &mut Vec<u8>) -> Result<(), AllocError>
    ensures { OnOk result (out.new.items ≡ out.old.items ++ utf8 (elements_text (rows string_tree (map characters texts.now)))) }
{
    for index in 0..texts.len() {
        put_separator(index == 0, out)?;
        print_string(texts[index].as_str(), out)?;
    }
    Ok(())
}

/// Appends `{Name,Vsn,["App-Vsn"],Status}`.
fn put_release(it: &Listed, names: &[String], out: &mut Vec<u8>) -> Result<(), AllocError>
    requires { map characters names.now ≡ named_versions it.now }
    ensures { OnOk result (out.new.items ≡ out.old.items ++ utf8 (text (release_of it.now))) }
{
    put(b"{", out)?;
    print_string(it.release.rel.name.as_str(), out)?;
    put(b",", out)?;
    print_string(it.release.rel.vsn.as_str(), out)?;
    put(b",[", out)?;
    put_strings(names, out)?;
    put(b"],", out)?;
    put_status(it.status, out)?;
    put(b"}", out)
}

/// Appends the releases, the last first, with commas between them.
fn put_releases(
    releases: &[Listed],
    names: &[Vec<String>],
    out: &mut Vec<u8>,
) -> Result<(), AllocError>
    requires { AreNames names.now releases.now }
    ensures { OnOk result (out.new.items ≡ out.old.items ++ utf8 (elements_text (releases_in (which_releases releases.now)))) }
{
    let last = releases.len();
    for index in 0..last {
        put_separator(index == 0, out)?;
        let from_end = last - 1 - index;
        put_release(&releases[from_end], names[from_end].as_slice(), out)?;
    }
    Ok(())
}

/// Appends `[{Name,Vsn,["App-Vsn"],Status}]`, the last release first. The names are those of the releases' applications.
pub fn write_releases(
    releases: &[Listed],
    names: &[Vec<String>],
    out: &mut Vec<u8>,
) -> Result<(), AllocError>
    requires { AreNames names.now releases.now }
    ensures { OnOk result (out.new.items ≡ out.old.items ++ line_of (releases_of releases.now)) }
{
    put(b"[", out)?;
    put_releases(releases, names, out)?;
    put(b"]\n", out)
}
