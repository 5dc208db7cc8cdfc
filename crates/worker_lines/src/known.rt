// The releases that a node knows, as a seat was told of them.
ghost use Rattle.std.specs.Prelude.{◌≡◌, Some};
ghost use Rattle.std.specs.Option.{option_copied};
ghost use Rattle.std.specs.Str.{bytes_eq, chars};
ghost use Rattle.install_checks.specs.Installing.{script_to};
ghost use Rattle.release_statuses.specs.Statuses.{first_with, has_status, is_status, listed, index_of, index_with};
ghost use Rattle.release_statuses.specs.Statuses.{running, vsn_of};
ghost use Rattle.shell_answers.specs.Refusals.{subject_of};
ghost use Rattle.shell_exec.specs.Upgrades.{script_in, subject_in};

use low_instructions::Low;
use release_statuses::{Listed, Status};
use script_state::script_for;
use shell_answers::Subject;

/// Whether two statuses are one.
fn is_status(one: Status, other: Status) -> bool
    ensures { result ≡ is_status one other }
{
    one == other
}

/// Whether a release has a status.
fn has_status(it: &Listed, status: Status) -> bool
    ensures { result ≡ has_status status it.now }
{
    is_status(status, it.status)
}

/// Whether a release is of a version.
fn is_of(it: &Listed, vsn: &str) -> bool
    ensures { result ≡ bytes_eq (chars vsn.now) (vsn_of it.now) }
{
    vsn == it.release.rel.vsn.as_str()
}

/// Where the release of a version stands.
fn index_of(releases: &[Listed], vsn: &str) -> Option<usize>
    ensures { result ≡ index_of (chars vsn.now) releases.now }
{
    releases.iter().position(|it| is_of(it, vsn))
}

/// Where the first release with a status stands.
fn index_with(releases: &[Listed], status: Status) -> Option<usize>
    ensures { result ≡ index_with status releases.now }
{
    releases.iter().position(|it| has_status(it, status))
}

/// The release of a version.
fn listed<'a>(releases: &'a [Listed], vsn: &str) -> Option<&'a Listed>
    ensures { option_copied result ≡ listed (chars vsn.now) releases.now }
{
    let index = index_of(releases, vsn)?;
    releases.get(index)
}

/// The first release with a status.
fn first_with(releases: &[Listed], status: Status) -> Option<&Listed>
    ensures { option_copied result ≡ first_with status releases.now }
{
    let index = index_with(releases, status)?;
    releases.get(index)
}

/// The release that runs: the current one, or else the permanent one.
fn running(releases: &[Listed]) -> Option<&Listed>
    ensures { option_copied result ≡ running releases.now }
{
    match first_with(releases, Status::Current) {
        Some(now) => Some(now),
        None => first_with(releases, Status::Permanent),
    }
}

/// What the refusal of an install is told of.
pub(crate) fn subject_in<'a>(releases: &'a [Listed], vsn: &'a str) -> Subject<'a>
    ensures { subject_of result ≡ subject_in (chars vsn.now) releases.now }
{
    match running(releases) {
        Some(now) => Subject {
            vsn,
            running: now.release.rel.vsn.as_str(),
            script: script_from(now, releases, vsn),
        },
        None => Subject::naming(vsn),
    }
}

/// The instructions of the script that leads from a release to that of a version, if one does.
fn script_from<'a>(now: &'a Listed, releases: &'a [Listed], vsn: &str) -> &'a [Low]
    ensures { running releases.now ≡ Some now.now → result.now ≡ script_in (script_to (chars vsn.now) releases.now) }
{
    let Some(new) = listed(releases, vsn) else {
        return &[];
    };
    match script_for(&now.release, &new.release) {
        Some(entry) => entry.instructions.as_slice(),
        None => &[],
    }
}
