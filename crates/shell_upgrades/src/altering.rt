// Releases that are removed, installed and made permanent, and restarts with an old one.
ghost use Rattle.std.specs.Prelude.{◌≡◌, ◌++◌, IfOk, None, option_map};
ghost use Rattle.std.specs.Str.{chars};
ghost use Rattle.install_checks.specs.Installing.{script_to};
ghost use Rattle.shell_state.specs.Scripts.{reboot_refused, reboot_wants};
ghost use Rattle.node_types.specs.declared.event.Refusal.TheVariants.{OfInstall, OfReleases};
ghost use Rattle.release_statuses.specs.Statuses.{listed};
ghost use Rattle.shell_answers.specs.Answers.{line_of};
ghost use Rattle.shell_answers.specs.Refusals.{subject_of};
ghost use Rattle.shell_state.specs.Done.{IsDone};
ghost use Rattle.shell_state.specs.Halts.{Halts, halt_answer, halt_fate};
ghost use Rattle.shell_state.specs.Performing.{begun_in};
ghost use Rattle.shell_state.specs.State.{node_of};
ghost use Rattle.shell_upgrades.specs.Upgrades.{AltersReleases, refusal_of_alteration, release_answer, release_event, script_in, subject_in};

use code_server::CodeError;
use install_checks::{InstallError, install_refusal, script_to};
use low_instructions::Low;
use node_restart::restart_refusal;
use node_types::{Answer, Event, Refusal};
use release_statuses::{RelError, Releases, Vsn};
use shell_answers::{Fixed, Subject, write_installing};
use shell_requests::ReleaseChange;
use shell_state::{Halt, Node, Said, Shell, say, tell_halt_of};

/// Removes, installs or makes permanent the release of a version, or restarts the node with it.
pub fn alter_releases(held: &mut Shell, kind: ReleaseChange, vsn: &str, out: &mut Vec<u8>) -> Said
    ensures { IfOk result (λ fate. IsDone (AltersReleases held.old kind vsn.now fate) held.new out.old.items out.new.items) }
{
    let Ok(version) = Vsn::new(held.alloc(), vsn) else {
        return tell_unaltered(held, vsn, halt_of_alteration(held, kind, vsn), out);
    };
    match held.perform(release_event(kind, version)) {
        Ok(answer) => tell_altered(kind, answer, out),
        Err(halt) => tell_unaltered(held, vsn, halt, out),
    }
}

/// The event of a change.
pub fn release_event(kind: ReleaseChange, vsn: Vsn) -> Event
    ensures { result ≡ release_event kind vsn }
{
    match kind {
        ReleaseChange::Remove => Event::Remove(vsn),
        ReleaseChange::Install => Event::Install(vsn),
        ReleaseChange::MakePermanent => Event::MakePermanent(vsn),
        ReleaseChange::RebootOld => Event::RebootOld(vsn),
    }
}

/// Tells of a change that was made.
fn tell_altered(kind: ReleaseChange, answer: Answer, out: &mut Vec<u8>) -> Said
    ensures { IfOk result (λ fate. (fate ≡ None) × (out.new.items ≡ out.old.items ++ line_of (release_answer kind answer))) }
{
    match kind {
        ReleaseChange::Install => tell_begun(&answer, out),
        ReleaseChange::Remove | ReleaseChange::MakePermanent | ReleaseChange::RebootOld => {
            say(Fixed::Done, out)
        }
    }
}

/// Tells that a script has begun.
fn tell_begun(answer: &Answer, out: &mut Vec<u8>) -> Said
    ensures { IfOk result (λ fate. (fate ≡ None) × (out.new.items ≡ out.old.items ++ line_of (begun_in answer.now))) }
{
    match answer {
        Answer::Installing { vsn, instructions } => {
            write_installing(vsn.as_str(), *instructions as u64, out)?;
            Ok(None)
        }
        Answer::Job(_) | Answer::Revived(_) | Answer::Killed(_) => say(Fixed::Done, out),
        Answer::Ran(_) | Answer::Finished { .. } | Answer::Recovered(_) => say(Fixed::Done, out),
        Answer::Restarted(_) | Answer::Swept(_) | Answer::Unit => say(Fixed::Done, out),
    }
}

/// Tells why a change was not made.
fn tell_unaltered(held: &Shell, vsn: &str, halt: Halt, out: &mut Vec<u8>) -> Said
    ensures { IfOk result (λ fate. (fate ≡ halt_fate halt)
        × (out.new.items ≡ out.old.items ++ line_of
        (halt_answer (subject_in (chars vsn.now) (node_of held.now).releases) halt))) }
{
    let about = subject_in(held.node().releases(), vsn);
    tell_halt_of(&about, halt, out)
}

/// What the refusal of a change is told of.
fn subject_in<'a>(releases: &'a Releases, vsn: &'a str) -> Subject<'a>
    ensures { subject_of result ≡ subject_in (chars vsn.now) releases.now }
{
    let running = releases.running().release.rel.vsn.as_str();
    let script = script_of(releases, vsn);
    Subject {
        vsn,
        running,
        script,
    }
}

/// The instructions of the script that leads to the release of a version, if one does.
fn script_of<'a>(releases: &'a Releases, vsn: &str) -> &'a [Low]
    ensures { result.now ≡ script_in (script_to (chars vsn.now) releases.now) }
{
    match script_to(releases, vsn) {
        Some(entry) => entry.instructions.as_slice(),
        None => &[],
    }
}

/// What stands against a change for whose version there was no memory, or else want of it.
fn halt_of_alteration(held: &Shell, kind: ReleaseChange, vsn: &str) -> Halt
    ensures { Halts result held.now (release_event kind (chars vsn.now)) }
{
    if held.is_full() {
        return Halt::Full;
    }
    if held.node().is_installing() {
        return Halt::Refused(Refusal::Installing);
    }
    match alteration_refusal(held.node(), kind, vsn) {
        Some(why) => Halt::Refused(why),
        None => Halt::Memory,
    }
}

/// Why a change is refused where no script runs. Takes no memory.
fn alteration_refusal(node: &Node, kind: ReleaseChange, vsn: &str) -> Option<Refusal>
    ensures { result ≡ refusal_of_alteration kind (chars vsn.now) node.now }
{
    let releases = node.releases();
    match kind {
        ReleaseChange::Remove => of_releases(releases.remove_refusal(vsn)),
        ReleaseChange::Install => of_install(install_refusal(
            releases,
            node.modules(),
            node.processes(),
            vsn,
        )),
        ReleaseChange::MakePermanent => of_releases(releases.permanent_refusal(vsn)),
        ReleaseChange::RebootOld => reboot_refusal(node, vsn),
    }
}

/// A refusal of the releases, if there is one.
fn of_releases(refusal: Option<RelError>) -> Option<Refusal>
    ensures { result ≡ option_map OfReleases refusal }
{
    Some(Refusal::OfReleases(refusal?))
}

/// A refusal of an install, if there is one.
fn of_install(refusal: Option<InstallError>) -> Option<Refusal>
    ensures { result ≡ option_map OfInstall refusal }
{
    Some(Refusal::OfInstall(refusal?))
}

/// Why a restart with an old release is refused where no script runs. Takes no memory.
fn reboot_refusal(node: &Node, vsn: &str) -> Option<Refusal>
    ensures { result ≡ reboot_refused (chars vsn.now) node.now }
{
    if let Some(why) = node.releases().reboot_refusal(vsn) {
        return Some(Refusal::OfReleases(why));
    }
    match restart_wants(node, vsn) {
        Some(_) => Some(Refusal::CounterEnd),
        None => None,
    }
}

/// Why the node can't restart with the release of a version that it knows.
fn restart_wants(node: &Node, vsn: &str) -> Option<CodeError>
    ensures { result ≡ reboot_wants (listed (chars vsn.now) node.now.releases) node.now }
{
    match node.releases().get(vsn) {
        Some(old) => restart_refusal(node.modules(), &old.release),
        None => None,
    }
}
