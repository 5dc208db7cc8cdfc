// Why no relup is made.
ghost use Rattle.std.specs.Prelude.{◌≡◌, ◌≤◌, IfOk, IsTrue, if◌then◌else◌, [], length};
ghost use Rattle.std.specs.List.{flat_map, list_any};
ghost use Rattle.std.specs.Str.{bytes_eq};
ghost use Rattle.erl_term.specs.Ascii.{is_ascii_text};
ghost use Rattle.relup_make.specs.Refusals.{appup_refusals, base_refusals, first_of, instruction_refusals};
ghost use Rattle.relup_make.specs.Refusals.{is_app_there, is_base_kept, refusal, unless, way_refusals};
ghost use Rattle.relup_make.specs.Releases.{modules_in};
ghost use Rattle.relup_make.specs.Ways.{modules_for, way_of};
ghost use Rattle.relup_make.specs.Work.{appup_of, is_changed, source, target};
ghost use Rattle.relup_make.specs.declared.error.MakeError.TheVariants.{BaseChanged as base_changed};
ghost use Rattle.relup_make.specs.declared.error.MakeError.TheVariants.{NoAppup as no_appup, UnknownModule as unknown};

use crate::error::MakeError;
use crate::names::Names;
use crate::rel_apps::RelApps;
use crate::release::Release;
use crate::way::Way;
use erl_term::Atom;
use otp_files::{
    ApplicationInstruction, ApplicationWork, Appup, Direction, High, Instruction,
    ModuleInstruction, ModuleWork,
};
use std::alloc::{AllocError, Global};
use values::{Duplicate, Row, Same, copied_slice};

/// What stands against a relup first, if anything does.
///
/// # Errors
///
/// `AllocError` where memory is refused.
pub(crate) fn refusal(
    alloc: Global,
    old: &Release<'_>,
    new: &Release<'_>,
    appups: &[Option<Appup>],
) -> Result<Option<MakeError>, AllocError>
    ensures { IfOk result (λ found. found ≡ refusal old.now.whole.now new.now.whole.now appups.now) }
{
    if !old.whole.rel.erts.same(&new.whole.rel.erts) {
        return Ok(Some(MakeError::ErtsChanged));
    }
    if let Some(error) = base_refusal(alloc, old.whole, new.whole)? {
        return Ok(Some(error));
    }
    if let Some(error) = way_refusal(alloc, &Way::new(Direction::Up, old, new, appups))? {
        return Ok(Some(error));
    }
    way_refusal(alloc, &Way::new(Direction::Down, old, new, appups))
}

/// What stands first against the base applications.
fn base_refusal(
    alloc: Global,
    old: &RelApps,
    new: &RelApps,
) -> Result<Option<MakeError>, AllocError>
    ensures { IfOk result (λ found. found ≡ first_of (base_refusals old.now new.now)) }
{
    if let Some(error) = change_of_base(alloc, old, new, "kernel")? {
        return Ok(Some(error));
    }
    if let Some(error) = change_of_base(alloc, old, new, "stdlib")? {
        return Ok(Some(error));
    }
    change_of_base(alloc, old, new, "sasl")
}

/// What stands against one base application.
fn change_of_base(
    alloc: Global,
    old: &RelApps,
    new: &RelApps,
    word: &str,
) -> Result<Option<MakeError>, AllocError>
    requires ascii { IsTrue (is_ascii_text word.now) }
    requires short { length word.now ≤ 255 }
    ensures { IfOk result (λ found. found ≡ (if is_base_kept old.now new.now word.now then None else Some
        (base_changed word.now))) }
{
    let name = Atom::word(alloc, word)?;
    if is_base_kept(old, new, &name) {
        Ok(None)
    } else {
        Ok(Some(MakeError::BaseChanged(name)))
    }
}

/// Whether an application has one version in both releases, or is in none.
fn is_base_kept(old: &RelApps, new: &RelApps, name: &Atom) -> bool
    ensures { result ≡ is_base_kept old.now new.now name.now }
{
    match (old.rel.apps.get(name), new.rel.apps.get(name)) {
        (None, None) => true,
        (Some(one), Some(another)) => one.vsn.same(&another.vsn),
        (_, _) => false,
    }
}

/// What stands first against the script of one direction.
fn way_refusal(alloc: Global, way: &Way<'_>) -> Result<Option<MakeError>, AllocError>
    ensures { IfOk result (λ found. found ≡ first_of (way_refusals (way_of way.now))) }
{
    let apps = way.target().whole.rel.apps.as_slice();
    for app in apps {
        if let Some(error) = app_refusal(alloc, way, &app.name)? {
            return Ok(Some(error));
        }
    }
    Ok(None)
}

/// What stands first against the work on an application, if it is changed.
fn app_refusal(alloc: Global, way: &Way<'_>, name: &Atom) -> Result<Option<MakeError>, AllocError>
    ensures { IfOk result (λ found. found ≡ first_of (if is_changed (way_of way.now) name.now
        then appup_refusals (way_of way.now) name.now (appup_of (way_of way.now) name.now) else [])) }
{
    let Some((old, new)) = way.versions(name) else {
        return Ok(None);
    };
    let Some(appup) = way.appup(name) else {
        return Ok(Some(MakeError::NoAppup(name.copy(alloc)?)));
    };
    if !appup.vsn.same(new) {
        return Ok(Some(MakeError::NoAppup(name.copy(alloc)?)));
    }
    let Some(entry) = way.entry(name) else {
        let name = name.copy(alloc)?;
        return Ok(Some(MakeError::NoEntry(name, old.copy(alloc)?)));
    };
    entry_refusal(alloc, way, name, entry.instructions.as_slice())
}

/// What stands first against the instructions of an application's entry.
fn entry_refusal(
    alloc: Global,
    way: &Way<'_>,
    app: &Atom,
    instructions: &[Instruction],
) -> Result<Option<MakeError>, AllocError>
    ensures { IfOk result (λ found. found ≡ first_of
        (flat_map (instruction_refusals (way_of way.now) app.now) instructions.now)) }
{
    let before = Names::new(
        alloc,
        Row::new(copied_slice(alloc, way.source().modules(app))?),
    )?;
    let after = Names::new(
        alloc,
        Row::new(copied_slice(alloc, way.target().modules(app))?),
    )?;
    for instruction in instructions {
        if let Some(error) = instruction_refusal(alloc, way, app, &before, &after, instruction)? {
            return Ok(Some(error));
        }
    }
    Ok(None)
}

/// What stands against an instruction of an application's entry, by the modules that the application has.
fn instruction_refusal(
    alloc: Global,
    way: &Way<'_>,
    app: &Atom,
    before: &Names,
    after: &Names,
    instruction: &Instruction,
) -> Result<Option<MakeError>, AllocError>
    requires before { before.now ≡ modules_in app.now (source (way_of way.now)) }
    requires after { after.now ≡ modules_in app.now (target (way_of way.now)) }
    ensures { IfOk result (λ found. found ≡ first_of (instruction_refusals (way_of way.now) app.now instruction.now)) }
{
    match instruction {
        Instruction::Low(_) => Ok(None),
        Instruction::High(High::Module(on)) => unknown_module(alloc, before, after, on),
        Instruction::High(High::Application(on)) => missing_application(alloc, way, on),
    }
}

/// The module of an instruction, where the application has it not.
fn unknown_module(
    alloc: Global,
    before: &Names,
    after: &Names,
    on: &ModuleInstruction,
) -> Result<Option<MakeError>, AllocError>
    ensures { IfOk result (λ found. found ≡ first_of (unless
        (list_any (λ other. bytes_eq other on.now.name) (modules_for on.now.work before.now after.now)) (unknown on.now.name))) }
{
    let modules = match &on.work {
        ModuleWork::Delete => before,
        ModuleWork::Update { .. } | ModuleWork::Load { .. } | ModuleWork::Add => after,
    };
    if modules.has(&on.name) {
        Ok(None)
    } else {
        Ok(Some(MakeError::UnknownModule(on.name.copy(alloc)?)))
    }
}

/// The application of an instruction, where it is not in the release where it has to be.
fn missing_application(
    alloc: Global,
    way: &Way<'_>,
    on: &ApplicationInstruction,
) -> Result<Option<MakeError>, AllocError>
    ensures { IfOk result (λ found. found ≡ first_of
        (unless (is_app_there (way_of way.now) on.now.name on.now.work) (no_appup on.now.name))) }
{
    let is_there = match &on.work {
        ApplicationWork::Add { .. } => way.target().has(&on.name),
        ApplicationWork::Remove => way.source().has(&on.name),
        ApplicationWork::Restart => way.source().has(&on.name) && way.target().has(&on.name),
    };
    if is_there {
        Ok(None)
    } else {
        Ok(Some(MakeError::NoAppup(on.name.copy(alloc)?)))
    }
}
