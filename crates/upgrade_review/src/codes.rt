// The code of modules in the releases that a script leads from and to, and while it runs.
ghost use Rattle.std.specs.Prelude.{◌≡◌, ◌↔◌, IfOk, IsTrue, None, Some, codes};
ghost use Rattle.std.specs.Option.{option_copied};
ghost use Rattle.erl_ir.specs.Module.{exported_of};
ghost use Rattle.script_state.specs.ObjectCode.{source_in};
ghost use Rattle.upgrade_review.specs.Codes.{code_behind, code_in, has_module};
ghost use Rattle.upgrade_review.specs.Codes.{is_callback_module, is_start_module, is_started_with};
ghost use Rattle.upgrade_review.specs.Gathering.{IsSameInBoth, LacksCodeChange};

use crate::scripts::{is_loaded, is_started};
use erl_ir::Module;
use erl_term::Atom;
use low_instructions::Low;
use otp_files::StartModule;
use release_table::{AppFiles, Release};
use std::alloc::{AllocError, Global};
use values::Same;

/// Returns the source of a module among these.
fn source_in<'a>(sources: &'a [Module], name: &Atom) -> Option<&'a Module>
    ensures { option_copied result ≡ source_in name.now sources.now }
{
    sources.iter().find(|source| *source.name() == *name)
}

/// Returns the code of a module in a release.
pub(crate) fn code_in<'a>(release: &'a Release, name: &Atom) -> Option<&'a Module>
    ensures { option_copied result ≡ code_in name.now release.now }
{
    for files in release.apps.as_slice() {
        if let Some(source) = source_in(files.modules.as_slice(), name) {
            return Some(source);
        }
    }
    None
}

/// Returns whether what was found is this code.
pub(crate) fn is_code(found: Option<&Module>, code: &Module) -> bool
    ensures { IsTrue result ↔ (option_copied found.entry ≡ Some code.now) }
{
    match found {
        Some(it) => it.same(code),
        None => false,
    }
}

/// Returns whether both releases have a module, with the same code.
pub(crate) fn is_same_in_both(left: &Release, installed: &Release, name: &Atom) -> bool
    ensures { IsTrue result ↔ IsSameInBoth name.now left.now installed.now }
{
    match code_in(installed, name) {
        Some(code) => is_code(code_in(left, name), code),
        None => false,
    }
}

/// Returns the code that a module has after these instructions.
fn code_behind<'a>(
    left: &'a Release,
    installed: &'a Release,
    before: &[Low],
    name: &Atom,
) -> Option<&'a Module>
    ensures { option_copied result ≡ code_behind name.now before.now left.now installed.now }
{
    if is_loaded(before, name) {
        code_in(installed, name)
    } else {
        code_in(left, name)
    }
}

/// Returns whether code lacks `code_change/3`, if there is any.
fn lacks_code_change(alloc: Global, code: Option<&Module>) -> Result<bool, AllocError>
    ensures { IfOk result (λ lacks. IsTrue lacks ↔ LacksCodeChange (option_copied code.entry)) }
{
    let Some(code) = code else {
        return Ok(false);
    };
    let name = Atom::word(alloc, "code_change")?;
    Ok(!code.exports(&name, 3))
}

/// Returns whether the code that a module has after these instructions lacks `code_change/3`.
pub(crate) fn lacks_behind(
    alloc: Global,
    left: &Release,
    installed: &Release,
    before: &[Low],
    name: &Atom,
) -> Result<bool, AllocError>
    ensures { IfOk result (λ lacks. IsTrue lacks ↔ LacksCodeChange (code_behind name.now before.now left.now installed.now)) }
{
    lacks_code_change(alloc, code_behind(left, installed, before, name))
}

/// Returns whether an application has a module.
fn has_module(files: &AppFiles, name: &Atom) -> bool
    ensures { result ≡ has_module name.now files.now }
{
    source_in(files.modules.as_slice(), name).is_some()
}

/// Returns whether a script starts an application of a release that has a module.
pub(crate) fn is_started_with(release: &Release, script: &[Low], name: &Atom) -> bool
    ensures { result ≡ is_started_with name.now release.now script.now }
{
    let apps = release.apps.as_slice();
    apps.iter().any(|files| has_module(files, name) && is_started(script, &files.spec.name))
}

/// Returns whether a module is this callback module of an application.
pub fn is_start_module(start: &Option<StartModule>, name: &Atom) -> bool
    ensures { result ≡ is_start_module name.now start.now }
{
    match start {
        Some(start) => start.name == *name,
        None => false,
    }
}

/// Returns whether a module is the callback module of an application of a release.
pub(crate) fn is_callback_module(release: &Release, name: &Atom) -> bool
    ensures { result ≡ is_callback_module name.now release.now }
{
    let apps = release.apps.as_slice();
    apps.iter()
        .any(|files| is_start_module(&files.spec.start, name))
}
