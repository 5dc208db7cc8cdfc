// Modules that an upgrade leaves unchanged.
ghost use Rattle.std.specs.Prelude.{OnOk};
ghost use Rattle.upgrade_review.specs.Gathering.{Adds, IsNotLoaded, IsNotLoadedIn, IsNotLoadedOf};

use crate::codes::{code_in, is_code};
use crate::finding::Finding;
use crate::gathering::note;
use crate::scripts::is_loaded;
use erl_ir::Module;
use erl_term::Atom;
use low_instructions::Low;
use release_table::{AppFiles, Release};
use std::alloc::{AllocError, Global};
use values::Duplicate;

/// Notes a module of an application, if the release that is left lacks it or has other code of it, and the script doesn't load
/// it.
fn note_module(
    alloc: Global,
    left: &Release,
    script: &[Low],
    app: &Atom,
    code: &Module,
    found: &mut Vec<Finding>,
) -> Result<(), AllocError>
    ensures { OnOk result (Adds (IsNotLoaded left.now script.now app.now code.now) found.old.items found.new.items) }
{
    if is_code(code_in(left, code.name()), code) || is_loaded(script, code.name()) {
        return Ok(());
    }
    let application = app.copy(alloc)?;
    let module = code.name().copy(alloc)?;
    note(
        found,
        Finding::NotLoaded {
            application,
            module,
        },
    )
}

/// Notes the modules of an application that the release that is left lacks or has other code of, and that the script doesn't
/// load.
fn note_modules(
    alloc: Global,
    left: &Release,
    script: &[Low],
    files: &AppFiles,
    found: &mut Vec<Finding>,
) -> Result<(), AllocError>
    ensures { OnOk result (Adds (IsNotLoadedOf left.now script.now files.now) found.old.items found.new.items) }
{
    let codes = files.modules.as_slice();
    for code in codes {
        note_module(alloc, left, script, &files.spec.name, code, found)?;
    }
    Ok(())
}

/// Notes the modules of a release that the release that is left lacks or has other code of, and that the script doesn't load.
pub(crate) fn note_not_loaded(
    alloc: Global,
    left: &Release,
    installed: &Release,
    script: &[Low],
    found: &mut Vec<Finding>,
) -> Result<(), AllocError>
    ensures { OnOk result (Adds (IsNotLoadedIn left.now installed.now script.now) found.old.items found.new.items) }
{
    let apps = installed.apps.as_slice();
    for files in apps {
        note_modules(alloc, left, script, files, found)?;
    }
    Ok(())
}
