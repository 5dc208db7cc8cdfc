// The object code that a script reads before its point of no return.
ghost use Rattle.std.specs.Prelude.{◌≡◌, ◌≤◌, ◌++◌, ◌∷◌, [], true, if◌then◌else◌, IfOk, OnOk, length, vec_len};
ghost use Rattle.std.specs.List.{All};
ghost use Rattle.low_instructions.specs.declared.low.Low.TheVariants.{LoadObjectCode as load_object_code};
ghost use Rattle.relup_make.specs.Releases.{has_app, version_in};
ghost use Rattle.relup_make.specs.Dealt.{IsDealt, IsInTarget, IsPut, is_first, names_of_pairs};
ghost use Rattle.relup_make.specs.Scripts.{each_once as each_once_of, object_code};
ghost use Rattle.relup_make.specs.Ways.{way_of};
ghost use Rattle.relup_make.specs.Work.{target};

use crate::names::{Names, each_once};
use crate::way::Way;
use erl_term::Atom;
use otp_files::Low;
use std::alloc::{AllocError, Global};
use values::{Duplicate, Row, copied_slice};

/// Appends one `load_object_code` for each application that something is loaded of, by first load.
///
/// # Errors
///
/// `AllocError` where memory is refused.
pub(crate) fn append_object_code(
    alloc: Global,
    way: &Way<'_>,
    loaded: &[(Atom, Atom)],
    script: &mut Vec<Low>,
) -> Result<(), AllocError>
    requires { All (IsInTarget (way_of way.now)) loaded.now }
    ensures { OnOk result (script.new.items ≡ script.old.items ++ object_code (way_of way.now) loaded.now) }
{
    let names = Names::new(alloc, names(alloc, loaded)?)?;
    let piles = deal(alloc, &names, loaded)?;
    for i in 0..loaded.len() {
        append_at(
            alloc,
            way,
            &names,
            i,
            &loaded[i].0,
            piles[i].as_slice(),
            script,
        )?;
    }
    Ok(())
}

/// Appends the object code of an application, if it stands first at an index.
fn append_at(
    alloc: Global,
    way: &Way<'_>,
    names: &Names,
    index: usize,
    app: &Atom,
    modules: &[Atom],
    script: &mut Vec<Low>,
) -> Result<(), AllocError>
    requires { has_app app.now (target (way_of way.now)) ≡ true }
    ensures { OnOk result (script.new.items ≡ script.old.items ++ (if is_first names.now index app.now
        then load_object_code app.now (version_in app.now (target (way_of way.now))) (each_once_of modules.now) ∷ [] else [])) }
{
    if !names.is_first_at(app, index) {
        return Ok(());
    }
    let Some(spec) = way.target().spec(app) else {
        unreachable!()
    };
    let application = app.copy(alloc)?;
    let version = spec.vsn.copy(alloc)?;
    let modules = each_once(alloc, Row::new(copied_slice(alloc, modules)?))?;
    script.push(Low::LoadObjectCode {
        application,
        version,
        modules,
    })?;
    Ok(())
}

/// The applications of what is loaded.
fn names(alloc: Global, loaded: &[(Atom, Atom)]) -> Result<Row<Atom>, AllocError>
    ensures { IfOk result (λ names. names ≡ names_of_pairs loaded.now) }
{
    let mut names = Vec::with_capacity(alloc, loaded.len())?;
    for pair in loaded {
        names.push(pair.0.copy(alloc)?)?;
    }
    Ok(Row::new(names))
}

/// The modules that are loaded of each application, in order, at the application's first index; none at other indices.
fn deal(alloc: Global, names: &Names, loaded: &[(Atom, Atom)]) -> Result<Vec<Vec<Atom>>, AllocError>
    requires { names.now ≡ names_of_pairs loaded.now }
    ensures { IfOk result (λ piles. IsDealt names.now loaded.now (length loaded.now) piles.items) }
{
    let mut piles = empty(alloc, loaded.len())?;
    for pair in loaded {
        put(alloc, names, &pair.0, &pair.1, &mut piles)?;
    }
    Ok(piles)
}

/// So many lists without modules.
fn empty(alloc: Global, count: usize) -> Result<Vec<Vec<Atom>>, AllocError>
    ensures { IfOk result (λ piles. IsDealt [] [] count piles.items) }
{
    let mut piles = Vec::with_capacity(alloc, count)?;
    for i in 0..count {
        piles.push(Vec::new(alloc))?;
    }
    Ok(piles)
}

/// Puts a module to those of its application.
fn put(
    alloc: Global,
    names: &Names,
    app: &Atom,
    name: &Atom,
    piles: &mut Vec<Vec<Atom>>,
) -> Result<(), AllocError>
    requires { length names.now ≤ vec_len piles.old }
    ensures { OnOk result (IsPut names.now (app.now, name.now) piles.old.items piles.new.items) }
{
    let Some(index) = names.index_of(app) else {
        return Ok(());
    };
    let name = name.copy(alloc)?;
    piles[index].push(name)?;
    Ok(())
}
