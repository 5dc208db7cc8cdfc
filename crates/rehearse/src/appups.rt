// The file that is at fault if no relup can be made of the appups.
use erl_term::Atom;
use otp_files::{Appup, AppupEntry, High, Instruction, ModuleInstruction, Version};
use release_table::{AppFiles, Release};
use relup_make::MakeError;
use std::alloc::{AllocError, Global};

/// Returns the note on why no relup can be made that leads to this release: the file that is at fault, with its content, and
/// what to write.
///
/// # Errors
///
/// `AllocError` if an allocation fails.
pub fn place_of(alloc: Global, to: &Release, why: &MakeError) -> Result<String, AllocError> {
    let mut text = String::new(alloc);
    match why {
        MakeError::NoAppup(app) => push_no_appup(to, app, &mut text)?,
        MakeError::NoEntry(app, vsn) => push_no_entry(to, app, vsn, &mut text)?,
        MakeError::UnknownModule(module) => push_naming(to, module, &mut text)?,
        MakeError::ErtsChanged | MakeError::BaseChanged(_) => {
            text.push_str("; both .rel must name one version of it")?;
        }
        MakeError::Memory => {}
    }
    Ok(text)
}

/// Appends that an application has an appup of another version, or none, and what to write.
fn push_no_appup(to: &Release, app: &Atom, text: &mut String) -> Result<(), AllocError> {
    match files_of(to, app) {
        Some(files) => match &files.appup {
            Some(appup) => {
                push_path(files, text)?;
                text.push_str(" is for version ")?;
                text.push_str(appup.vsn.as_str())?;
                text.push_str(", and the application has version ")?;
                text.push_str(files.spec.vsn.as_str())
            }
            None => {
                push_path(files, text)?;
                text.push_str(" is to be written")?;
                text.push_str(", or write releases/")?;
                text.push_str(to.rel.vsn.as_str())?;
                text.push_str("/relup")
            }
        },
        None => text.push_str("; TO has no files of it"),
    }
}

/// Appends the directions in which an appup has no entry of a version.
fn push_no_entry(
    to: &Release,
    app: &Atom,
    vsn: &Version,
    text: &mut String,
) -> Result<(), AllocError> {
    let Some(files) = files_of(to, app) else {
        return Ok(());
    };
    push_path(files, text)?;
    text.push_str(match directions_of(files, vsn) {
        (true, _) => " has one upwards, and none downwards",
        (false, true) => " has one downwards, and none upwards",
        (false, false) => " has none upwards and none downwards",
    })
}

/// Returns whether the appup of an application has an entry of a version upwards, and whether it has one downwards.
fn directions_of(files: &AppFiles, vsn: &Version) -> (bool, bool) {
    match &files.appup {
        Some(appup) => (appup.up_from(vsn).is_some(), appup.down_to(vsn).is_some()),
        None => (false, false),
    }
}

/// Appends the first appup that names a module.
fn push_naming(to: &Release, module: &Atom, text: &mut String) -> Result<(), AllocError> {
    let apps = to.apps.as_slice();
    match apps.iter().find(|files| names_in(files, module)) {
        Some(files) => {
            push_path(files, text)?;
            text.push_str(" names it")
        }
        None => Ok(()),
    }
}

/// Returns whether the appup of an application names a module.
fn names_in(files: &AppFiles, module: &Atom) -> bool {
    match &files.appup {
        Some(appup) => names(appup, module),
        None => false,
    }
}

/// Returns whether an appup names a module.
fn names(appup: &Appup, module: &Atom) -> bool {
    names_among(appup.up.as_slice(), module) || names_among(appup.down.as_slice(), module)
}

/// Returns whether one of these entries names a module.
fn names_among(entries: &[AppupEntry], module: &Atom) -> bool {
    entries
        .iter()
        .any(|entry| is_named(entry.instructions.as_slice(), module))
}

/// Returns whether one of these instructions is about a module, or about another module that depends on it.
fn is_named(instructions: &[Instruction], module: &Atom) -> bool {
    instructions
        .iter()
        .any(|instruction| is_about(instruction, module))
}

/// Returns whether an instruction is about a module, or about another module that depends on it.
fn is_about(instruction: &Instruction, module: &Atom) -> bool {
    match instruction {
        Instruction::High(High::Module(it)) => it.name == *module || depends(it, module),
        _ => false,
    }
}

/// Returns whether the module of an instruction depends on this module.
fn depends(instruction: &ModuleInstruction, module: &Atom) -> bool {
    instruction
        .dependencies
        .as_slice()
        .iter()
        .any(|it| *it == *module)
}

/// Returns the files of an application of a release, if the release has files of it.
fn files_of<'a>(release: &'a Release, app: &Atom) -> Option<&'a AppFiles> {
    release
        .apps
        .as_slice()
        .iter()
        .find(|files| files.spec.name == *app)
}

/// Appends the path of the appup of an application, below the root.
fn push_path(files: &AppFiles, text: &mut String) -> Result<(), AllocError> {
    let name = files.spec.name.as_str();
    text.push_str(": lib/")?;
    text.push_str(name)?;
    text.push_str("-")?;
    text.push_str(files.spec.vsn.as_str())?;
    text.push_str("/ebin/")?;
    text.push_str(name)?;
    text.push_str(".appup")
}
