// Where the files of a release stand, as texts.
ghost use Rattle.std.specs.Prelude.{◌≡◌, ◌++◌, IfOk, encode_utf8_all, string_bytes};
ghost use Rattle.release_files.specs.Paths.{app_folder, release_path};

use erl_term::Atom;
use otp_files::{RelApp, Version};
use std::alloc::{AllocError, Global};

/// `releases/VSN`, and what stands behind it.
pub(crate) fn release_path(alloc: Global, vsn: &str, ending: &str) -> Result<String, AllocError>
    ensures { IfOk result (λ path. string_bytes path ≡ release_path vsn.now ++ ending.now) }
{
    let mut path = String::from_str(alloc, "releases/")?;
    path.push_str(vsn)?;
    path.push_str(ending)?;
    Ok(path)
}

/// `lib/APP-AVSN`, and a file in a folder there.
pub(crate) fn app_file(
    alloc: Global,
    app: &RelApp,
    folder: &str,
    name: &Atom,
    ending: &str,
) -> Result<String, AllocError>
    ensures { IfOk result (λ path. string_bytes path ≡
        app_folder app.now ++ (folder.now ++ (encode_utf8_all name.now ++ ending.now))) }
{
    let mut path = app_folder(alloc, app)?;
    path.push_str(folder)?;
    path.push_str(text_of(name))?;
    path.push_str(ending)?;
    Ok(path)
}

/// `lib/APP-AVSN`
fn app_folder(alloc: Global, app: &RelApp) -> Result<String, AllocError>
    ensures { IfOk result (λ path. string_bytes path ≡ app_folder app.now) }
{
    let mut path = String::from_str(alloc, "lib/")?;
    path.push_str(text_of(&app.name))?;
    path.push_str("-")?;
    path.push_str(version_text(&app.vsn))?;
    Ok(path)
}

/// The text of a name.
fn text_of(name: &Atom) -> &str
    ensures { result.now ≡ encode_utf8_all name.now }
{
    name.as_str()
}

/// The text of a version.
fn version_text(vsn: &Version) -> &str
    ensures { result.now ≡ encode_utf8_all vsn.now }
{
    vsn.as_str()
}
