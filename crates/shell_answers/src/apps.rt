// Applications, as an answer.
ghost use Rattle.std.specs.Prelude.{◌≡◌, ◌++◌, OnOk};
ghost use Rattle.erl_term.specs.Text.{elements_text, text, utf8};
ghost use Rattle.erl_term.specs.Tree.{list};
ghost use Rattle.shell_answers.specs.Answers.{app_of, apps_of, line_of};

use crate::bytes::{put, put_separator};
use erl_term::{print_atom, print_string};
use std::alloc::AllocError;
use sys_protocol::{App, AppTable};

/// Appends `[{App,Vsn}]`.
pub fn write_apps(apps: &AppTable, out: &mut Vec<u8>) -> Result<(), AllocError>
    ensures { OnOk result (out.new.items ≡ out.old.items ++ line_of (list (apps_of apps.now))) }
{
    put(b"[", out)?;
    put_apps(apps, out)?;
    put(b"]\n", out)
}

/// Appends the applications, with commas between them.
fn put_apps(apps: &AppTable, out: &mut Vec<u8>) -> Result<(), AllocError>
    ensures { OnOk result (out.new.items ≡ out.old.items ++ utf8 (elements_text (apps_of apps.now))) }
{
    for index in 0..apps.len() {
        let Some(app) = apps.app(index) else {
            unreachable!()
        };
        put_separator(index == 0, out)?;
        put_app(app, out)?;
    }
    Ok(())
}

/// Appends `{App,Vsn}`.
fn put_app(app: &App, out: &mut Vec<u8>) -> Result<(), AllocError>
    ensures { OnOk result (out.new.items ≡ out.old.items ++ utf8 (text (app_of app.now))) }
{
    let spec = app.spec();
    put(b"{", out)?;
    print_atom(&spec.name, out)?;
    put(b",", out)?;
    print_string(spec.vsn.as_str(), out)?;
    put(b"}", out)
}
