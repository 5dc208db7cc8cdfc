// The table of modules, as an answer.
ghost use Rattle.std.specs.Prelude.{◌≡◌, ◌++◌, OnOk};
ghost use Rattle.erl_term.specs.Text.{elements_text, text, utf8};
ghost use Rattle.erl_term.specs.Tree.{list};
ghost use Rattle.shell_answers.specs.Answers.{line_of, module_of, modules_of, serial_of};

use crate::bytes::{put, put_number, put_separator};
use code_server::{Instance, Modules, Slots};
use erl_ir::Module;
use erl_term::{Atom, print_atom};
use std::alloc::AllocError;

/// Appends `[{Mod,Current,Old}]`: load serials, or `none`.
pub fn write_modules(modules: &Modules<Module>, out: &mut Vec<u8>) -> Result<(), AllocError>
    ensures { OnOk result (out.new.items ≡ out.old.items ++ line_of (list (modules_of modules.now.entries))) }
{
    put(b"[", out)?;
    put_entries(modules, out)?;
    put(b"]\n", out)
}

/// Appends the modules, with commas between them.
fn put_entries(modules: &Modules<Module>, out: &mut Vec<u8>) -> Result<(), AllocError>
    ensures { OnOk result (out.new.items ≡ out.old.items ++ utf8 (elements_text (modules_of modules.now.entries))) }
{
    for index in 0..modules.len() {
        let Some((name, slots)) = modules.entry(index) else {
            unreachable!()
        };
        put_separator(index == 0, out)?;
        put_module(name, slots, out)?;
    }
    Ok(())
}

/// Appends `{Mod,Current,Old}`.
fn put_module(name: &Atom, slots: &Slots<Module>, out: &mut Vec<u8>) -> Result<(), AllocError>
    ensures { OnOk result (out.new.items ≡ out.old.items ++ utf8 (text (module_of (name.now, slots.now)))) }
{
    put(b"{", out)?;
    print_atom(name, out)?;
    put(b",", out)?;
    put_serial(&slots.current, out)?;
    put(b",", out)?;
    put_serial(&slots.former, out)?;
    put(b"}", out)
}

/// Appends an instance's load serial, or `none`.
fn put_serial(instance: &Option<Instance<Module>>, out: &mut Vec<u8>) -> Result<(), AllocError>
    ensures { OnOk result (out.new.items ≡ out.old.items ++ utf8 (text (serial_of instance.now))) }
{
    match instance {
        Some(instance) => {
            let serial = instance.serial;
            put_number(serial, out)
        }
        None => put(b"none", out),
    }
}
