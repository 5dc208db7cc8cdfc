// Loads of modules.
ghost use Rattle.std.specs.Prelude.{◌≡◌, ◌++◌, ℕ, IfOk, List, MatchResult, None};
ghost use Rattle.std.specs.Str.{chars};
ghost use Rattle.shell_answers.specs.Answers.{line_of, loaded};
ghost use Rattle.shell_exec.specs.Execution.{Loads};
ghost use Rattle.shell_upgrades.specs.Done.{IsDone};
ghost use Rattle.shell_exec.specs.Done.{IsSourced, Unsourced, not_loaded};

use crate::naming::spells;
use erl_ir::Module;
use erl_parse::{LangError, read_module};
use erl_term::Atom;
use node_types::Event;
use release_files::{FileFault, Files};
use shell_answers::write_loaded;
use shell_requests::Name;
use shell_upgrades::{Said, Shell, refuse, say_file_fault, tell_halt};
use std::alloc::Global;
use std::hash::RandomState;
use thiserror::Error;
use values::{Duplicate, Failure};

/// Why no module was read.
#[derive(Clone, Copy, Debug, Error)]
pub enum Unloaded {
    /// This stands against the file.
    #[error("{0}")]
    Faulted(FileFault),
    /// An allocation failed while its source was read.
    #[error("out of memory")]
    Unread,
}

/// Loads the module of the file at a path.
pub(crate) fn load(held: &mut Shell, name: Name<'_>, path: &str, out: &mut Vec<u8>) -> Said
    ensures { IfOk result (λ fate. IsDone (Loads held.old (chars name.entry.text.now) path.now fate) held.new out.old.items
        out.new.items) }
{
    match source_in(held.alloc(), held.hashing(), held.files(), name, path) {
        Ok(code) => load_module(held, code, out),
        Err(Unloaded::Faulted(fault)) => say_file_fault(path, fault, out),
        Err(Unloaded::Unread) => refuse(out),
    }
}

/// The module of a name in the file at a path. The names in it are hashed by `hashing`.
///
/// # Errors
///
/// `Faulted` with the fault of the file; `Unread` if an allocation fails while it is read.
pub fn source_in(
    alloc: Global,
    hashing: RandomState,
    files: &Files,
    name: Name<'_>,
    path: &str,
) -> Result<Module, Unloaded>
    ensures { MatchResult result (IsSourced files.now (chars name.entry.text.now) path.now)
        (Unsourced files.now (chars name.entry.text.now) path.now) }
{
    let Some(bytes) = files.get(path) else {
        return Err(Unloaded::Faulted(FileFault::Missing));
    };
    match read_module(alloc, hashing, bytes) {
        Ok(code) if spells(code.name(), name.as_str()) => Ok(code),
        Ok(_) => Err(Unloaded::Faulted(FileFault::WrongModule)),
        Err(failure) => Err(not_loaded(failure)),
    }
}

/// Loads a module that was read from a file.
fn load_module(held: &mut Shell, code: Module, out: &mut Vec<u8>) -> Said
    ensures { IfOk result (λ fate. (name path : List ℕ) → IsSourced held.old.files name path code →
        IsDone (Loads held.old name path fate) held.new out.old.items out.new.items) }
{
    let Ok(name) = code.name().copy(held.alloc()) else {
        return refuse(out);
    };
    match held.perform(Event::Load(code)) {
        Ok(_) => tell_loaded(&name, out),
        Err(halt) => tell_halt(halt, out),
    }
}

/// Why no module was read, by what is told of its source.
fn not_loaded(failure: Failure<LangError>) -> Unloaded
    ensures { result ≡ not_loaded failure }
{
    match failure {
        Failure::Refused(why) => Unloaded::Faulted(FileFault::Lang(why)),
        Failure::Memory => Unloaded::Unread,
    }
}

/// Tells that a module is loaded.
pub fn tell_loaded(name: &Atom, out: &mut Vec<u8>) -> Said
    ensures { IfOk result (λ fate. (fate ≡ None) × (out.new.items ≡ out.old.items ++ line_of (loaded name.now))) }
{
    write_loaded(name, out)?;
    Ok(None)
}
