// A module is removed.
ghost use Rattle.std.specs.Prelude.{◌≡◌, IfOk, OnErr, OnOk};
ghost use Rattle.code_server.specs.Modules.{removed};
ghost use Rattle.code_loading.specs.Loading.{spared};
ghost use Rattle.code_loading.specs.Undo.{TakesBack};

use crate::loading::kill_lingering;
use crate::undo::LoadUndo;
use code_server::Modules;
use erl_ir::Module;
use erl_term::Atom;
use process_table::Processes;
use release_words::Purge;
use std::alloc::AllocError;

/// Removes a module (appup(4), remove): those who linger in it are killed, in order of pid, its old code is gone, if it has any,
/// and its current code becomes old, if it has any, and is purged later as the caller says.
/// [`downs_of_purge`](crate::downs_of_purge) returns, before that, what clients get of it.
///
/// # Errors
///
/// `AllocError` where memory is refused. All is then as it was.
pub fn remove(
    modules: &mut Modules<Module>,
    processes: &mut Processes,
    name: &Atom,
    post: Option<Purge>,
) -> Result<LoadUndo, AllocError>
    ensures modules { OnOk result (modules.new ≡ removed name.now post modules.old) }
    ensures processes { OnOk result (processes.new ≡ spared name.now modules.old processes.old) }
    ensures inverse { IfOk result (λ undo. TakesBack undo modules.old processes.old modules.new processes.new) }
    ensures err { OnErr result ((modules.new ≡ modules.old) × (processes.new ≡ processes.old)) }
{
    let killed = kill_lingering(modules, processes, name)?;
    Ok(LoadUndo {
        modules: modules.remove(name, post),
        killed,
    })
}
