// Processes that were killed live again, all or none.
ghost use Rattle.std.specs.Prelude.{◌≡◌, ◌+◌, ◌++◌, ◌≤◌, All, IfErr, OnErr, OnOk, map, vec_capacity, vec_len};
ghost use Rattle.process_effects.specs.Ends.{AllReturn, Lives, all_ended, all_returned, all_vacated};

use crate::ending::{EndedProcess, ToldProcess, return_ended, take_out};
use code_server::Modules;
use erl_ir::Module;
use process_store::ProcessStore;
use std::alloc::Global;

/// Takes processes out again, the last first, behind those that are out. There is room for them, and it takes no memory.
fn take_again(
    store: &mut ProcessStore,
    mut back: Vec<ToldProcess>,
    mut out: Vec<EndedProcess>,
) -> Vec<EndedProcess>
    requires { vec_len out + vec_len back ≤ vec_capacity out }
    ensures out { result.items ≡ out.items ++ all_ended back.items store.old }
    ensures table { store.new ≡ all_vacated (map (λ p. p.pid) back.items) store.old }
{
    while let Some(leaves) = back.pop() {
        if let Some(process) = take_out(store, leaves) {
            out.push_reserved(process);
        }
    }
    out
}

/// Processes that were killed live again, the last first, as each would alone ([`return_ended`]).
///
/// # Errors
///
/// All of them, in order, where memory is refused, and where an instance of one is not in the table of modules. The
/// processes of the node are then as they were: those that lived again already are taken out again, which takes no memory.
pub fn return_all(
    store: &mut ProcessStore,
    alloc: Global,
    modules: &Modules<Module>,
    mut killed: Vec<EndedProcess>,
) -> Result<(), Vec<EndedProcess>>
    requires { AllReturn modules.now killed.items store.old }
    ensures ok { OnOk result (store.new ≡ all_returned modules.now killed.items store.old) }
    ensures lives { OnOk result (All (Lives modules.now) killed.items) }
    ensures back { IfErr result (λ it. it.items ≡ killed.items) }
    ensures err { OnErr result (store.new ≡ store.old) }
{
    let Ok(mut back) = Vec::with_capacity(alloc, killed.len()) else {
        return Err(killed);
    };
    while let Some(ended) = killed.pop() {
        let pid = ended.pid;
        match return_ended(store, alloc, modules, ended) {
            Ok(told) => back.push_reserved(ToldProcess { pid, told }),
            Err(ended) => {
                killed.push_reserved(ended);
                return Err(take_again(store, back, killed));
            }
        }
    }
    Ok(())
}
