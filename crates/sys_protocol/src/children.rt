// Children that run.
ghost use Rattle.std.specs.Prelude.{◌≡◌, ◌++◌, ◌∷◌, [], IfOk, OnOk};
ghost use Rattle.sys_protocol.specs.RunningChildren.{all_running};
ghost use Rattle.app_table.specs.Children.{running};

use app_table::{Child, ChildState, Children};
use child_specs::ChildSpec;
use std::alloc::{AllocError, Global};
use values::Row;

/// Puts a child that runs as a process behind others.
fn push_running(children: &mut Vec<Child>, spec: ChildSpec, pid: u64) -> Result<(), AllocError>
    ensures { OnOk result (children.new.items ≡ children.old.items ++ running spec pid ∷ []) }
{
    children.push(Child {
        spec,
        state: ChildState::Running(pid),
    })?;
    Ok(())
}

/// These children, each of which runs as the process of the pid at its index.
pub(crate) fn all_running(
    alloc: Global,
    specs: Row<ChildSpec>,
    pids: &[u64],
) -> Result<Children, AllocError>
    ensures { IfOk result (λ it. it ≡ all_running specs pids.now) }
{
    let mut children = Vec::with_capacity(alloc, pids.len())?;
    for (spec, pid) in specs.into_vec().into_iter().zip(pids) {
        push_running(&mut children, spec, *pid)?;
    }
    let running = Children::new(alloc, Row::new(children))?;
    Ok(running)
}
