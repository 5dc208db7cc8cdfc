// The node.
ghost use Rattle.std.specs.Prelude.{◌≡◌, [], IfErr, IfOk, None};
ghost use Rattle.code_server.specs.Modules.{IsModuleTable};
ghost use Rattle.release_boot.specs.Boot.{BootFails, Boots};
ghost use Rattle.release_statuses.specs.Statuses.{booted};
ghost use Rattle.script_events.specs.Node.{IsSoundNode};

use code_server::Modules;
use erl_ir::Module;
use process_table::Processes;
use release_boot::{BootError, Booted, boot};
use release_statuses::Releases;
use release_table::Release;
use script_events::NodeParts;
use std::alloc::Global;
use std::hash::RandomState;
use std::marker::Model;
use sys_protocol::AppTable;
use values::Duplicate;

/// A node: its modules, its processes, its applications and its releases; the old code that is to be purged later; and the
/// script that it runs, if it runs one.
pub struct Node {
    pub(crate) alloc: Global,
    pub(crate) parts: NodeParts,
}

/// It is taken apart here, so that who drops one above has nothing to prove of its parts.
impl Drop for Node {
    fn drop(self) {
        let Node {
            alloc: _alloc,
            parts: _parts,
        } = self;
    }
}

impl Model for Node {
    ghost use Rattle.std.specs.Coded.{codes};
    ghost use Rattle.erl_term.specs.contracts.term.Terms as terms;
    ghost use Rattle.erl_ir.specs.contracts.module.Module as forms;
    ghost use Rattle.script_events.specs.Changes.{state_of};
    ghost use Rattle.script_events.specs.Node.{IsSoundNode, NodeState};

    ghost Value = { NodeState };

    ghost coded = { Prim.hlevel (codes, terms.the_row.coded, forms.the_row.coded) };

    ghost view = { λ n. state_of n.parts };

    ghost invariant = { λ n. IsSoundNode (state_of n.parts) };
}

/// That modules differ in name, and have one or two instances each, whose serials differ: their table keeps it.
fn are_sound(modules: &Modules<Module>)
    ensures { IsModuleTable modules.now }
{
    let _ = modules.len();
}

impl Node {
    /// The node that a release boots: the code of all its applications is loaded first, and then they start, in order. The
    /// release is the node's only one, and permanent. Names and versions are hashed by `hashing`.
    ///
    /// # Errors
    ///
    /// `NotStarted` of the first application that doesn't start, and `Memory`.
    pub fn boot(alloc: Global, hashing: RandomState, release: &Release) -> Result<Node, BootError>
        ensures booted { IfOk result (λ n. Boots release.now n.modules n.processes n.apps) }
        ensures releases { IfOk result (λ n. n.releases ≡ booted release.now) }
        ensures idle { IfOk result (λ n. n.runner ≡ None) }
        ensures failed { IfErr result (λ e. BootFails e release.now) }
    {
        let Booted {
            modules,
            processes,
            apps,
        } = boot(alloc, hashing, release)?;
        are_sound(&modules);
        let releases = Releases::booted(alloc, hashing, release.copy(alloc)?)?;
        Ok(Node {
            alloc,
            parts: NodeParts {
                modules,
                processes,
                apps,
                releases,
                runner: None,
            },
        })
    }

    /// Its modules. Takes no memory.
    pub fn modules(&self) -> &Modules<Module>
        ensures modules { result.now ≡ self.now.modules }
        ensures kept { IsSoundNode self.now }
    {
        &self.parts.modules
    }

    /// Its processes. Takes no memory.
    pub fn processes(&self) -> &Processes
        ensures { result.now ≡ self.now.processes }
    {
        &self.parts.processes
    }

    /// Its releases, with their statuses. Takes no memory.
    pub fn releases(&self) -> &Releases
        ensures { result.now ≡ self.now.releases }
    {
        &self.parts.releases
    }

    /// Its applications. Takes no memory.
    pub fn apps(&self) -> &AppTable
        ensures { result.now ≡ self.now.apps }
    {
        &self.parts.apps
    }
}
