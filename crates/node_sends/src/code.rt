// Modules and instances of them.
ghost use denote.Param.Send.{IsSend};
ghost use Rattle.erl_ir.specs.contracts.module.Module as Module;
ghost use Rattle.code_server.specs.contracts.modules.Modules as Modules;
ghost use Rattle.erl_semantics.specs.contracts.instance.Instance as Instance;

/// A module may go to another thread.
#[tactic(auto, using(crate::proofs::ErlForms::module_send))]
pub fn module_is_send()
    ensures { IsSend Module.the_row }
{}

/// The modules that a node has loaded may go to another thread.
#[tactic(auto, using(crate::proofs::CodeServer::modules_send))]
pub fn modules_are_send()
    ensures { IsSend (Modules.the_row Module.the_row) }
{}

/// A module of a load may go to another thread.
#[tactic(auto, using(crate::proofs::ErlSemantics::instance_send))]
pub fn instance_is_send()
    ensures { IsSend Instance.the_row }
{}
