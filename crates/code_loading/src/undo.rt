// What takes a change of code back.
use erl_ir::Module;
use values::Row;

/// What takes a load or a purge back, and with it the kill of the processes that lingered in what was purged.
#[derive(Drop)]
pub struct LoadUndo {
    /// What takes the change of the modules back.
    pub modules: code_server::ModulesUndo<Module>,
    /// What takes the kill back; none where there was no old code.
    pub killed: Option<process_table::ProcessesUndo>,
}

/// What takes several purges back, and with them the kill of the processes that lingered in what was purged.
#[derive(Drop)]
pub struct Purges {
    /// What takes each purge of a module that had old code back, in the order of the purges.
    pub modules: Row<code_server::ModulesUndo<Module>>,
    /// What takes the kill of all who lingered back.
    pub killed: process_table::ProcessesUndo,
}
