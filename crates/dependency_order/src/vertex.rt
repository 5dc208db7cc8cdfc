// What depends on other things.
use values::Row;

/// What depends on others, and others on it, as far as that goes: appup(4)'s `Module` and `DepMods`, as numbers.
#[derive(Drop)]
pub struct Vertex {
    /// The module that it is on. What is on no module has a number of its own here, that nobody names.
    pub module: usize,
    /// The modules that it depends on, each once or more often; those that nothing is on count for nothing.
    pub dependencies: Row<usize>,
}
