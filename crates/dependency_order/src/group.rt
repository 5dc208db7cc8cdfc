// A group in its two orders.
use values::Row;

/// The vertices of a group, in two orders. Each vertex is a number, counted from 0.
#[derive(Drop)]
pub struct Group {
    /// Again and again the first of those left that depends on none of those left, itself among them; where there is
    /// none such, simply the first of those left.
    pub dependencies_first: Row<usize>,
    /// Again and again the first of those left that no other of those left depends on; where there is none such, simply
    /// the first of those left.
    pub dependants_first: Row<usize>,
}
