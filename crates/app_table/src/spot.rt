// Where a child stands.

/// Where a child stands. Indices are counted from 0.
#[derive(Clone, Copy, Debug, Default, PartialEq, Eq, Drop)]
pub struct Spot {
    /// The index of its application.
    pub app: usize,
    /// Its index among the children of that.
    pub child: usize,
}
