// A list that contracts see as its items, and that keeps few of them in itself.
ghost use Rattle.std.specs.Prelude.{◌≡◌, List};

use smallvec::SmallVec;
use std::marker::Model;

/// A list that contracts see as its items alone. Up to `N` of them lie in the list itself, and more in memory of their own.
///
/// It is made from a `SmallVec`, without memory.
#[derive(Drop)]
pub struct Few<T, const N: usize> {
    items: SmallVec<T, N>,
}

impl<T, const N: usize> Model for Few<T, N> {
    ghost Value = { List T };

    ghost view = { λ few. few.items.items };
}

impl<T, const N: usize> Few<T, N> {
    /// Returns the list of these items. Takes no memory.
    pub fn new(items: SmallVec<T, N>) -> Few<T, N>
        ensures { result ≡ items.items }
    {
        Few { items }
    }

    /// Returns the items, in order. Takes no memory.
    pub fn as_slice(&self) -> &[T]
        ensures { result.now ≡ self.now }
    {
        self.items.as_slice()
    }
}
