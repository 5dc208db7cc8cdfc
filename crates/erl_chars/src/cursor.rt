// An offset in a text.
ghost use Rattle.std.specs.Prelude.{◌≤◌, length};

/// A text, and how far it is read.
#[derive(Clone, Copy)]
pub struct Cursor<'a> {
    pub(crate) total: usize,
    pub(crate) rest: &'a str,
    ghost within: { length rest.now ≤ total },
}
