// Which child of which application.
ghost use Rattle.std.specs.Prelude.{◌≡◌};
ghost use Rattle.app_table.specs.Modules.{is_child, is_named_in};

use crate::child::Child;
use erl_term::{Atom, Term};

/// A child, by the name of its application and its Id.
#[derive(Drop)]
pub struct ChildName {
    /// The name of its application.
    pub app: Atom,
    /// What the supervisor calls it by.
    pub id: Term,
}

impl ChildName {
    /// Whether it is the name of a child of the application of a name.
    fn is_of(&self, app: &Atom, child: &Child) -> bool
        ensures { result ≡ is_child app.now child.now self.now }
    {
        self.app == *app && child.spec.id == self.id
    }
}

/// Whether a child of the application of a name is among these.
pub(crate) fn is_named_in(names: &[ChildName], app: &Atom, child: &Child) -> bool
    ensures { result ≡ is_named_in names.now app.now child.now }
{
    names.iter().any(|name| name.is_of(app, child))
}
