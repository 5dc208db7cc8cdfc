//! What happens to a node, and what is told of it: events, their answers, why one is refused, and what an undo reports.
//!
//! [`Event`] is what makes a step of a node, [`Answer`] what it is answered, [`Refusal`] why it isn't made, and [`Note`]
//! what an undo of it reports: the replies that were sent, or the message that came. What each event does to a node is said
//! by `node_core`, above.
//!
//! # What is proved
//!
//! They are copied and compared by value. A [`Note`] is seen as its replies and its arrival.
//!
//! # What no contract says
//!
//! That there is memory, and what a copy costs: terms and modules are shared.
#![tactic(auto)]

mod event;
mod note;

pub use event::{Answer, Event, Refusal};
pub use note::Note;
