//! Characters of Erlang texts: a cursor over them, blanks and comments, escapes and quotes.
//!
//! A [`Cursor`] stands in a text and steps over it. Contracts see what is left of the text as a list of code points,
//! `left`; the bytes of the whole text, `total`, stay. A step that fails says so by an error of its own, without
//! words on where in the text it stands, but for [`QuoteError::BadEscape`]: what is wrong with a text is for the crates
//! above to say.
//!
//! # What is proved
//!
//! - [`Cursor::peek`] gives the next character, [`Cursor::advance`] steps over it and [`Cursor::take`] does both;
//!   [`Cursor::offset`] is how many bytes stand before the cursor.
//! - [`Cursor::skip_gap`] steps over exactly the blanks and comments in front.
//! - [`Cursor::escape`] gives the character that an escape stands for, and else `Cut` exactly where the text ends
//!   first and `Wrong` exactly where no escape is written so.
//! - [`Cursor::quoted`] gives exactly the characters written between quotes, and stands behind the closing one.
//!   `Unclosed` is told only where the text ends first, and `BadEscape` only at the first backslash with no escape
//!   behind it. [`quotes_read_one_way`]: a text has no two of these readings.
//! - [`Cursor::up_to`] gives exactly the characters that stand between two cursors of a text.
//! - A [`Text`] keeps the characters it is made of, and so do a [`SharedText`], its copies and a [`Name`]:
//!   [`Name::from_text`] refuses exactly the texts of over 255 characters.
//!
//! # What no contract says
//!
//! That there is memory, which [`Cursor::quoted`], [`Text::from_string`] and [`SharedText::new`] ask for; that `Memory`
//! is told only where it was refused; and what a call costs: each is linear in what it steps over, a text in its
//! characters, and [`Name::from_text`] too where it counts them. A copy of a shared text costs the same whatever its
//! length.
#![tactic(auto)]

mod bytes;
mod cursor;
mod escapes;
mod quotes;
mod steps;
mod text;

pub use cursor::Cursor;
pub use escapes::EscapeError;
pub use quotes::{QuoteError, quotes_read_one_way};
pub use text::{Name, NameError, SharedText, Text};
