//! Writes a rehearsal of an upgrade as a page for a browser.
//!
//! [`write_page`] writes one HTML file that loads nothing from elsewhere: the verdict, a timeline with a column for each step
//! and a row for each process, the findings beside it, and what was seen of each step. All of it is in the page itself; its
//! script only shows one step at a time. The page has the words of [`rehearsal_report`].
//!
//! A page is written in pieces ([`parts`]): markup, texts and numbers. By its lifetime, only bytes of the program itself can be
//! markup, and only [`parts`] appends to the page. Every text that comes from a file, or from the words about it, is a piece of
//! its own, which [`put_escaped`] writes: so no text begins or ends a tag or a value. Printing a term is not enough for that,
//! nor does it protect against hidden characters. It escapes only the ASCII controls, and an atom may also have those of Latin-1
//! and the ones that turn the direction of a text. So [`diagnostics::push_shown`] first writes these as escapes. A version has
//! none, by its invariant.
//!
//! # What is proved
//!
//! - [`put_escaped`] appends exactly the text with its five characters of markup as references ([`parts`]), which has none of
//!   `<`, `>`, `"` and `'` left (`escaped-is-plain`).
//! - [`parts::put_parts`] appends its pieces, one after the other: markup unchanged, a text as it is shown and escaped, and a
//!   number in decimal (`AreWritten`). Of `<`, `>`, `"` and `'` it appends exactly those of the markup (`brackets`).
//! - [`write_page`] keeps what was in the output, and begins the page with its policy (`page_begin`): a browser loads nothing
//!   from elsewhere, whatever the page says.
//!
//! # What no contract says
//!
//! That markup comes from the program, which the type of a piece ensures. That the page is HTML, and what it says. How a hidden
//! character is written.
#![tactic(auto)]

mod cells;
mod columns;
mod head;
mod page;
mod parts;
mod rows;
mod script;
mod states;
mod steps;
mod style;
mod timeline;
mod wrong;

pub use page::write_page;
pub use parts::put_escaped;
