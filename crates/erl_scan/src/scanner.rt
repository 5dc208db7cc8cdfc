// The scanner.
use crate::error::{Fault, ReadError};
use crate::recent::RecentTexts;
use erl_chars::Cursor;
use std::alloc::Global;

/// A text, and how far its tokens are read.
#[derive(Drop)]
pub struct Scanner<'a> {
    pub(crate) alloc: Global,
    pub(crate) cursor: Cursor<'a>,
    pub(crate) recent: RecentTexts,
}

/// Memory was refused.
pub(crate) const OUT_OF_MEMORY: ReadError = ReadError {
    kind: Fault::Memory,
    at: 0,
};
