// Texts and optional values as JSON.
use serde_json::Value;
use std::alloc::{AllocError, Global};
use std::str;

/// Returns a text that was written.
pub(crate) fn text_of(alloc: Global, written: &[u8]) -> Result<Value, AllocError> {
    let text = str::from_utf8(written).unwrap_or("");
    Value::try_from_str(alloc, text)
}

/// Returns a text that was written, or `null` if nothing was.
pub(crate) fn text_if_any(alloc: Global, written: &[u8]) -> Result<Value, AllocError> {
    if written.is_empty() {
        Ok(Value::Null)
    } else {
        text_of(alloc, written)
    }
}
