// Whole texts.
ghost use Rattle.std.specs.Prelude.{ℕ, List, IfOk};
ghost use Rattle.std.specs.Str.{chars};
ghost use Rattle.erl_scan.specs.Scan.{IsScanOf, HasOneScan};

use crate::error::{Fault, ReadError};
use crate::scanner::Scanner;
use crate::token::Spot;
use erl_chars::quotes_read_one_way;
use std::alloc::{AllocError, Global};

/// The tokens of a text, up to its end or to the first token that is faulty by itself.
#[derive(Drop)]
pub struct Scanned {
    /// The tokens, each where it stands.
    pub tokens: Vec<Spot>,
    /// The fault of the token behind them, or none where the text ends.
    pub fault: Option<ReadError>,
}

/// How many bytes of a dense text stand for a token. The list of tokens has room for so many from the start.
const BYTES_A_TOKEN: usize = 3;

/// Reads a whole text as tokens, up to its end or to the first token that is faulty by itself.
///
/// # Errors
///
/// `AllocError` where memory is refused.
pub fn scan(alloc: Global, text: &str) -> Result<Scanned, AllocError>
    ensures { IfOk result (λ scanned. IsScanOf (chars text.now) scanned.tokens.items scanned.fault) }
{
    let mut scanner = Scanner::new(alloc, text);
    let mut tokens = Vec::with_capacity(alloc, text.len() / BYTES_A_TOKEN)?;
    loop {
        match scanner.next_token() {
            Ok(Some(spot)) => tokens.push(spot)?,
            Ok(None) => {
                return Ok(Scanned {
                    tokens,
                    fault: None,
                });
            }
            Err(error) => match error.kind {
                Fault::Memory => return Err(AllocError),
                _ => {
                    return Ok(Scanned {
                        tokens,
                        fault: Some(error),
                    });
                }
            },
        }
    }
}

/// A law: a text has one list of tokens up to its end or to its first token that is faulty by itself.
pub fn texts_scan_one_way()
    ensures { (cs : List ℕ) → HasOneScan cs }
{
    quotes_read_one_way();
}
