// Application upgrade files.
ghost use Rattle.std.specs.Prelude.{◌≡◌, ◌⊎◌, ◌↔◌, IsTrue, MatchResult, codes, drop, take};
ghost use Rattle.erl_scan.specs.declared.error.Fault.TheVariants.{Unsupported as unsupported};
ghost use Rattle.otp_files.specs.Texts.{IsAppupError, IsFile, IsTextError};
ghost use Rattle.otp_files.specs.Upgrades.{AppupRefused, IsAppup};
ghost use Rattle.otp_files.specs.declared.error.FileError.TheVariants.{Memory as refused, PatternVersion as pattern};

use crate::error::FileError;
use crate::one_term::{read_one, with_memory};
use crate::upgrade::{Entry, Upgrades, upgrades_from_term};
use erl_consult::{Fault, ReadError, texts_read_one_way};
use instructions::{Instruction, instruction_forms_are_read};
use std::alloc::Global;

/// An application upgrade file (appup(4)).
pub type Appup = Upgrades<(), Instruction>;

/// How an application is upgraded from a version, or downgraded to it.
pub type AppupEntry = Entry<(), Instruction>;

/// Reads an application upgrade file, `{Vsn,[{UpFrom,Instrs}],[{DownTo,Instrs}]}.`
///
/// # Errors
///
/// What is wrong, by the order of [`FileError`]: `Text`, or `PatternVersion` in its place where the text's first fault
/// is that `<<` is not read; `NoTerm`, `ManyTerms`, `Shape`, then `BadInstruction` or `OutOfProfile`; `Memory` where
/// memory is refused.
pub fn read_appup(alloc: Global, text: &[u8]) -> Result<Appup, FileError>
    ensures { MatchResult result (λ appup. IsFile IsAppup text.now appup)
        (λ e. (e ≡ refused) ⊎ IsAppupError AppupRefused text.now e) }
{
    texts_read_one_way();
    instruction_forms_are_read();
    match read_one(alloc, text) {
        Ok(term) => with_memory(upgrades_from_term(alloc, &term)),
        Err(error) => Err(appup_error(text, error)),
    }
}

/// What is wrong with an appup, by what is wrong with its text.
fn appup_error(text: &[u8], error: FileError) -> FileError
    ensures { (error ≡ refused) ⊎ IsTextError text.now error → (result ≡ refused) ⊎ IsAppupError AppupRefused text.now result }
{
    texts_read_one_way();
    match error {
        FileError::Text(error) => text_error(text, error),
        error => error,
    }
}

/// What is wrong with a text: that it has a pattern of versions, where `<<` is not read.
fn text_error(text: &[u8], error: ReadError) -> FileError
    ensures { ((result ≡ pattern) × (error.kind ≡ unsupported) × (take 2 (drop error.at text.now) ≡ codes "<<"))
        ⊎ ((result ≡ FileError.Text error) × ((error.kind ≡ unsupported) × (take 2 (drop error.at text.now) ≡ codes "<<") → ⊥)) }
{
    match error.kind {
        Fault::Unsupported => {
            if begins_pattern(text, error.at) {
                FileError::PatternVersion
            } else {
                FileError::Text(error)
            }
        }
        _ => FileError::Text(error),
    }
}

/// Whether `<<` stands at an index of a text.
fn begins_pattern(text: &[u8], at: usize) -> bool
    ensures { IsTrue result ↔ (take 2 (drop at text.now) ≡ codes "<<") }
{
    match text.get(at..) {
        Some(rest) => rest.starts_with(b"<<"),
        None => false,
    }
}
