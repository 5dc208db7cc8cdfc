//! The files of a release: `.app`, `.rel`, `.appup` and relup (app(4), rel(4), appup(4), relup(4)).
//!
//! A file holds one term, with its dot. Its record has only what such a file may say, so a version is a [`Version`],
//! the applications of a release are [`Applications`], none of them twice, and a script is a [`Script`] of low-level
//! instructions. Appups and relups are both [`Upgrades`], with the same look-ups. Each record has `copy` and `same`.
//!
//! # What is proved
//!
//! - [`read_app`], [`read_rel`], [`read_appup`] and [`read_relup`] answer the record that the bytes' one term says by the
//!   manuals' forms, or, lack of memory aside, what is wrong with the text or with the term, in the order of
//!   [`FileError`]: of a term the first element of the outer tuple that is wrong, then a key that stands twice, then the
//!   first instruction of the file that is none.
//! - [`terms_say_one_record_or_have_one_fault`]: by those forms a term says one record, or has one fault where it says
//!   none. [`files_are_read_one_way`]: all bytes are one file of a kind, or none for one reason, and never both.
//! - [`relup_term`] and [`low_term`] give terms that say what they were made of, and so does [`print_relup`], where no
//!   process identifier stands in the relup and it is nested at most 256 deep; its output stays as it was where memory
//!   is refused.
//! - [`Upgrades::up_from`] and [`Upgrades::down_to`] give the first entry of a version; [`Applications::new`] refuses
//!   exactly where two applications have one name.
//!
//! # What no contract says
//!
//! That there is memory, and what a call costs: beside [`erl_consult::read_terms`], whose costs are stated there,
//! reading is linear in the file, but that names of applications are looked up in a tree. The text's term is held while
//! the record is made of it, and what the record keeps of it is shared.
#![tactic(auto)]

mod app;
mod applications;
mod appup;
mod error;
mod laws;
mod one_term;
mod rel;
mod release_name;
mod relup;
mod script;
mod upgrade;
mod words;

pub use app::{AppSpec, StartModule, read_app};
pub use applications::{Applications, RelApp};
pub use appup::{Appup, AppupEntry, read_appup};
pub use error::FileError;
pub use high_instructions::{
    ApplicationInstruction, ApplicationWork, Change, High, ModuleInstruction, ModuleType,
    ModuleWork,
};
pub use instructions::Instruction;
pub use laws::{files_are_read_one_way, terms_say_one_record_or_have_one_fault};
pub use low_instructions::{Direction, Low, ModuleChange, Script, Suspension, low_term};
pub use rel::{RelSpec, read_rel};
pub use release_name::ReleaseName;
pub use release_words::{Milliseconds, Purge, StartType, Timeout, Version, VersionError};
pub use relup::{Relup, RelupEntry, print_relup, read_relup, relup_term};
pub use upgrade::{Entry, Upgrades};
