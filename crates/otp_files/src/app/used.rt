// The keys of an application resource file that are used.
ghost use Rattle.std.specs.Prelude.{◌≡◌, Option, IfOk, IsTrue, MatchOption, None, Some};
ghost use Rattle.erl_term.specs.Ascii.{is_ascii_text};
ghost use Rattle.erl_term.specs.Accessors.{all_of, atom_of};
ghost use Rattle.erl_term.specs.Conversions.{given, rows_of};
ghost use Rattle.erl_term.specs.Term.{tree, trees};
ghost use Rattle.erl_term.specs.Tree.{Tree};
ghost use Rattle.release_words.specs.Reading.{version_of};
ghost use Rattle.otp_files.specs.Apps.{values_of};
ghost use Rattle.otp_files.specs.Reading.{property_of, start_of, used_of};

use super::StartModule;
use erl_term::{Atom, FromTerm, Term, two};
use release_words::Version;
use std::alloc::{AllocError, Global};
use values::Row;

/// What stands under the keys that are used, in order.
#[derive(Drop)]
pub(crate) struct Used {
    /// `vsn`
    pub(crate) versions: Row<Version>,
    /// `modules`
    pub(crate) modules: Row<Row<Atom>>,
    /// `applications`
    pub(crate) applications: Row<Row<Atom>>,
    /// `mod`
    pub(crate) starts: Row<Option<StartModule>>,
}

/// What stands under a key that is used, read from its term.
pub(crate) trait FromValue: Drop {
    ghost reading: { Tree → Option Self };

    /// What a term says under the key, if it is well formed.
    fn from_value(alloc: Global, term: &Term) -> Result<Option<Self>, AllocError>
        ensures { IfOk result (λ found. found ≡ reading (tree term.now)) };
}

impl FromValue for Version {
    ghost reading = { version_of };

    fn from_value(alloc: Global, term: &Term) -> Result<Option<Version>, AllocError> {
        Version::from_term(alloc, term)
    }
}

impl FromValue for Row<Atom> {
    ghost reading = { rows_of atom_of };

    fn from_value(alloc: Global, term: &Term) -> Result<Option<Row<Atom>>, AllocError> {
        Row::from_term(alloc, term)
    }
}

/// A callback module, `{M,Args}`, or none, `[]`.
impl FromValue for Option<StartModule> {
    ghost reading = { start_of };

    fn from_value(alloc: Global, term: &Term) -> Result<Option<Option<StartModule>>, AllocError> {
        if let Some(row) = term.as_list() {
            return Ok(if row.is_empty() { Some(None) } else { None });
        }
        match <(Atom, Term)>::from_term(alloc, term)? {
            Some((name, arguments)) => Ok(Some(Some(StartModule { name, arguments }))),
            None => Ok(None),
        }
    }
}

/// What stands under the keys that are used, if a term is a list of properties, these are
/// well formed, and a version is among them.
pub(crate) fn used_of(alloc: Global, term: &Term) -> Result<Option<Used>, AllocError>
    ensures { IfOk result (λ found. found ≡ used_of (tree term.now)) }
{
    let Some(row) = term.as_list() else {
        return Ok(None);
    };
    let row = row.as_slice();
    let Some(versions) = all_under(alloc, row, "vsn")? else {
        return Ok(None);
    };
    let Some(modules) = all_under(alloc, row, "modules")? else {
        return Ok(None);
    };
    let Some(applications) = all_under(alloc, row, "applications")? else {
        return Ok(None);
    };
    let Some(starts) = all_under(alloc, row, "mod")? else {
        return Ok(None);
    };
    if versions.as_slice().is_empty() {
        return Ok(None);
    }
    Ok(Some(Used {
        versions,
        modules,
        applications,
        starts,
    }))
}

/// What stands under a key, if all of a row are properties and these are well formed.
fn all_under<T: FromValue>(
    alloc: Global,
    row: &[Term],
    key: &str,
) -> Result<Option<Row<T>>, AllocError>
    requires { IsTrue (is_ascii_text key.now) }
    ensures { IfOk result (λ found. found ≡ given (all_of property_of (trees row.now))
        (λ ps. all_of T.reading (values_of key.now ps))) }
{
    let mut values = Vec::new(alloc);
    for term in row {
        let Some((name, value)) = property(term) else {
            return Ok(None);
        };
        if name.is(key) {
            let Some(value) = T::from_value(alloc, value)? else {
                return Ok(None);
            };
            values.push(value)?;
        }
    }
    Ok(Some(Row::new(values)))
}

/// The key and the value of a term that is `{Key,Value}`.
fn property(term: &Term) -> Option<(&Atom, &Term)>
    ensures { MatchOption result (property_of (tree term.now) ≡ None)
        (λ p. property_of (tree term.now) ≡ Some (p.0.now, tree p.1.now)) }
{
    let (key, value) = two(term.as_tuple()?.as_slice())?;
    Some((key.as_atom()?, value))
}
