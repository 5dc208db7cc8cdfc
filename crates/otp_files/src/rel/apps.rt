// The applications of a release resource file.
ghost use Rattle.std.specs.Prelude.{◌≡◌, IfOk};
ghost use Rattle.erl_term.specs.Term.{tree, trees};
ghost use Rattle.erl_term.specs.Tree.{more, none};
ghost use Rattle.otp_files.specs.Reading.{rel_app_with, rel_app_of, rel_apps_of};

use crate::applications::{Applications, RelApp};
use erl_term::{Atom, FromTerm, Term, first, one, two};
use release_words::{StartType, Version};
use std::alloc::{AllocError, Global};
use values::{Duplicate, Row};

/// The applications that a term is, if it is a list of applications, none of them twice.
pub(crate) fn apps_of(alloc: Global, term: &Term) -> Result<Option<Applications>, AllocError>
    ensures { IfOk result (λ found. found ≡ rel_apps_of (tree term.now)) }
{
    let Some(apps) = Row::<RelApp>::from_term(alloc, term)? else {
        return Ok(None);
    };
    Applications::new(alloc, apps.into_vec())
}

/// `{App,Vsn}`, `{App,Vsn,Type}`, `{App,Vsn,IncApps}` or `{App,Vsn,Type,IncApps}`
impl FromTerm for RelApp {
    ghost reading = { rel_app_of };

    fn from_term(alloc: Global, term: &Term) -> Result<Option<RelApp>, AllocError> {
        let Some(row) = term.as_tuple() else {
            return Ok(None);
        };
        let Some((name, rest)) = first(row.as_slice()) else {
            return Ok(None);
        };
        let Some(name) = name.as_atom() else {
            return Ok(None);
        };
        let Some((vsn, rest)) = first(rest) else {
            return Ok(None);
        };
        let Some(vsn) = Version::from_term(alloc, vsn)? else {
            return Ok(None);
        };
        app_with(alloc, name.copy(alloc)?, vsn, rest)
    }
}

/// The application of a name, a version and what stands behind them.
fn app_with(
    alloc: Global,
    name: Atom,
    vsn: Version,
    rest: &[Term],
) -> Result<Option<RelApp>, AllocError>
    ensures { IfOk result (λ found. found ≡ rel_app_with name vsn (trees rest.now)) }
{
    if rest.is_empty() {
        return Ok(Some(RelApp {
            name,
            vsn,
            start_type: StartType::Permanent,
            included: None,
        }));
    }
    if let Some(term) = one(rest) {
        return app_of_one(alloc, name, vsn, term);
    }
    let Some((start_type, included)) = two(rest) else {
        return Ok(None);
    };
    let Some(start_type) = StartType::from_term(alloc, start_type)? else {
        return Ok(None);
    };
    let Some(included) = Row::from_term(alloc, included)? else {
        return Ok(None);
    };
    Ok(Some(RelApp {
        name,
        vsn,
        start_type,
        included: Some(included),
    }))
}

/// The application of a name, a version and the one term behind them: its type, or what it includes.
fn app_of_one(
    alloc: Global,
    name: Atom,
    vsn: Version,
    term: &Term,
) -> Result<Option<RelApp>, AllocError>
    ensures { IfOk result (λ found. found ≡ rel_app_with name vsn (more (tree term.now) none)) }
{
    if let Some(start_type) = StartType::from_term(alloc, term)? {
        return Ok(Some(RelApp {
            name,
            vsn,
            start_type,
            included: None,
        }));
    }
    let Some(included) = Row::from_term(alloc, term)? else {
        return Ok(None);
    };
    Ok(Some(RelApp {
        name,
        vsn,
        start_type: StartType::Permanent,
        included: Some(included),
    }))
}
