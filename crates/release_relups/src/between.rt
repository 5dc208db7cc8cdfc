// The relup that leads from one release to another.
ghost use Rattle.std.specs.Prelude.{◌≡◌, ◌⊎◌, ◌++◌, ◌∷◌, [], IfOk, MatchResult, OnOk};
ghost use Rattle.release_relups.specs.Parts.{appups_of, rel_apps};
ghost use Rattle.relup_make.specs.Relups.{IsRefusal, IsTranslation};
ghost use Rattle.relup_make.specs.declared.error.MakeError.TheVariants.{Memory as refused};

use otp_files::{AppSpec, Appup, Relup};
use release_table::{AppFiles, Release};
use relup_make::{MakeError, RelApps, make};
use std::alloc::{AllocError, Global};
use values::Row;

/// What a relup is made of.
#[derive(Drop)]
struct Parts {
    /// The release, with the specifications of its applications.
    whole: RelApps,
    /// Their appups.
    appups: Vec<Option<Appup>>,
}

/// Makes the relup that leads from one release to another and back, of the appups of the other's applications (appup(4),
/// relup(4)). The relups that the releases have are not looked at.
///
/// # Errors
///
/// What stands against it first, by the order of [`MakeError`]; `Memory` where memory is refused.
pub fn relup_between(alloc: Global, from: Release, to: Release) -> Result<Relup, MakeError>
    ensures { MatchResult result (λ relup. IsTranslation (rel_apps from) (rel_apps to) (appups_of to) relup)
        (λ e. (e ≡ refused) ⊎ IsRefusal (rel_apps from) (rel_apps to) (appups_of to) e) }
{
    let (Ok(from), Ok(to)) = (parts_of(alloc, from), parts_of(alloc, to)) else {
        return Err(MakeError::Memory);
    };
    make(alloc, &from.whole, &to.whole, to.appups.as_slice())
}

/// Puts what a relup is made of, of an application, behind that of others.
fn push_files(
    specs: &mut Vec<AppSpec>,
    appups: &mut Vec<Option<Appup>>,
    app: AppFiles,
) -> Result<(), AllocError>
    ensures specs { OnOk result (specs.new.items ≡ specs.old.items ++ app.spec ∷ []) }
    ensures appups { OnOk result (appups.new.items ≡ appups.old.items ++ app.appup ∷ []) }
{
    specs.push(app.spec)?;
    appups.push(app.appup)?;
    Ok(())
}

/// What a relup is made of, of a release.
fn parts_of(alloc: Global, release: Release) -> Result<Parts, AllocError>
    ensures { IfOk result (λ parts. (parts.whole ≡ rel_apps release) × (parts.appups.items ≡ appups_of release)) }
{
    let count = release.apps.as_slice().len();
    let mut specs = Vec::with_capacity(alloc, count)?;
    let mut appups = Vec::with_capacity(alloc, count)?;
    for app in release.apps.into_vec() {
        push_files(&mut specs, &mut appups, app)?;
    }
    let whole = RelApps {
        rel: release.rel,
        apps: Row::new(specs),
    };
    Ok(Parts { whole, appups })
}
