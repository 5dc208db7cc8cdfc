// Specifications that were replaced by those of another release.
use otp_files::AppSpec;
use values::Row;

/// The specification of an application that another one stands in place of.
#[derive(Drop)]
pub struct Replaced {
    /// The index of the application, counted from 0.
    pub index: usize,
    /// Its specification.
    pub spec: AppSpec,
}

/// What the applications were specified by before the specifications of a release were put in place.
#[derive(Drop)]
pub struct FormerSpecs {
    /// The specifications that were replaced, in order.
    pub replaced: Row<Replaced>,
    /// How many applications were added, last.
    pub added: usize,
}
