// Why files are no release.
ghost use Rattle.std.specs.Prelude.{◌≡◌, ◌≢◌, ◌⊎◌, string_bytes};
ghost use Rattle.otp_files.specs.declared.error.FileError.TheVariants.{Memory as file_refused};
ghost use Rattle.release_files.specs.declared.fault.FileFault.TheVariants.{Memory as refused};
ghost use Rattle.values.specs.Failure.{Fails};

use erl_parse::LangError;
use otp_files::FileError;
use std::alloc::Global;
use thiserror::Error;
use values::Failure;

/// What stands against a file of a release.
#[derive(Clone, Copy, Debug, PartialEq, Eq, Error)]
pub enum FileFault {
    /// There is no such file.
    #[error("there is no such file")]
    Missing,
    /// It is no file of its kind. `Shape` also tells that a `.rel` (2), a relup (1) or an `.app` (3) has another version than
    /// the one that is asked for, or an `.app` (2) another name.
    #[error("{0}")]
    File(FileError),
    /// It is no source of a module.
    #[error("{0}")]
    Lang(LangError),
    /// It is the source of a module of another name.
    #[error("the source is that of another module")]
    WrongModule,
    /// An earlier source of the release is that of a module of the same name.
    #[error("a module of this name is there already")]
    DuplicateModule,
    /// Memory was refused.
    #[error("out of memory")]
    Memory,
}

/// A fault of a release's files, and where it is.
#[derive(Debug, Drop, Error)]
#[error("{path}: {fault}")]
pub struct ReleaseFault {
    /// The path of the file, below the root; of a `.rel` that is missing, `releases/VSN`. Of `Memory` it may be empty.
    pub path: String,
    /// What stands against it.
    pub fault: FileFault,
}

/// That memory was refused. Takes none.
pub(crate) fn no_memory(alloc: Global) -> ReleaseFault
    ensures { result.fault ≡ refused }
{
    ReleaseFault {
        path: String::new(alloc),
        fault: FileFault::Memory,
    }
}

/// A fault of the file at a path.
pub(crate) fn fault_at(alloc: Global, path: &str, fault: FileFault) -> ReleaseFault
    ensures { (result.fault ≡ refused) ⊎ ((string_bytes result.path ≡ path.now) × (result.fault ≡ fault)) }
{
    match String::from_str(alloc, path) {
        Ok(path) => ReleaseFault { path, fault },
        Err(_) => no_memory(alloc),
    }
}

/// The fault of a file that is refused; memory that was refused is told as such.
pub(crate) fn of_file(error: FileError) -> FileFault
    ensures { (result ≡ refused) ⊎ ((error ≢ file_refused) × (result ≡ FileFault.File error)) }
{
    match error {
        FileError::Memory => FileFault::Memory,
        error => FileFault::File(error),
    }
}

/// The fault of a source that is not read; memory that was refused is told as such.
pub(crate) fn of_source(failure: Failure<LangError>) -> FileFault
    ensures { Fails (λ error. result ≡ FileFault.Lang error) (result ≡ refused) failure }
{
    match failure {
        Failure::Refused(error) => FileFault::Lang(error),
        Failure::Memory => FileFault::Memory,
    }
}
