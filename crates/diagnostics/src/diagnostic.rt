// What is told of a fault of a release's files.
use crate::excerpt::Excerpt;
use crate::file_kind::FileKind;
use crate::position::{Position, position_of};
use crate::words::{Finding, Looked};
use release_files::{FileFault, Files, ReleaseFault};
use std::alloc::{AllocError, Global};
use std::{fmt, str};

/// What is told of a fault of a file: as a text `PATH:LINE:COLUMN: ` and what is wrong, or `PATH: ` where it is at no offset.
#[derive(Debug, Drop)]
pub struct Diagnostic {
    /// The path of the file, below the root.
    path: String,
    /// Where the fault stands, if at an offset.
    position: Option<Position>,
    /// What is wrong.
    message: String,
    /// The line in which it stands, if at an offset.
    pub excerpt: Option<Excerpt>,
}

/// What is told of a fault, by the bytes of the files.
///
/// # Errors
///
/// `AllocError` where memory is refused.
pub fn diagnose(
    alloc: Global,
    files: &Files,
    fault: &ReleaseFault,
) -> Result<Diagnostic, AllocError> {
    let path = fault.path.as_str();
    let bytes = files.get(path).unwrap_or(b"");
    let looked = Looked {
        alloc,
        path,
        kind: FileKind::of_path(path),
        text: str::from_utf8(bytes).unwrap_or(""),
    };
    let Finding { at, message } = finding_of(looked, files, path, fault.fault)?;
    Ok(Diagnostic {
        path: String::from_str(alloc, path)?,
        position: at.map(|offset| position_of(bytes, offset)),
        message,
        excerpt: excerpt_of(alloc, bytes, at)?,
    })
}

/// The line in which an offset stands, if there is one.
fn excerpt_of(
    alloc: Global,
    bytes: &[u8],
    at: Option<usize>,
) -> Result<Option<Excerpt>, AllocError> {
    match at {
        Some(offset) => Ok(Some(Excerpt::around(alloc, bytes, offset)?)),
        None => Ok(None),
    }
}

/// What is wrong with the file at a path.
fn finding_of(
    looked: Looked<'_>,
    files: &Files,
    path: &str,
    fault: FileFault,
) -> Result<Finding, AllocError> {
    match fault {
        FileFault::Missing => looked.whole(missing_words(files, path)),
        FileFault::File(error) => looked.of_file(error),
        FileFault::Lang(error) => looked.of_source(error),
        FileFault::WrongModule => looked.of_module("the path names another module than this:"),
        FileFault::DuplicateModule => {
            looked.of_module("an earlier source of the release is this module's too:")
        }
        FileFault::Memory => looked.whole("out of memory"),
    }
}

/// Says that a file is missing, or a release's `.rel`, whose folder may be there.
fn missing_words(files: &Files, path: &str) -> &'static str {
    if path.starts_with("releases/") {
        return missing_release_words(files, path);
    }
    match FileKind::of_path(path) {
        FileKind::App => {
            "there is no such file; for an application of OTP's own {application,App,[{vsn,Vsn}]}. is enough"
        }
        FileKind::Source => "there is no such file; the application's .app lists this module",
        FileKind::Rel | FileKind::Appup | FileKind::Relup => "there is no such file",
    }
}

/// Says that a release's `.rel` is missing, whose folder may be there.
fn missing_release_words(files: &Files, path: &str) -> &'static str {
    if files
        .paths()
        .iter()
        .any(|other| is_below(other.as_str(), path))
    {
        "the folder is there, but it holds no file with a name that ends in .rel"
    } else {
        "there is no such folder, or no file stands below it"
    }
}

/// Whether a path leads to what stands below a folder.
fn is_below(path: &str, folder: &str) -> bool {
    match path.strip_prefix(folder) {
        Some(rest) => rest.starts_with('/'),
        None => false,
    }
}

impl fmt::Display for Diagnostic {
    fn fmt<W: fmt::Write>(&self, f: &mut fmt::Formatter<W>) -> fmt::Result {
        // Of lack of memory there may be no path.
        if !self.path.is_empty() {
            write!(f, "{}:", self.path)?;
        }
        if let Some(position) = self.position {
            write!(f, "{}:{}:", position.line, position.column)?;
        }
        if !self.path.is_empty() {
            f.write_str(" ")?;
        }
        f.write_str(self.message.as_str())
    }
}
