// Releases whose file is easily overlooked.
use release_files::{Files, first_rel, is_rel_name};

/// The `.rel` of a version that counts, though its name begins with a dot, and another that stands beside it.
#[derive(Clone, Copy, Debug)]
pub struct HiddenRel<'a> {
    /// The path of the one that counts: it comes first in the order of the bytes.
    pub taken: &'a str,
    /// The path of the first whose name begins with no dot.
    pub other: &'a str,
}

/// Whether a file whose name begins with a dot, as editors leave them, counts as the release of a version while there is another.
pub fn hidden_rel<'a>(files: &'a Files, vsn: &str) -> Option<HiddenRel<'a>> {
    let paths = files.paths();
    let taken = first_rel(paths, vsn)?;
    if !is_hidden_name(taken) {
        return None;
    }
    let other = paths.iter().find(|path| {
        is_rel_name(path.as_str().as_bytes(), vsn.as_bytes()) && !is_hidden_name(path.as_str())
    })?;
    Some(HiddenRel {
        taken,
        other: other.as_str(),
    })
}

/// Whether the name that a path ends with begins with a dot.
fn is_hidden_name(path: &str) -> bool {
    match path.rsplit_once('/') {
        Some((_, name)) => name.starts_with('.'),
        None => path.starts_with('.'),
    }
}
