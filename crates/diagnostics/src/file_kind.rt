// Kinds of files.

/// What a file of a release is.
#[derive(Clone, Copy, Debug, PartialEq, Eq)]
pub(crate) enum FileKind {
    /// `APP.app`
    App,
    /// `NAME.rel`
    Rel,
    /// `APP.appup`
    Appup,
    /// `relup`
    Relup,
    /// `MOD.erl`, and whatever else.
    Source,
}

impl FileKind {
    /// What the file at a path is.
    pub(crate) fn of_path(path: &str) -> FileKind {
        if path.ends_with(".app") {
            FileKind::App
        } else if path.ends_with(".rel") {
            FileKind::Rel
        } else if path.ends_with(".appup") {
            FileKind::Appup
        } else if path.ends_with("/relup") {
            FileKind::Relup
        } else {
            FileKind::Source
        }
    }

    /// Which element of an entry holds its instructions, counted from 1.
    pub(crate) fn instructions(self) -> usize {
        match self {
            FileKind::Relup => 3,
            FileKind::App | FileKind::Rel | FileKind::Appup | FileKind::Source => 2,
        }
    }
}
