// Which folder a path leads to.
use std::fs::Metadata;
use std::os::unix::fs::MetadataExt;
use std::rt::Files as FileSystem;
use std::{fs, io};

/// A file or folder, as the system numbers it: the device, and the number there. Both are 0 where the system doesn't tell them.
#[derive(Clone, Copy, Debug, PartialEq, Eq)]
pub(crate) struct Identity {
    device: u64,
    number: u64,
}

impl Identity {
    /// What a path leads to.
    pub(crate) fn at<R: FileSystem>(rt: &R, path: &str) -> Identity {
        Identity::of_target(&fs::metadata(rt, path))
    }

    /// What the system told of the end of a path.
    pub(crate) fn of_target(target: &io::Result<Metadata>) -> Identity {
        match target {
            Ok(data) => Identity {
                device: data.dev(),
                number: data.ino(),
            },
            Err(_) => Identity {
                device: 0,
                number: 0,
            },
        }
    }

    /// Whether the system told it.
    pub(crate) fn is_known(self) -> bool {
        self.device != 0 || self.number != 0
    }
}
