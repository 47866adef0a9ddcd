//! Which files a run uses, and which uses forbid to begin a text in one of them.
ghost use Rattle.std.specs.Prelude.{◌≡◌, ◌↔◌, IsTrue};

use std::fs;
use std::fs::{Metadata, OpenFile};
use std::os::unix::fs::MetadataExt;
use std::rt::Files;

/// A file of the system, whatever its names are: its device, and its number on that device (POSIX.1-2017, `sys/stat.h`).
#[derive(Clone, Copy, PartialEq, Eq)]
pub(crate) struct FileId {
    device: u64,
    number: u64,
}

impl FileId {
    /// The file that is open, where the system tells its number.
    pub(crate) fn of_open<F: OpenFile>(file: &F) -> Option<FileId> {
        FileId::of(&file.metadata().ok()?)
    }

    /// The file that a name leads to now, where there is one and the system tells its number.
    pub(crate) fn behind<R: Files>(rt: &R, name: &str) -> Option<FileId> {
        FileId::of(&fs::metadata(rt, name).ok()?)
    }

    fn of(facts: &Metadata) -> Option<FileId> {
        if facts.ino() == 0 {
            return None;
        }
        Some(FileId {
            device: facts.dev(),
            number: facts.ino(),
        })
    }
}

/// A use of a file in this run: it was loaded, or a text was begun in it. The file is `None` where the system didn't tell it.
#[derive(Drop)]
pub(crate) struct FileUse {
    pub name: String,
    pub file: Option<FileId>,
    pub was_loaded: bool,
}

impl FileUse {
    ghost use Rattle.io_ports.specs.FileUse.{Forbids};

    /// Whether no text may be begun in a file under a name, as long as the name of this use leads to that file.
    pub(crate) fn forbids(&self, file: FileId, name: &str) -> bool
        ensures { IsTrue result ↔ Forbids self.now file name.now }
    {
        self.file == Some(file) && (self.was_loaded || self.name.as_str() != name)
    }
}
