//! What is amiss at a desk.

use crate::cut::{before, behind};
use std::alloc::Global;
use std::fs;
use std::os::unix::fs::symlink;
use std::rt::Files;

/// What may be amiss at a desk.
#[derive(Clone, Copy)]
enum Kind {
    Nothing,
    /// A file may not be opened.
    Closed,
    /// A file may be opened to be read, and not to be written.
    Kept,
    /// A folder stands where a file should.
    Folder,
    /// What is written to a file, or beside it, finds no room.
    Full,
    /// What is written to a file, or beside it, is taken, and the disk has no room for it.
    Late,
    /// A file is a link to another one.
    Link,
    /// A file is another one by a second name.
    Name,
    /// Nothing can be made beside a file.
    Alone,
    /// No more bytes than a number, which stands in place of a file, can be printed.
    Mute,
}

/// What is amiss at a desk, with the file that it is amiss of, and another one behind a blank.
#[derive(Drop)]
pub struct Amiss {
    kind: Kind,
    files: String,
}

/// What is amiss by its word; nothing where no word is known.
fn kind_of(word: &str) -> Option<Kind> {
    match word {
        "" => Some(Kind::Nothing),
        "closed" => Some(Kind::Closed),
        "kept" => Some(Kind::Kept),
        "folder" => Some(Kind::Folder),
        "full" => Some(Kind::Full),
        "late" => Some(Kind::Late),
        "link" => Some(Kind::Link),
        "name" => Some(Kind::Name),
        "alone" => Some(Kind::Alone),
        "mute" => Some(Kind::Mute),
        _ => None,
    }
}

/// What is amiss, by a word and the files of it; nothing where no word is known, or memory lacks.
pub fn amiss_of(alloc: Global, said: &str) -> Option<Amiss> {
    let Some(kind) = kind_of(before(said, " ")) else {
        return None;
    };
    match String::from_str(alloc, behind(said, " ")) {
        Ok(files) => Some(Amiss { kind, files }),
        Err(_) => None,
    }
}

/// Whether a path is that of a new file beside another one.
fn is_beside(path: &str, file: &str) -> bool {
    match path.strip_prefix(file) {
        Some(rest) => rest.starts_with(".csbatch-"),
        None => false,
    }
}

/// Whether a path is that of a file, or of a new one beside it.
fn is_by(path: &str, file: &str) -> bool {
    (path == file) | is_beside(path, file)
}

impl Amiss {
    /// The file that it is amiss of.
    fn file(&self) -> &str {
        before(&self.files, " ")
    }

    /// The other file.
    fn other(&self) -> &str {
        behind(&self.files, " ")
    }

    /// Makes the link, or the second name.
    pub fn tie<R: Files>(&self, rt: &R) -> bool {
        match self.kind {
            Kind::Link => symlink(rt, self.other(), self.file()).is_ok(),
            Kind::Name => fs::hard_link(rt, self.other(), self.file()).is_ok(),
            _ => true,
        }
    }

    /// Whether this is amiss of a file.
    fn is(&self, kind: Kind, path: &str) -> bool {
        (self.kind == kind) & (path == self.file())
    }

    /// Whether this is amiss of a file that is written, or of the file that it is made beside.
    fn is_by(&self, kind: Kind, path: &str, writes: bool) -> bool {
        (self.kind == kind) & writes & is_by(path, self.file())
    }

    /// Whether a file may not be opened.
    pub fn denies(&self, path: &str, writes: bool) -> bool {
        let is_alone = (self.kind == Kind::Alone) & is_beside(path, self.file());
        self.is(Kind::Closed, path) | (self.is(Kind::Kept, path) & writes) | is_alone
    }

    /// Whether a file is a folder.
    pub fn is_folder(&self, path: &str) -> bool {
        self.is(Kind::Folder, path)
    }

    /// Whether what is written to a file finds no room.
    pub fn is_full(&self, path: &str, writes: bool) -> bool {
        self.is_by(Kind::Full, path, writes)
    }

    /// Whether what is written to a file is taken, and the disk has no room for it.
    pub fn is_late(&self, path: &str, writes: bool) -> bool {
        self.is_by(Kind::Late, path, writes)
    }

    /// How many bytes can be printed.
    pub fn most_printed(&self) -> usize {
        match self.kind {
            Kind::Mute => self.file().parse::<usize>().unwrap_or(0),
            _ => usize::MAX,
        }
    }
}
