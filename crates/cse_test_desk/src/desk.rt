//! The desk of a command: its words, the files of the folder in which the program runs, and what it prints. Each file that it
//! opens is noted, and one of them may be amiss.

use crate::amiss::Amiss;
use crate::sheet::Sheet;
use std::alloc::{AllocError, Allocator, Global};
use std::cell::RefCell;
use std::env::FillError;
use std::fmt::Display;
use std::fs::{Metadata, OpenOptions, Permissions};
use std::io::{self, ErrorKind, PipeReader, PipeWriter};
use std::os::fd::BorrowedFd;
use std::os::unix::net::SocketAddr;
use std::path::PathBuf;
use std::rt::{Env, Files};

/// What was opened and printed at a desk.
#[derive(Drop)]
pub struct Notes {
    /// The files that were opened, or should have been, with `>` before each that is written, and a blank before each.
    pub opened: RefCell<Vec<u8>>,
    pub printed: RefCell<Vec<u8>>,
}

/// A desk over the files of a runtime.
#[derive(Drop)]
pub struct Desk<'a, R> {
    pub files: &'a R,
    pub alloc: Global,
    /// The words after the program's name, with blanks between them.
    pub words: &'a str,
    pub amiss: &'a Amiss,
    pub notes: &'a Notes,
}

impl<R: Files> Desk<'_, R> {
    /// Opens a file of the folder, unless it may not be opened.
    fn open_by(&self, how: &OpenOptions, path: &str) -> io::Result<R::File> {
        let place = if self.amiss.is_folder(path) {
            "."
        } else {
            path
        };
        if self.admits(path, how.asks_write()) {
            self.files.open_file(how, place)
        } else {
            Err(io::Error::from(ErrorKind::PermissionDenied))
        }
    }
}

impl<R> Desk<'_, R> {
    /// Notes a file that is to be opened, and answers whether it may be.
    fn admits(&self, path: &str, writes: bool) -> bool {
        let sign: &[u8] = if writes { b" >" } else { b" " };
        let is_noted = note(&self.notes.opened, sign, path.as_bytes()).is_ok();
        is_noted & !self.amiss.denies(path, writes)
    }

    /// How many bytes more can be printed.
    fn room_to_print(&self) -> usize {
        match self.notes.printed.try_borrow() {
            Ok(printed) => self.amiss.most_printed().saturating_sub(printed.len()),
            Err(_) => 0,
        }
    }
}

/// Puts two pieces.
fn put(into: &mut Vec<u8>, sign: &[u8], piece: &[u8]) -> Result<(), AllocError> {
    into.extend_from_slice(sign)?;
    into.extend_from_slice(piece)
}

/// Notes two pieces.
fn note(into: &RefCell<Vec<u8>>, sign: &[u8], piece: &[u8]) -> io::Result<()> {
    match into.try_borrow_mut() {
        Ok(mut noted) => match put(&mut noted, sign, piece) {
            Ok(()) => Ok(()),
            Err(_) => Err(io::Error::from(ErrorKind::OutOfMemory)),
        },
        Err(_) => Err(io::Error::from(ErrorKind::ResourceBusy)),
    }
}

/// What a desk doesn't do.
fn unsupported<T>() -> io::Result<T> {
    Err(io::Error::from(ErrorKind::Unsupported))
}

impl<R> Alloc for Desk<'_, R> {
    type A = Global;

    fn alloc(&self) -> Global {
        self.alloc
    }
}

/// The word of a place, from 0 on.
fn word_at(words: &str, place: usize) -> Option<&str> {
    match place {
        0 => Some("csbatch"),
        _ => words.split_ascii_whitespace().nth(place - 1),
    }
}

impl<R> Env for Desk<'_, R> {
    fn arg(&self, i: usize, buf: &mut [u8]) -> Result<usize, FillError> {
        let Some(word) = word_at(self.words, i) else {
            return Err(FillError::NotPresent);
        };
        let bytes = word.as_bytes();
        match buf.get_mut(..bytes.len()) {
            Some(front) => {
                front.copy_from_slice(bytes);
                Ok(bytes.len())
            }
            None => Err(FillError::TooLong),
        }
    }

    fn var(&self, _name: &str, _buf: &mut [u8]) -> Result<usize, FillError> {
        Err(FillError::NotPresent)
    }

    fn var_at(&self, _i: usize, _buf: &mut [u8]) -> Result<usize, FillError> {
        Err(FillError::NotPresent)
    }
}

// The commands print bytes alone.
impl<R> Print for Desk<'_, R> {
    fn print<D: Display + Drop>(&self, _value: D) -> io::Result<()> {
        unsupported()
    }

    fn println<D: Display + Drop>(&self, _value: D) -> io::Result<()> {
        unsupported()
    }

    fn write_all(&self, bytes: &[u8]) -> io::Result<()> {
        let room = self.room_to_print();
        if bytes.len() <= room {
            return note(&self.notes.printed, b"", bytes);
        }
        let (front, _) = bytes.split_at(room);
        note(&self.notes.printed, b"", front)?;
        Err(io::Error::from(ErrorKind::StorageFull))
    }
}

impl<R: Files> Files for Desk<'_, R> {
    type File = Sheet<R::File>;

    type Dir = R::Dir;

    fn open_file(&self, how: &OpenOptions, path: &str) -> io::Result<Sheet<R::File>> {
        let writes = how.asks_write();
        let is_full = self.amiss.is_full(path, writes);
        let is_late = self.amiss.is_late(path, writes);
        match self.open_by(how, path) {
            Ok(file) => Ok(Sheet {
                file,
                is_full,
                is_late,
            }),
            Err(error) => Err(error),
        }
    }

    fn open_dir(&self, _path: &str) -> io::Result<R::Dir> {
        unsupported()
    }

    fn metadata(&self, path: &str) -> io::Result<Metadata> {
        self.files.metadata(path)
    }

    fn symlink_metadata(&self, path: &str) -> io::Result<Metadata> {
        self.files.symlink_metadata(path)
    }

    fn copy(&self, _from: &str, _to: &str) -> io::Result<u64> {
        unsupported()
    }

    fn rename(&self, from: &str, to: &str) -> io::Result<()> {
        self.files.rename(from, to)
    }

    fn remove_file(&self, path: &str) -> io::Result<()> {
        self.files.remove_file(path)
    }

    fn create_dir(&self, _path: &str) -> io::Result<()> {
        unsupported()
    }

    fn remove_dir(&self, _path: &str) -> io::Result<()> {
        unsupported()
    }

    fn remove_dir_all<B: Allocator>(&self, _alloc: B, _path: &str) -> io::Result<()> {
        unsupported()
    }

    fn read_link<B: Allocator>(&self, _alloc: B, _path: &str) -> io::Result<PathBuf<B>> {
        unsupported()
    }

    fn hard_link(&self, _original: &str, _link: &str) -> io::Result<()> {
        unsupported()
    }

    fn symlink(&self, _original: &str, _link: &str) -> io::Result<()> {
        unsupported()
    }

    fn pipe(&self) -> io::Result<(PipeReader, PipeWriter)> {
        unsupported()
    }

    fn lchown(&self, _path: &str, _uid: Option<u32>, _gid: Option<u32>) -> io::Result<()> {
        unsupported()
    }

    fn create_dir_with_mode(&self, _path: &str, _mode: u32) -> io::Result<()> {
        unsupported()
    }

    fn bind_unix(&self, _socket: BorrowedFd<'_>, _addr: &SocketAddr) -> io::Result<()> {
        unsupported()
    }

    // A link of the folder leads to another file there.
    fn canonicalize<B: Allocator>(&self, alloc: B, path: &str) -> io::Result<PathBuf<B>> {
        self.files.read_link(alloc, path)
    }

    fn set_permissions(&self, path: &str, perm: Permissions) -> io::Result<()> {
        self.files.set_permissions(path, perm)
    }

    fn chown(&self, path: &str, uid: Option<u32>, gid: Option<u32>) -> io::Result<()> {
        self.files.chown(path, uid, gid)
    }
}
