//! A runtime that passes on to another one what csbatch asks of it, and has the reads of two files told.

use crate::meter::Meter;
use crate::watched::WatchedPaths;
use crate::watched_file::{Counted, Watch};
use std::alloc::{Allocator, Global};
use std::env::FillError;
use std::fmt::Display;
use std::fs::{Metadata, OpenFile, OpenOptions, Permissions};
use std::io::{self, ErrorKind, PipeReader, PipeWriter};
use std::os::fd::BorrowedFd;
use std::os::unix::net::SocketAddr;
use std::path::PathBuf;
use std::rt::{Clock, Env, Files};

/// A runtime that passes on to another one what csbatch asks of it. A terminal is told how far the data file is read.
#[derive(Drop)]
pub struct Watched<'a, R, T> {
    pub rt: &'a R,
    pub meter: &'a Meter<R, T>,
    /// The paths of that file and of its dictionary. Where there are none, nothing is told.
    pub paths: Option<&'a WatchedPaths>,
}

/// What is not passed on, since csbatch doesn't ask it.
pub(crate) fn unsupported<T>() -> io::Result<T> {
    Err(io::Error::from(ErrorKind::Unsupported))
}

/// The bytes of a file, where that is known.
fn size_of<F: OpenFile>(file: &F) -> Option<u64> {
    match file.metadata() {
        Ok(metadata) if metadata.is_file() => Some(metadata.len()),
        _ => None,
    }
}

/// Which file is opened at a path to be read.
fn watch_of(paths: Option<&WatchedPaths>, path: &str) -> Watch {
    match paths {
        Some(paths) if paths.dictionary.as_str() == path => Watch::Dictionary,
        Some(paths) if paths.data.as_str() == path => Watch::Data,
        _ => Watch::Other,
    }
}

impl<'a, R: Files + Clock, T: Print> Watched<'a, R, T> {
    /// An open file, with what is told of its reads.
    fn counted(&self, how: &OpenOptions, path: &str, file: R::File) -> Counted<'a, R::File, R, T> {
        let watch = if how.asks_write() {
            Watch::Other
        } else {
            watch_of(self.paths, path)
        };
        let cases = if watch == Watch::Data {
            self.meter.begin(size_of(&file))
        } else {
            None
        };
        Counted {
            file,
            watch,
            meter: self.meter,
            cases,
        }
    }
}

impl<R: AllocGlobal, T> Alloc for Watched<'_, R, T> {
    type A = Global;

    fn alloc(&self) -> Global {
        self.rt.alloc()
    }
}

impl<R: Env, T> Env for Watched<'_, R, T> {
    fn arg(&self, i: usize, buf: &mut [u8]) -> Result<usize, FillError> {
        self.rt.arg(i, buf)
    }

    fn var(&self, _name: &str, _buf: &mut [u8]) -> Result<usize, FillError> {
        Err(FillError::NotPresent)
    }

    fn var_at(&self, _i: usize, _buf: &mut [u8]) -> Result<usize, FillError> {
        Err(FillError::NotPresent)
    }
}

// The commands print bytes alone.
impl<R: Print, T: Print> Print for Watched<'_, R, T> {
    fn print<D: Display + Drop>(&self, _value: D) -> io::Result<()> {
        unsupported()
    }

    fn println<D: Display + Drop>(&self, _value: D) -> io::Result<()> {
        unsupported()
    }

    fn write_all(&self, bytes: &[u8]) -> io::Result<()> {
        self.meter.clear();
        self.rt.write_all(bytes)
    }

    fn write_some(&self, bytes: &[u8]) -> io::Result<usize> {
        self.meter.clear();
        self.rt.write_some(bytes)
    }
}

impl<'a, R: Files + Clock, T: Print> Files for Watched<'a, R, T> {
    type File = Counted<'a, R::File, R, T>;

    type Dir = R::Dir;

    fn open_file(&self, how: &OpenOptions, path: &str) -> io::Result<Counted<'a, R::File, R, T>> {
        match self.rt.open_file(how, path) {
            Ok(file) => Ok(self.counted(how, path, file)),
            Err(error) => Err(error),
        }
    }

    fn open_dir(&self, _path: &str) -> io::Result<R::Dir> {
        unsupported()
    }

    fn metadata(&self, path: &str) -> io::Result<Metadata> {
        self.rt.metadata(path)
    }

    fn symlink_metadata(&self, path: &str) -> io::Result<Metadata> {
        self.rt.symlink_metadata(path)
    }

    fn copy(&self, _from: &str, _to: &str) -> io::Result<u64> {
        unsupported()
    }

    fn rename(&self, from: &str, to: &str) -> io::Result<()> {
        self.rt.rename(from, to)
    }

    fn remove_file(&self, path: &str) -> io::Result<()> {
        self.rt.remove_file(path)
    }

    fn create_dir(&self, _path: &str) -> io::Result<()> {
        unsupported()
    }

    fn remove_dir(&self, _path: &str) -> io::Result<()> {
        unsupported()
    }

    fn remove_dir_all<B: Allocator>(&self, _alloc: B, _path: &str) -> io::Result<()> {
        unsupported()
    }

    // Written out: to take these from the trait costs five times the proof.
    fn read_link<B: Allocator>(&self, _alloc: B, _path: &str) -> io::Result<PathBuf<B>> {
        unsupported()
    }

    fn hard_link(&self, _original: &str, _link: &str) -> io::Result<()> {
        unsupported()
    }

    fn symlink(&self, _original: &str, _link: &str) -> io::Result<()> {
        unsupported()
    }

    fn pipe(&self) -> io::Result<(PipeReader, PipeWriter)> {
        unsupported()
    }

    fn lchown(&self, _path: &str, _uid: Option<u32>, _gid: Option<u32>) -> io::Result<()> {
        unsupported()
    }

    fn create_dir_with_mode(&self, _path: &str, _mode: u32) -> io::Result<()> {
        unsupported()
    }

    fn bind_unix(&self, _socket: BorrowedFd<'_>, _addr: &SocketAddr) -> io::Result<()> {
        unsupported()
    }

    fn set_permissions(&self, _path: &str, _perm: Permissions) -> io::Result<()> {
        unsupported()
    }

    fn canonicalize<B: Allocator>(&self, alloc: B, path: &str) -> io::Result<PathBuf<B>> {
        self.rt.canonicalize(alloc, path)
    }

    fn chown(&self, path: &str, uid: Option<u32>, gid: Option<u32>) -> io::Result<()> {
        self.rt.chown(path, uid, gid)
    }
}
