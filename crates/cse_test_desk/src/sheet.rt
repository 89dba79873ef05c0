//! An open file of a desk, for which there may be no room.

use std::fs::{Metadata, OpenFile, Permissions};
use std::io::{self, ErrorKind, Read, Seek, SeekFrom, Write};

/// An open file.
#[derive(Drop)]
pub struct Sheet<F> {
    pub file: F,
    /// Whether nothing that is written finds room.
    pub is_full: bool,
    /// Whether the disk has no room for what it took.
    pub is_late: bool,
}

/// What a full disk answers.
fn full() -> io::Error {
    io::Error::from(ErrorKind::StorageFull)
}

impl<F: Read> Read for Sheet<F> {
    fn read(&mut self, buf: &mut [u8]) -> io::Result<usize> {
        self.file.read(buf)
    }
}

impl<F: Write> Write for Sheet<F> {
    fn write(&mut self, buf: &[u8]) -> io::Result<usize> {
        if self.is_full {
            return Err(full());
        }
        self.file.write(buf)
    }

    fn flush(&mut self) -> io::Result<()> {
        self.file.flush()
    }
}

impl<F: Seek> Seek for Sheet<F> {
    fn seek(&mut self, to: SeekFrom) -> io::Result<u64> {
        self.file.seek(to)
    }
}

impl<F: OpenFile> OpenFile for Sheet<F> {
    fn metadata(&self) -> io::Result<Metadata> {
        self.file.metadata()
    }

    fn set_len(&self, size: u64) -> io::Result<()> {
        self.file.set_len(size)
    }

    fn sync_all(&self) -> io::Result<()> {
        if self.is_late {
            return Err(full());
        }
        self.file.sync_all()
    }

    fn sync_data(&self) -> io::Result<()> {
        self.file.sync_data()
    }

    fn set_permissions(&self, perm: Permissions) -> io::Result<()> {
        self.file.set_permissions(perm)
    }

    fn try_clone(&self) -> io::Result<Sheet<F>> {
        match self.file.try_clone() {
            Ok(file) => Ok(Sheet {
                file,
                is_full: self.is_full,
                is_late: self.is_late,
            }),
            Err(error) => Err(error),
        }
    }
}
