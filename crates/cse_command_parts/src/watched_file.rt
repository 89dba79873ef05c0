//! An open file, of which may be told how far it is read.

ghost use Rattle.std.specs.Prelude.{◌≡◌};

use crate::counted_cases::Cases;
use crate::meter::Meter;
use crate::watched_runtime::unsupported;
use std::fs::{Metadata, OpenFile, Permissions};
use std::io::{self, Read, Seek, SeekFrom, Write};
use std::rt::Clock;

/// Which file it is.
#[derive(Clone, Copy)]
pub enum Watch {
    /// The dictionary, which tells the id columns.
    Dictionary,
    /// The data file.
    Data,
    /// Another one. Nothing is told of it.
    Other,
}

/// An open file, and what is told of the bytes that are read of it.
#[derive(Drop)]
pub struct Counted<'a, F, R, T> {
    pub file: F,
    pub watch: Watch,
    pub meter: &'a Meter<R, T>,
    /// The cases of the data file, where the id columns are known.
    pub cases: Option<Cases>,
}

impl<F: Read, R: Clock, T: Print> Read for Counted<'_, F, R, T> {
    ghost remaining = { λ s. F.remaining s.file };

    fn read(&mut self, buf: &mut [u8]) -> io::Result<usize> {
        match self.file.read(buf) {
            Ok(len) => {
                self.count(buf, len);
                Ok(len)
            }
            Err(error) => Err(error),
        }
    }
}

impl<F, R: Clock, T: Print> Counted<'_, F, R, T> {
    /// How many cases begin in bytes of the data file, where that can be told. Where memory lacked, it can't be told any more.
    fn begun_in(&mut self, bytes: &[u8]) -> Option<u64>
        ensures { self.new.file ≡ self.old.file }
    {
        let begun = match &mut self.cases {
            Some(cases) => cases.see(bytes).ok(),
            None => None,
        };
        if begun.is_none() {
            self.cases = None;
        }
        begun
    }

    /// Counts so many bytes from the front, which were read.
    fn count(&mut self, bytes: &[u8], len: usize)
        ensures { self.new.file ≡ self.old.file }
    {
        let Some(read) = bytes.get(..len) else {
            return;
        };
        match self.watch {
            Watch::Dictionary => self.meter.hold(read),
            Watch::Data => {
                let begun = self.begun_in(read);
                self.meter.add(read.len(), begun);
            }
            Watch::Other => {}
        }
    }
}

impl<F: Write, R, T> Write for Counted<'_, F, R, T> {
    ghost contents = { λ s. F.contents s.file };

    fn write(&mut self, buf: &[u8]) -> io::Result<usize> {
        self.file.write(buf)
    }

    fn flush(&mut self) -> io::Result<()> {
        self.file.flush()
    }
}

impl<F, R, T> Seek for Counted<'_, F, R, T> {
    fn seek(&mut self, _to: SeekFrom) -> io::Result<u64> {
        unsupported()
    }
}

impl<F: OpenFile, R, T> OpenFile for Counted<'_, F, R, T> {
    fn metadata(&self) -> io::Result<Metadata> {
        self.file.metadata()
    }

    fn set_len(&self, _size: u64) -> io::Result<()> {
        unsupported()
    }

    fn sync_all(&self) -> io::Result<()> {
        self.file.sync_all()
    }

    fn sync_data(&self) -> io::Result<()> {
        unsupported()
    }

    fn set_permissions(&self, perm: Permissions) -> io::Result<()> {
        self.file.set_permissions(perm)
    }

    fn try_clone(&self) -> io::Result<Self> {
        match self.file.try_clone() {
            Ok(file) => Ok(Counted {
                file,
                watch: Watch::Other,
                meter: self.meter,
                cases: None,
            }),
            Err(error) => Err(error),
        }
    }
}
