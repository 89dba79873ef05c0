//! Files that C has opened, by their descriptors.

ghost use Rattle.std.specs.Prelude.{◌≡◌, ◌≤◌, ◌-◌, min, length, IfOk};

use io::{read_full, write_all};
use std::io::{Error, ErrorKind, Read, Result, Write};

/// The first bytes of a descriptor, so many. One that ends before them, or fails, is a reader that failed.
#[derive(Drop)]
pub(crate) struct FromDescriptor {
    descriptor: i32,
    left: u64,
}

impl FromDescriptor {
    /// So many bytes of the descriptor, from where it stands.
    pub(crate) fn new(descriptor: i32, length: u64) -> FromDescriptor {
        FromDescriptor {
            descriptor,
            left: length,
        }
    }

    /// Reads the next bytes, as many as are left and fit.
    fn read_next(&mut self, buf: &mut [u8]) -> Result<usize>
        ensures bound { IfOk result (λ n. n ≤ length buf.new) }
        // A read that gives fewer has failed, and is never the end.
        ensures all { IfOk result (λ n. n ≡ min self.old.left (length buf.new)) }
        ensures left { IfOk result (λ n. self.new.left ≡ self.old.left - n) }
    {
        let most = if self.left < buf.len() as u64 {
            self.left as usize
        } else {
            buf.len()
        };
        let given = read_full(self.descriptor, &mut buf[..most]);
        if given < most {
            return Err(Error::from(ErrorKind::UnexpectedEof));
        }
        self.left -= given as u64;
        Ok(given)
    }
}

impl Read for FromDescriptor {
    fn read(&mut self, buf: &mut [u8]) -> Result<usize> {
        self.read_next(buf)
    }
}

/// A descriptor that takes bytes. Each write takes all of them, or fails.
#[derive(Drop)]
pub(crate) struct ToDescriptor {
    descriptor: i32,
}

impl ToDescriptor {
    /// The descriptor, from where it stands.
    pub(crate) fn new(descriptor: i32) -> ToDescriptor {
        ToDescriptor { descriptor }
    }
}

impl Write for ToDescriptor {
    fn write(&mut self, bytes: &[u8]) -> Result<usize> {
        if write_all(self.descriptor, bytes) {
            Ok(bytes.len())
        } else {
            Err(Error::from(ErrorKind::Other))
        }
    }

    fn flush(&mut self) -> Result<()> {
        Ok(())
    }
}
