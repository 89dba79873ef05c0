//! Devices that fail.

use std::alloc::Global;
use std::io;

/// A writer that takes at most so many bytes in a call, and fails at a call or takes none.
#[derive(Drop)]
pub(crate) struct Slow {
    taken: Vec<u8>,
    at_most: usize,
    calls: u64,
    fails_at: u64,
    takes_none_at: u64,
}

impl Slow {
    /// A writer that takes at most `at_most` bytes in a call, fails at call `fails_at` and takes none at call
    /// `takes_none_at`. Calls are numbered from 1; at 0 it does neither.
    pub(crate) fn new(alloc: Global, at_most: usize, fails_at: u64, takes_none_at: u64) -> Slow {
        Slow {
            taken: Vec::new(alloc),
            at_most,
            calls: 0,
            fails_at,
            takes_none_at,
        }
    }

    /// The bytes that it took.
    pub(crate) fn taken(&self) -> &[u8] {
        &self.taken
    }
}

impl io::Write for Slow {
    fn write(&mut self, buf: &[u8]) -> io::Result<usize> {
        self.calls = self.calls.saturating_add(1);
        if self.calls == self.fails_at {
            return Err(io::Error::from(io::ErrorKind::TimedOut));
        }
        if self.calls == self.takes_none_at {
            return Ok(0);
        }
        let n = buf.len().min(self.at_most);
        self.taken.extend_from_slice(&buf[..n])?;
        Ok(n)
    }

    fn flush(&mut self) -> io::Result<()> {
        Ok(())
    }
}
