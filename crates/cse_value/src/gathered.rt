//! A device that gathers bytes in memory.

ghost use Rattle.std.specs.Prelude.{◌≡◌, false, []};

use crate::{Failed, Output};
use std::alloc::Global;

/// The bytes that it took. It fails where memory lacks.
#[derive(Drop)]
pub struct Gathered {
    bytes: Vec<u8>,
    failed: bool,
}

impl Gathered {
    /// No bytes.
    pub fn new(alloc: Global) -> Gathered
        ensures none { result.bytes.items ≡ [] }
        ensures sound { result.failed ≡ false }
    {
        Gathered {
            bytes: Vec::new(alloc),
            failed: false,
        }
    }

    /// Whether memory lacked.
    pub fn has_failed(&self) -> bool
        ensures { result ≡ self.now.failed }
    {
        self.failed
    }

    /// The bytes that it took.
    pub fn bytes(&self) -> &[u8]
        ensures { result.now ≡ self.now.bytes.items }
    {
        &self.bytes
    }

    /// The bytes that it took.
    pub fn into_bytes(self) -> Vec<u8>
        ensures { result.items ≡ self.bytes.items }
    {
        self.bytes
    }
}

impl Output for Gathered {
    ghost taken = { λ s. s.bytes.items };

    ghost has_failed = { λ s. s.failed };

    fn write(&mut self, bytes: &[u8]) -> Result<usize, Failed> {
        if self.failed || self.bytes.extend_from_slice(bytes).is_err() {
            self.failed = true;
            return Err(Failed);
        }
        Ok(bytes.len())
    }
}
