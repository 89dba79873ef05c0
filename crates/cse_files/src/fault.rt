//! Why a file was not read, or not written.

ghost use Rattle.std.specs.Prelude.{◌≡◌, ◌≢◌};
ghost use Rattle.std.specs.declared.io.ErrorKind.TheVariants.{OutOfMemory};
ghost use Rattle.cse_files.specs.declared.fault.ReadFault.TheVariants as reads;
ghost use Rattle.cse_files.specs.declared.fault.WriteFault.TheVariants.{NotOpened, NotWritten, Memory};

use std::alloc::AllocError;
use std::io::ErrorKind;
use thiserror::Error;

/// Why a file was not read.
#[derive(Clone, Copy, Debug, PartialEq, Eq, Error)]
pub enum ReadFault {
    /// It can't be opened (72).
    #[error("a file can't be opened")]
    NotOpened,
    /// A read failed (70).
    #[error("a file can't be read")]
    NotRead,
    /// Want of memory (90).
    #[error("out of memory")]
    Memory,
}

impl ReadFault {
    /// The fault of a file that can't be opened.
    pub(crate) fn of_open(kind: ErrorKind) -> ReadFault
        ensures memory { kind ≡ OutOfMemory → result ≡ reads.Memory }
        ensures other { kind ≢ OutOfMemory → result ≡ reads.NotOpened }
    {
        match kind {
            ErrorKind::OutOfMemory => ReadFault::Memory,
            _ => ReadFault::NotOpened,
        }
    }
}

impl From<AllocError> for ReadFault {
    ghost from_gives = { λ _ fault. fault ≡ reads.Memory };

    fn from(_refused: AllocError) -> ReadFault {
        ReadFault::Memory
    }
}

/// Why a file was not written.
#[derive(Clone, Copy, Debug, PartialEq, Eq, Error)]
pub enum WriteFault {
    /// It can't be opened (72).
    #[error("a file can't be opened")]
    NotOpened,
    /// A write failed, or what was written can't be kept (71).
    #[error("a file can't be written")]
    NotWritten,
    /// Want of memory (90).
    #[error("out of memory")]
    Memory,
}

impl WriteFault {
    /// The fault of a file that can't be opened.
    pub(crate) fn of_open(kind: ErrorKind) -> WriteFault
        ensures memory { kind ≡ OutOfMemory → result ≡ Memory }
        ensures other { kind ≢ OutOfMemory → result ≡ NotOpened }
    {
        match kind {
            ErrorKind::OutOfMemory => WriteFault::Memory,
            _ => WriteFault::NotOpened,
        }
    }

    /// The fault of a write.
    pub(crate) fn of_write(kind: ErrorKind) -> WriteFault
        ensures memory { kind ≡ OutOfMemory → result ≡ Memory }
        ensures other { kind ≢ OutOfMemory → result ≡ NotWritten }
    {
        match kind {
            ErrorKind::OutOfMemory => WriteFault::Memory,
            _ => WriteFault::NotWritten,
        }
    }
}

impl From<AllocError> for WriteFault {
    ghost from_gives = { λ _ fault. fault ≡ Memory };

    fn from(_refused: AllocError) -> WriteFault {
        WriteFault::Memory
    }
}
