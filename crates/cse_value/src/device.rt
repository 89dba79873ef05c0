//! Devices: what gives and takes bytes, and those of std's readers and writers.
//!
//! An input tells what it gave, and an output what it took: the past, which is known of each device, of a file as
//! of memory. A call answers `Err` exactly where the device has failed, and a failed one fails for good.

ghost use Rattle.std.specs.Prelude.{◌≡◌, ◌≤◌, ◌<◌, ◌++◌, ℕ, List, [], Bool, false, is_err, IfOk, OnOk, Some, codes, length};
ghost use Rattle.std.specs.Io.KnownBytes.{ReadConsumes, WriteAppends};
ghost use Rattle.cse_value.specs.Device.{Given, ReadGives, CountsFailure, WriteTakes};
ghost use Rattle.cse_value.specs.Sound.{are_given, counts_failures, unfailed-prop};
ghost use Rattle.cse_value.specs.Writing.{WritesAll, FailsAtErr};

use crate::{History, Record};
use std::error::Error;
use std::{fmt, io};

/// The device has failed, and fails from then on.
#[derive(Clone, Copy, Debug, PartialEq, Eq)]
pub struct Failed;

impl fmt::Display for Failed {
    ghost output = { λ _. Some (codes "the device has failed") };

    fn fmt<W: fmt::Write>(&self, f: &mut fmt::Formatter<W>) -> fmt::Result {
        write!(f, "the device has failed")
    }
}

impl Error for Failed {}

/// What gives bytes.
pub trait Input {
    // What the reads gave so far, whether the last was at the end, and how many failed.
    ghost given: { Self → Given };

    /// Reads at most as many bytes as `buf` has; none, if it has room, only at the end.
    fn read(&mut self, buf: &mut [u8]) -> Result<usize, Failed>
        ensures bound { IfOk result (λ n. n ≤ length buf.new) }
        ensures bytes { ReadGives (given self.old) (given self.new) result buf.new }
        ensures counted { CountsFailure (given self.old) (given self.new) result }
        ensures for_good { OnOk result ((given self.old).failures ≡ 0) };
}

/// What takes bytes.
pub trait Output {
    // The bytes that the writes took so far.
    ghost taken: { Self → List ℕ };

    // Whether the device has failed.
    ghost has_failed: { Self → Bool };

    /// Takes a front of the bytes: one at least, if there is one.
    fn write(&mut self, bytes: &[u8]) -> Result<usize, Failed>
        ensures bound { IfOk result (λ n. n ≤ length bytes.now) }
        ensures some { IfOk result (λ n. 0 < length bytes.now → 0 < n) }
        ensures bytes { WriteTakes (taken self.old) (taken self.new) result bytes.now }
        ensures failed { has_failed self.new ≡ is_err result }
        ensures for_good { OnOk result (has_failed self.old ≡ false) };
}

/// The device of a reader of std. Each `Err` of the reader is a failure, an interrupted read too.
#[derive(Drop)]
pub struct Reads<R> {
    reader: R,
    failed: bool,
    history: History,
    ghost unfailed: { counts_failures failed history.failures } by { unfailed-prop failed history.failures },
}

impl<R: io::Read> Reads<R> {
    /// The device of the reader, which has given nothing yet.
    pub fn new(reader: R) -> Reads<R>
        ensures { ⟦<Reads<R> as Input>⟧.given result ≡ are_given [] false 0 }
    {
        Reads {
            reader,
            failed: false,
            history: History::new(),
        }
    }

    /// A read of the reader, which is asked as long as it has not failed. What it gave is noted, and nothing else.
    fn read_noted(&mut self, buf: &mut [u8]) -> Result<usize, Failed>
        ensures bound { IfOk result (λ n. n ≤ length buf.new) }
        ensures noted { ReadGives (⟦<Reads<R> as Input>⟧.given self.old) (⟦<Reads<R> as Input>⟧.given self.new) result buf.new }
        ensures read { ReadConsumes (R.remaining self.old.reader) (R.remaining self.new.reader) result buf.new }
        ensures counted { CountsFailure (⟦<Reads<R> as Input>⟧.given self.old) (⟦<Reads<R> as Input>⟧.given self.new) result }
        ensures for_good { OnOk result (self.old.history.failures ≡ 0) }
    {
        if self.failed {
            self.history.note_failure();
            return Err(Failed);
        }
        match self.reader.read(buf) {
            Ok(count) => {
                self.history.note(&buf[..count]);
                Ok(count)
            }
            Err(_) => {
                self.failed = true;
                self.history.note_failure();
                Err(Failed)
            }
        }
    }
}

impl<R: io::Read> Input for Reads<R> {
    ghost given = { λ s. are_given s.history.bytes s.history.ended s.history.failures };

    fn read(&mut self, buf: &mut [u8]) -> Result<usize, Failed> {
        self.read_noted(buf)
    }
}

/// The device of a writer of std. Each `Err` of the writer is a failure, and so is a write of some
/// bytes that takes none.
#[derive(Drop)]
pub struct Writes<W> {
    writer: W,
    failed: bool,
    taken_so_far: Record,
}

impl<W: io::Write> Writes<W> {
    /// The device of the writer, which has taken nothing yet.
    pub fn new(writer: W) -> Writes<W>
        ensures bytes { ⟦<Writes<W> as Output>⟧.taken result ≡ [] }
        ensures sound { ⟦<Writes<W> as Output>⟧.has_failed result ≡ false }
    {
        Writes {
            writer,
            failed: false,
            taken_so_far: Record::new(),
        }
    }

    /// The writer.
    pub fn into_inner(self) -> W {
        let Writes { writer, .. } = self;
        writer
    }

    /// A write of the writer, which is asked as long as it has not failed. What it took is noted, and nothing else.
    fn write_noted(&mut self, bytes: &[u8]) -> Result<usize, Failed>
        ensures bound { IfOk result (λ n. n ≤ length bytes.now) }
        ensures some { IfOk result (λ n. 0 < length bytes.now → 0 < n) }
        ensures noted { WriteTakes self.old.taken_so_far.bytes self.new.taken_so_far.bytes result bytes.now }
        ensures written { WriteAppends (W.contents self.old.writer) (W.contents self.new.writer) result bytes.now }
        ensures failed { self.new.failed ≡ is_err result }
        ensures for_good { OnOk result (self.old.failed ≡ false) }
    {
        if self.failed {
            return Err(Failed);
        }
        match self.writer.write(bytes) {
            Ok(0) if !bytes.is_empty() => {
                self.failed = true;
                Err(Failed)
            }
            Ok(count) => {
                self.taken_so_far.note(&bytes[..count]);
                Ok(count)
            }
            Err(_) => {
                self.failed = true;
                Err(Failed)
            }
        }
    }
}

impl<W: io::Write> Output for Writes<W> {
    ghost taken = { λ s. s.taken_so_far.bytes };

    ghost has_failed = { λ s. s.failed };

    fn write(&mut self, bytes: &[u8]) -> Result<usize, Failed> {
        self.write_noted(bytes)
    }
}

/// Writes all of the bytes, or a front of them where the device fails.
pub fn write_all<W: Output>(out: &mut W, bytes: &[u8]) -> Result<(), Failed>
    ensures bytes { WritesAll result (W.taken out.old) (W.taken out.new) bytes.now }
    ensures failed { FailsAtErr result (W.has_failed out.old) (W.has_failed out.new) }
{
    let mut at = 0;
    while at < bytes.len() {
        at += out.write(&bytes[at..])?;
    }
    Ok(())
}
