//! How much was read of a data file, and what a terminal is told of it.

use crate::counted_cases::Cases;
use cse_dict::Dictionary;
use std::alloc::Global;
use std::cell::Cell;
use std::io::{self, Write};
use std::rt::Clock;

/// The fewest milliseconds between two lines.
const BETWEEN: u64 = 250;

/// What a terminal does away with its line by, and with what stands behind.
const CLEAR: &[u8] = b"\r\x1b[K";

const REST: &[u8] = b"\x1b[K";

/// How much was read of a data file.
#[derive(Clone, Copy)]
struct Progress {
    /// The bytes that were read, and those of the file, where that is known.
    bytes: u64,
    size: Option<u64>,
    /// The cases that began in them, where that is known.
    cases: Option<u64>,
    /// The milliseconds at which the file was opened, and those at which the last line was told.
    began: u64,
    told: u64,
    /// Whether a line stands on the terminal.
    stands: bool,
}

/// How much was read of a data file, and the terminal that is told of it.
#[derive(Drop)]
pub struct Meter<R, T> {
    alloc: Global,
    clock: R,
    terminal: T,
    /// The text of the dictionary, as far as it was read; none where memory lacked, or once its id columns are known.
    dictionary: Cell<Option<Vec<u8>>>,
    progress: Cell<Progress>,
}

/// How many of a hundred a part of a whole is.
fn percent(part: u64, whole: u64) -> u64 {
    match part.saturating_mul(100).checked_div(whole) {
        Some(percent) => percent,
        None => 100,
    }
}

/// Tells a terminal how much was read: `12345 of 67890 bytes, 18 %`.
fn tell_bytes<T: Print>(terminal: &T, progress: Progress) -> io::Result<()> {
    let bytes = progress.bytes;
    match progress.size {
        Some(size) => {
            let part = percent(bytes, size);
            print!(terminal; "\r{bytes} of {size} bytes, {part} %")
        }
        None => print!(terminal; "\r{bytes} bytes"),
    }
}

/// Tells it how many cases began until these milliseconds, where that is known: `, 450 cases, 1200 a second`.
fn tell_cases<T: Print>(terminal: &T, progress: Progress, now: u64) -> io::Result<()> {
    match progress.cases {
        Some(cases) => {
            let rate = percent(cases.saturating_mul(10), now.saturating_sub(progress.began));
            print!(terminal; ", {cases} cases, {rate} a second")
        }
        None => Ok(()),
    }
}

/// Tells a terminal how far a file is read at these milliseconds, in place of the line that stands there.
fn tell<T: Print>(terminal: &T, progress: Progress, now: u64) -> io::Result<()> {
    tell_bytes(terminal, progress)?;
    tell_cases(terminal, progress, now)?;
    terminal.write_all(REST)
}

/// Nothing was read of a file that was opened at these milliseconds.
fn nothing_read(began: u64, size: Option<u64>) -> Progress {
    Progress {
        bytes: 0,
        size,
        cases: Some(0),
        began,
        told: began,
        stands: false,
    }
}

impl<R: Clock, T: Print> Meter<R, T> {
    /// No file was opened so far.
    pub fn new(alloc: Global, clock: R, terminal: T) -> Meter<R, T> {
        Meter {
            alloc,
            clock,
            terminal,
            dictionary: Cell::new(Some(Vec::new(alloc))),
            progress: Cell::new(nothing_read(0, None)),
        }
    }

    /// The milliseconds of the clock; 0 where it can't be read.
    fn now(&self) -> u64 {
        match self.clock.monotonic() {
            Ok(now) => now
                .as_secs()
                .saturating_mul(1000)
                .saturating_add(u64::from(now.subsec_millis())),
            Err(_) => 0,
        }
    }

    /// The data file was opened, which has this size. Answers what counts its cases, where a dictionary was read.
    pub fn begin(&self, size: Option<u64>) -> Option<Cases> {
        self.progress.set(nothing_read(self.now(), size));
        let text = self.dictionary.replace(None)?;
        let dictionary = Dictionary::read(self.alloc, &text).ok()?;
        Cases::new(self.alloc, &dictionary).ok()
    }

    /// Counts so many bytes that were read, in which so many cases began, where that is known. Tells how far the file is read
    /// where that was not told for a while.
    #[inline(never)]
    pub fn add(&self, bytes: usize, begun: Option<u64>) {
        let mut progress = self.progress.get();
        progress.bytes = progress.bytes.saturating_add(bytes as u64);
        progress.cases = match (progress.cases, begun) {
            (Some(cases), Some(begun)) => Some(cases.saturating_add(begun)),
            _ => None,
        };
        let now = self.now();
        if now.saturating_sub(progress.told) >= BETWEEN {
            progress.told = now;
            progress.stands = true;
            let _ = tell(&self.terminal, progress, now);
        }
        self.progress.set(progress);
    }
}

impl<R, T> Meter<R, T> {
    /// Holds bytes of the dictionary, which were read.
    #[inline(never)]
    pub fn hold(&self, bytes: &[u8]) {
        if let Some(mut text) = self.dictionary.replace(None) {
            if text.extend_from_slice(bytes).is_ok() {
                self.dictionary.set(Some(text));
            }
        }
    }
}

impl<R, T: Print> Meter<R, T> {
    /// Does away with the line that stands on the terminal, if one does.
    pub fn clear(&self) {
        let mut progress = self.progress.get();
        if progress.stands {
            progress.stands = false;
            self.progress.set(progress);
            let _ = self.terminal.write_all(CLEAR);
        }
    }
}

/// The terminal, as a writer. The line that stands there goes before anything else is told.
#[derive(Drop)]
pub struct Told<'a, R, T> {
    pub meter: &'a Meter<R, T>,
}

impl<R, T: Print> Write for Told<'_, R, T> {
    fn write(&mut self, buf: &[u8]) -> io::Result<usize> {
        self.meter.clear();
        self.meter.terminal.write_some(buf)
    }

    fn flush(&mut self) -> io::Result<()> {
        Ok(())
    }
}
