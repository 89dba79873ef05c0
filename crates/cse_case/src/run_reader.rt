//! The reader of runs.

ghost use Rattle.std.specs.Prelude.{◌≡◌, ◌≢◌, ◌+◌, ◌*◌, ◌≤◌, ◌^◌, ◌⊎◌, [], None, Some, Err, true, false, IfErr, IfSome, OnOk, length};
ghost use Rattle.cse_value.specs.Device.{IsAtEnd, FailsOnce, IsUnfailing};
ghost use Rattle.cse_case.specs.Reader.{HoldsLittle, Next, held_of};

use crate::buffer::Buffer;
use crate::error::DataError;
use crate::layout::Layout;
use crate::next::next_by_layout;
use crate::run::{Lines, Run};
use cse_dict::Dictionary;
use cse_value::Input;
use std::alloc::Global;
use std::marker::Model;

/// The most columns of a run whose room is kept.
const MOST_ROOM: usize = 65_536;

/// How much a reader holds: lines that are cut and not yet given, and bytes that aren't cut.
#[derive(Clone, Copy)]
pub struct Kept {
    pub lines: usize,
    pub bytes: usize,
}

/// Reads a data file run by run.
pub struct RunReader<'a> {
    alloc: Global,
    dictionary: &'a Dictionary,
    layout: Option<Layout>,
    run: Run,
    /// A run that was given back.
    room: Option<Box<Lines>>,
    /// What the next line is read into.
    read: Option<Box<Lines>>,
    buffer: Buffer,
    ended: bool,
    reads: u64,
    lines: u64,
    error: Option<DataError>,
}

impl<'a> Model for RunReader<'a> {
    ghost use Rattle.cse_case.specs.Reader.{ReaderText};

    ghost Value = { ReaderText };

    ghost use Rattle.cse_case.specs.Resting.{IsKept};

    ghost view = { λ r. record {
      dictionary = r.dictionary.now;
      run = r.run;
      uncut = r.buffer;
      ended = r.ended;
      reads = r.reads;
      lines = r.lines;
      error = r.error;
    } };

    ghost invariant = { λ r. IsKept r.dictionary.now r.layout r.run r.buffer r.ended r.reads r.lines };
}

impl<'a> Drop for RunReader<'a> {
    fn drop(self) {
        let RunReader {
            alloc: _alloc,
            dictionary: _dictionary,
            layout: _layout,
            run: _run,
            room: _room,
            read: _read,
            buffer: _buffer,
            ended: _ended,
            reads: _reads,
            lines: _lines,
            error: _error,
        } = self;
    }
}

impl<'a> RunReader<'a> {
    /// A reader under this dictionary, which has read nothing. It takes no memory.
    pub fn new(alloc: Global, dictionary: &'a Dictionary) -> RunReader<'a>
        ensures dictionary { result.dictionary ≡ dictionary.now }
        ensures held { held_of result ≡ [] }
        ensures ended { result.ended ≡ false }
        ensures reads { result.reads ≡ 0 }
        ensures lines { result.lines ≡ 0 }
        ensures error { result.error ≡ None }
    {
        RunReader {
            alloc,
            dictionary,
            layout: None,
            run: Run::new(alloc, 1),
            room: None,
            read: None,
            buffer: Buffer::new(alloc),
            ended: false,
            reads: 0,
            lines: 0,
            error: None,
        }
    }

    /// How many reads gave bytes, 2^40 at most.
    pub fn reads(&self) -> u64
        ensures value { result ≡ self.now.reads }
        ensures few { result ≤ 2 ^ 40 }
    {
        self.reads
    }

    /// How much is held: at most one line that is cut, and 65,536 bytes that aren't.
    pub fn kept(&self) -> Kept
        ensures lines { result.lines ≡ length self.now.run.lines }
        ensures bytes { result.bytes ≡ length self.now.uncut }
        ensures little { HoldsLittle self.now }
    {
        Kept {
            lines: self.run.len(),
            bytes: self.buffer.len(),
        }
    }

    /// Takes back the lines of a run that was given, with their columns: their memory, unless it is large, serves a
    /// later run. A caller who gives each run back before the next but one lets the reader read on in the memory
    /// that it has.
    pub fn take_back(&mut self, lines: Box<Lines>)
        ensures { self.new ≡ self.old }
    {
        if lines.columns.len() <= MOST_ROOM {
            self.room = Some(lines);
        }
    }

    /// The next run of the input, or that there is none. After an error the same error is answered.
    ///
    /// 70 comes first only where what was held and read gives no answer, so that more had to be read: the
    /// end wasn't read, no run can be given and no line is faulty. Then the read failed, or none was made
    /// since 2^40 reads had given bytes.
    pub fn next<R: Input>(&mut self, input: &mut R) -> Result<Option<Run>, DataError>
        requires { self.old.ended ≡ true → IsAtEnd (R.given input.old) }
        ensures next { self.old.error ≡ None → Next (R.given input.old) (R.given input.new) self.old self.new result }
        ensures ok { OnOk result (self.new.error ≡ None) }
        ensures err { IfErr result (λ error. self.new.error ≡ Some error) }
        ensures again { IfSome self.old.error (λ error. (result ≡ Err error) × (self.new ≡ self.old) × (input.new ≡ input.old)) }
        ensures end { self.new.ended ≡ true → IsAtEnd (R.given input.new) }
        ensures few_reads { self.new.reads ≤ 2 ^ 40 }
        ensures few { self.new.lines ≤ 2 ^ 40 * 65536 }
        ensures failed { self.old.error ≡ None
            → IfErr result (λ error. error.number ≡ 70 → FailsOnce (R.given input.old) (R.given input.new) ⊎ (self.new.reads ≡ 2 ^ 40)) }
        ensures works { OnOk result (IsUnfailing (R.given input.old) (R.given input.new)) }
        ensures sound { IfErr result (λ error. error.number ≢ 70 → IsUnfailing (R.given input.old) (R.given input.new)) }
    {
        if let Some(error) = self.error {
            return Err(error);
        }
        let answer = next_by_layout(
            self.alloc,
            self.dictionary,
            &mut self.layout,
            input,
            &mut self.run,
            &mut self.room,
            &mut self.read,
            &mut self.buffer,
            &mut self.ended,
            &mut self.reads,
            self.lines,
        );
        match answer {
            Ok(Some(run)) => {
                self.lines += run.len() as u64;
                Ok(Some(run))
            }
            Ok(None) => Ok(None),
            Err(error) => {
                self.run = Run::new(self.alloc, self.lines + 1);
                self.room = None;
                self.read = None;
                self.buffer = Buffer::new(self.alloc);
                self.error = Some(error);
                Err(error)
            }
        }
    }
}
