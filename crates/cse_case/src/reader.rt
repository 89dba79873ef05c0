//! The reader of cases.

ghost use Rattle.std.specs.Prelude.{ℕ, Bool, ◌≡◌, true};
ghost use Rattle.cse_value.specs.Device.{IsAtEnd, FailsOnce, IsUnfailing};
ghost use Rattle.cse_case.specs.AtEnd.{ended-prop};

use crate::case::Case;
use crate::stream::CaseStream;
use crate::{DataError, Kept};
use cse_dict::Dictionary;
use cse_value::Input;
use std::alloc::Global;

/// Reads an input case by case. Its faults are those of `DataError`; after one the same is answered.
pub struct CaseReader<'a, R: Input> {
    /// What is read.
    pub input: &'a mut R,
    /// What was read and not yet given.
    pub stream: CaseStream<'a>,
    ghost end: { stream.ended ≡ true → IsAtEnd (R.given input.now) } by { ended-prop stream.ended (R.given input.now) },
}

// Written out, so that a crate that owns a reader calls this drop and does not prove one for each part.
impl<'a, R: Input> Drop for CaseReader<'a, R> {
    fn drop(self) {
        let CaseReader {
            input: _input,
            stream: _stream,
        } = self;
    }
}

impl<'a, R: Input> CaseReader<'a, R> {
    ghost use Rattle.std.specs.Prelude.{[], ◌≡◌, ◌≢◌, ◌≤◌, ◌*◌, ◌^◌, ◌⊎◌, None, Some, Err, true, false, IfErr, IfSome, OnOk, length};
    ghost use Rattle.cse_case.specs.Reader.{HoldsLittle, held_of};
    ghost use Rattle.cse_case.specs.Reading.{NextCase};

    /// A reader of the input, which has read nothing. It takes no memory.
    pub fn new(alloc: Global, dictionary: &'a Dictionary, input: &'a mut R) -> CaseReader<'a, R>
        ensures same_reference { result.input.ghost_name ≡ input.entry.ghost_name }
        ensures input { result.input.now ≡ input.old }
        ensures dictionary { result.stream.dictionary ≡ dictionary.now }
        ensures held { held_of result.stream ≡ [] }
        ensures ended { result.stream.ended ≡ false }
        ensures reads { result.stream.reads ≡ 0 }
        ensures lines { result.stream.lines ≡ 0 }
        ensures error { result.stream.error ≡ None }
    {
        let stream = CaseStream::new(alloc, dictionary);
        CaseReader { input, stream }
    }

    /// The next case, or that there is none. A run without a line of a known record is given too; `is_case`
    /// tells.
    ///
    /// 70 comes first only where what was held and read gives no answer, so that more had to be read: the
    /// end wasn't read, no run can be given and no line is faulty. Then the read failed, or none was made
    /// since 2^40 reads had given bytes.
    #[inline(always)]
    pub fn next(&mut self) -> Result<Option<Case<'a>>, DataError>
        ensures same_reference { self.new.input.ghost_name ≡ self.old.input.ghost_name }
        ensures next { self.old.stream.error
            ≡ None → NextCase (R.given self.old.input.now) (R.given self.new.input.now) self.old.stream self.new.stream result }
        ensures ok { OnOk result (self.new.stream.error ≡ None) }
        ensures err { IfErr result (λ error. self.new.stream.error ≡ Some error) }
        ensures again { IfSome self.old.stream.error (λ error. (result ≡ Err error) × (self.new.stream ≡ self.old.stream) × (self.new.input.now
            ≡ self.old.input.now)) }
        ensures failed { self.old.stream.error ≡ None
            → IfErr result (λ error. error.number ≡ 70
            → FailsOnce (R.given self.old.input.now) (R.given self.new.input.now) ⊎ (self.new.stream.reads ≡ 2 ^ 40)) }
        ensures few_reads { self.new.stream.reads ≤ 2 ^ 40 }
        ensures few { self.new.stream.lines ≤ 2 ^ 40 * 65536 }
        ensures works { OnOk result (IsUnfailing (R.given self.old.input.now) (R.given self.new.input.now)) }
        ensures sound { IfErr result (λ error. error.number ≢ 70 → IsUnfailing (R.given self.old.input.now) (R.given self.new.input.now)) }
    {
        self.stream.next(self.input)
    }

    /// Takes back a case that was given: its memory, unless it is large, serves a later one. A caller who
    /// gives each case back before the next but one lets the reader read on in the memory that it has.
    pub fn take_back(&mut self, case: Case<'_>)
        ensures same_reference { self.new.input.ghost_name ≡ self.old.input.ghost_name }
        ensures input { self.new.input.now ≡ self.old.input.now }
        ensures stream { self.new.stream ≡ self.old.stream }
    {
        self.stream.take_back(case);
    }

    /// How many reads gave bytes, 2^40 at most. It takes no memory.
    pub fn reads(&self) -> u64
        ensures value { result ≡ self.now.stream.reads }
        ensures few { result ≤ 2 ^ 40 }
    {
        self.stream.reads()
    }

    /// How much is held: at most one line that is cut, and 65,536 bytes that aren't. It takes no memory.
    pub fn kept(&self) -> Kept
        ensures lines { result.lines ≡ length self.now.stream.run.lines }
        ensures bytes { result.bytes ≡ length self.now.stream.uncut }
        ensures little { HoldsLittle self.now.stream }
    {
        self.stream.kept()
    }

    /// Gives the input back. What the input gave is known to a caller who closes the reader, and not to one
    /// who drops it.
    pub fn close(self) -> &'a mut R
        ensures same_reference { result.ghost_name ≡ self.entry.input.ghost_name }
        ensures input { result.now ≡ self.entry.input.now }
    {
        let CaseReader { input, stream: _ } = self;
        input
    }
}
