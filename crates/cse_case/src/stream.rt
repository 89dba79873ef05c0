//! A stream of cases over an input that each call is handed.

ghost use Rattle.std.specs.Prelude.{◌≡◌, ◌≢◌, ◌+◌, ◌*◌, ◌^◌, ◌≤◌, ◌⊎◌, [], None, Some, Err, true, false, IfErr, IfOk, IfSome, OnOk, length};
ghost use Rattle.cse_value.specs.Device.{IsAtEnd, FailsOnce, IsUnfailing};
ghost use Rattle.cse_case.specs.Reader.{held_of, HoldsLittle};
ghost use Rattle.cse_case.specs.Reading.{NextCase};

use crate::case::Case;
use crate::source::Source;
use crate::{DataError, Kept, RunReader};
use cse_dict::Dictionary;
use cse_value::Input;
use std::alloc::Global;
use std::marker::Model;

/// Reads a data file case by case. It answers after an error the same error.
pub struct CaseStream<'a> {
    alloc: Global,
    source: Source<'a>,
    runs: RunReader<'a>,
    error: Option<DataError>,
}

impl<'a> Model for CaseStream<'a> {
    ghost use Rattle.cse_case.specs.Reader.{ReaderText};
    ghost use Rattle.cse_case.specs.Streaming.{IsSound};

    ghost Value = { ReaderText };

    ghost view = { λ s. record s.runs { error = s.error } };

    ghost invariant = { λ s. IsSound s.runs s.source s.error };
}

// Written out, so that a crate that owns a stream calls this drop and does not prove one for each part.
impl<'a> Drop for CaseStream<'a> {
    fn drop(self) {
        let CaseStream {
            alloc: _alloc,
            source: _source,
            runs: _runs,
            error: _error,
        } = self;
    }
}

/// Want of memory.
const WANT_OF_MEMORY: DataError = DataError {
    number: cse_fault_numbers::WANT_OF_MEMORY,
    line: 0,
};

impl<'a> CaseStream<'a> {
    /// A stream under this dictionary, which has read nothing. It takes no memory.
    pub fn new(alloc: Global, dictionary: &'a Dictionary) -> CaseStream<'a>
        ensures dictionary { result.dictionary ≡ dictionary.now }
        ensures held { held_of result ≡ [] }
        ensures ended { result.ended ≡ false }
        ensures reads { result.reads ≡ 0 }
        ensures lines { result.lines ≡ 0 }
        ensures error { result.error ≡ None }
    {
        CaseStream {
            alloc,
            source: Source::new(alloc, dictionary),
            runs: RunReader::new(alloc, dictionary),
            error: None,
        }
    }

    /// How many reads gave bytes, 2^40 at most.
    pub fn reads(&self) -> u64
        ensures value { result ≡ self.now.reads }
        ensures few { result ≤ 2 ^ 40 }
    {
        self.runs.reads()
    }

    /// How much is held: at most one line that is cut, and 65,536 bytes that aren't.
    pub fn kept(&self) -> Kept
        ensures lines { result.lines ≡ length self.now.run.lines }
        ensures bytes { result.bytes ≡ length self.now.uncut }
        ensures little { HoldsLittle self.now }
    {
        self.runs.kept()
    }

    /// Takes back a case that was given: its memory, unless it is large, serves a later one. A caller who
    /// gives each case back before the next but one lets the stream read on in the memory that it has.
    pub fn take_back(&mut self, case: Case<'_>)
        ensures { self.new ≡ self.old }
    {
        let (table, lines) = case.into_room();
        self.source.take_back(table);
        self.runs.take_back(lines);
    }

    /// The next case of the input, or that there is none. After an error the same error is answered.
    ///
    /// 70 comes first only where what was held and read gives no answer, so that more had to be read: the
    /// end wasn't read, no run can be given and no line is faulty. Then the read failed, or none was made
    /// since 2^40 reads had given bytes.
    #[inline(always)]
    pub fn next<R: Input>(&mut self, input: &mut R) -> Result<Option<Case<'a>>, DataError>
        requires { self.old.ended ≡ true → IsAtEnd (R.given input.old) }
        ensures next { self.old.error ≡ None → NextCase (R.given input.old) (R.given input.new) self.old self.new result }
        ensures ok { OnOk result (self.new.error ≡ None) }
        ensures err { IfErr result (λ error. self.new.error ≡ Some error) }
        ensures again { IfSome self.old.error (λ error. (result ≡ Err error) × (self.new ≡ self.old) × (input.new ≡ input.old)) }
        ensures end { self.new.ended ≡ true → IsAtEnd (R.given input.new) }
        ensures failed { self.old.error ≡ None
            → IfErr result (λ error. error.number ≡ 70 → FailsOnce (R.given input.old) (R.given input.new) ⊎ (self.new.reads ≡ 2 ^ 40)) }
        ensures few_reads { self.new.reads ≤ 2 ^ 40 }
        ensures few { self.new.lines ≤ 2 ^ 40 * 65536 }
        ensures works { OnOk result (IsUnfailing (R.given input.old) (R.given input.new)) }
        ensures sound { IfErr result (λ error. error.number ≢ 70 → IsUnfailing (R.given input.old) (R.given input.new)) }
    {
        if let Some(error) = self.error {
            return Err(error);
        }
        match self.runs.next(input) {
            Ok(None) => Ok(None),
            Ok(Some(run)) => match self.source.case_of(self.alloc, run) {
                Ok(case) => Ok(Some(case)),
                Err(_) => {
                    self.error = Some(WANT_OF_MEMORY);
                    Err(WANT_OF_MEMORY)
                }
            },
            Err(error) => {
                self.error = Some(error);
                Err(error)
            }
        }
    }
}
