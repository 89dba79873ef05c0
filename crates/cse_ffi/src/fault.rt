//! What C is told: a fault with its place, what a run counted, and the number of an answer.

ghost use Rattle.std.specs.Prelude.{◌≡◌, ◌&&◌};
ghost use Rattle.cse_ffi.specs.Fault.{counts_of, fault_at, of_check, status_of, totals_of};

use crate::calls::Texts;
use cse_batch::Totals;
use cse_fault_numbers::WANT_OF_MEMORY;
use cse_verify::CheckFault;

/// Why there is nothing: a number of docs/FAULTS.md, and its place, as far as the number knows of one. Line and column count
/// from 1; 0 means none.
#[repr(C)]
#[derive(Clone, Copy)]
pub struct CsbFault {
    pub number: u32,
    pub line: u64,
    pub column: u64,
}

/// What a run counted.
#[repr(C)]
#[derive(Clone, Copy)]
pub struct CsbCounts {
    pub cases: u64,
    pub lines: u64,
    pub unseen: u64,
}

/// What a run counted, and how many bytes each of its outputs has.
#[repr(C)]
#[derive(Clone, Copy)]
pub struct CsbTotals {
    pub cases: u64,
    pub lines: u64,
    pub unseen: u64,
    pub out: u64,
    pub listing: u64,
    pub frequencies: u64,
    pub decks: u64,
}

/// A number with its place.
pub(crate) fn fault_at(number: u8, line: u64, column: u64) -> CsbFault
    ensures { result ≡ fault_at number line column }
{
    CsbFault {
        number: u32::from(number),
        line,
        column,
    }
}

/// Why an image may not run. A byte, or a routine and a place, is no line.
pub(crate) fn of_check(error: CheckFault) -> CsbFault
    ensures { result ≡ of_check error }
{
    match error {
        CheckFault::Image(error) => fault_at(error.number, 0, 0),
        CheckFault::Refused(refusal) => fault_at(refusal.number, 0, 0),
        CheckFault::Memory => fault_at(WANT_OF_MEMORY, 0, 0),
    }
}

/// What a run counted.
pub(crate) fn counts_of(totals: Totals) -> CsbCounts
    ensures { result ≡ counts_of totals }
{
    CsbCounts {
        cases: totals.cases,
        lines: totals.lines,
        unseen: totals.unseen,
    }
}

/// What a run counted, with the lengths of its texts.
pub(crate) fn totals_of(texts: &Texts) -> CsbTotals
    ensures { result ≡ totals_of texts.now.totals texts.now.out.items texts.now.listing.items texts.now.frequencies.items texts.now.decks.items }
{
    CsbTotals {
        cases: texts.totals.cases,
        lines: texts.totals.lines,
        unseen: texts.totals.unseen,
        out: texts.out.len() as u64,
        listing: texts.listing.len() as u64,
        frequencies: texts.frequencies.len() as u64,
        decks: texts.decks.len() as u64,
    }
}

/// The number of an answer of four texts, each of which is put, or not.
pub(crate) fn status_of_all(lines: bool, listed: bool, counted: bool, kept: bool) -> u32
    ensures { result ≡ status_of (lines && (listed && (counted && kept))) }
{
    if lines && listed && counted && kept {
        0
    } else {
        1
    }
}

/// The number of an answer whose bytes are all put, or not.
pub(crate) fn status_of(is_put: bool) -> u32
    ensures { result ≡ status_of is_put }
{
    if is_put { 0 } else { 1 }
}
