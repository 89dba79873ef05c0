//! A fault of a dictionary's text, and the least fault so far.
ghost use Rattle.std.specs.Prelude.{◌≡◌};
ghost use Rattle.cse_dict.specs.Faults.{fault_if, is_before, note, note_all};

use thiserror::Error;

/// Why a text is no dictionary: the number of the cause and the line where it stands, counted from 1.
///
/// 10 the text isn't UTF-8 (line 0); 11 the first section isn't `[Dictionary]`, or there is none (line
/// 0); 12 a key or a section is missing (its heading); 13 a second `[Level]` (its heading); 14 a number
/// that is unreadable or out of its range, an `EditMissing` that doesn't fit its item, or a
/// `RecordTypeValue` that is too long (the key); 15 an item that ends past its record (its heading); 16 a
/// name that comes twice (the later heading); 17 a limit (heading or `Value` key) or the form of a name
/// (the key); 18 a record type that comes twice (the later heading); 90 want of memory (line 0).
#[derive(Clone, Copy, Debug, PartialEq, Eq, Error)]
#[error("fault {number} in line {line}")]
pub struct DictError {
    pub number: u8,
    pub line: u64,
}

fn is_before(f: DictError, g: DictError) -> bool
    ensures { result ≡ is_before f g }
{
    f.line < g.line || (f.line == g.line && f.number < g.number)
}

fn note(found: &mut Option<DictError>, fault: DictError)
    ensures { found.new ≡ note found.old fault }
{
    match *found {
        Some(least) if !is_before(fault, least) => {}
        _ => *found = Some(fault),
    }
}

/// Notes a fault where the test holds.
pub fn note_if(found: &mut Option<DictError>, holds: bool, line: u64, number: u8)
    ensures { found.new ≡ note_all found.old (fault_if holds line number) }
{
    if holds {
        note(found, DictError { number, line });
    }
}
