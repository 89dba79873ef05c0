//! The rows of small numbers, which most items have: a table for the numbers from 0 on, so that none is searched for.

ghost use Rattle.std.specs.Prelude.{◌≡◌, IfOk};
ghost use Rattle.cse_value.specs.declared.number.Num.TheVariants.{Whole};
ghost use Rattle.cse_dict.specs.Dictionary.{ascends, row_in};
ghost use Rattle.cse_dict.specs.Small.{TellsRows};

use crate::rows::NumberSpan;
use crate::search::span_of;
use std::alloc::{AllocError, Global};

/// How many numbers a table has at most.
const MOST: i64 = 128;

/// The row of a number, by the pairs. It is kept out of the functions that look small numbers up.
#[inline(never)]
pub fn row_by_pairs(spans: &[NumberSpan], is_ascending: bool, number: i64) -> Option<u32>
    requires { is_ascending ≡ ascends spans.now }
    ensures { result ≡ row_in (Whole number) spans.now }
{
    let span = span_of(spans, is_ascending, number)?;
    Some(span.row)
}

/// How many numbers from 0 on get a table: those up to the greatest one of the pairs, and `MOST` at most.
fn table_len(spans: &[NumberSpan]) -> u32 {
    let mut len = 0u32;
    'spans: for span in spans {
        if i64::from(len) <= span.high {
            len = span.high.min(MOST - 1) as u32 + 1;
        }
    }
    len
}

/// The rows of the numbers from 0 on.
pub fn small_rows(
    alloc: Global,
    spans: &[NumberSpan],
    is_ascending: bool,
) -> Result<Vec<Option<u32>>, AllocError>
    requires { is_ascending ≡ ascends spans.now }
    ensures { IfOk result (λ v. TellsRows v.items spans.now) }
{
    let mut rows = Vec::new(alloc);
    'numbers: for number in 0..table_len(spans) {
        let row = row_by_pairs(spans, is_ascending, i64::from(number));
        rows.push(row)?;
    }
    Ok(rows)
}

/// The row of a number, by the table, or else by the pairs.
pub fn row_of_whole(
    small: &[Option<u32>],
    spans: &[NumberSpan],
    is_ascending: bool,
    number: i64,
) -> Option<u32>
    requires table { TellsRows small.now spans.now }
    requires ascends { is_ascending ≡ ascends spans.now }
    ensures { result ≡ row_in (Whole number) spans.now }
{
    if 0 <= number {
        if let Some(row) = small.get(number as usize) {
            return *row;
        }
    }
    row_by_pairs(spans, is_ascending, number)
}
