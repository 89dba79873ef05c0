//! The number in a few columns.
//!
//! Most fields of numbers are one to three columns: blanks, and then digits to the end. These are read
//! here, others of blanks and digits column by column, and all the rest by `read_num`, whose answer is the
//! same.

ghost use Rattle.std.specs.Prelude.{◌≡◌, ◌<◌, ◌≤◌, ◌+◌, ◌-◌, ◌∷◌, [], Some, IfSome, length, take, drop, pos, true};
ghost use Rattle.std.specs.Char.{is_ascii_digit};
ghost use Rattle.cse_value.specs.Field.{digits_number, field, is_code, without_blanks};
ghost use Rattle.cse_dict.specs.Dictionary.{code_at, shape_of};
ghost use Rattle.cse_case.specs.Bytes.{columns_lent};
ghost use Rattle.cse_case.specs.Field.{item_at};
ghost use Rattle.cse_case.specs.Limits.{IsPlain};

use crate::columns::piece;
use crate::items::Items;
use crate::{Columns, put_columns};
use cse_value::{Num, read_num};

/// The value of the columns of a number's item, at least one and at most 18, which stand in a line from a place on. Where
/// their bytes tell it, what stands beside these isn't looked for.
#[inline(always)]
pub fn number_in(line: Columns<'_>, start: usize, len: usize, items: &Items<'_>, item: u16) -> Num
    requires some { 0 < len }
    requires few { len ≤ 18 }
    requires whole { start + len ≤ length (columns_lent line) }
    requires item { item < length items.now.items }
    requires fits { len ≡ (item_at (shape_of items.now).items item).len }
    ensures { result ≡ field (take len (drop start (columns_lent line.entry))) (code_at items.now item) }
{
    match few_number(piece(line.bytes, start, len), items) {
        Some(number) => Num::Whole(number as i64),
        None => number_in_columns(line.part(start, len), items.dictionary().code(item)),
    }
}

/// The number of columns, at least one, by their bytes: if they are one to three, blanks and then digits. Few numbers are as
/// high as the least code of items of so many columns, and only for these the item's own code is looked up.
#[inline(always)]
fn few_number(bytes: &[u8], items: &Items<'_>) -> Option<u32>
    requires { 0 < length bytes.now }
    ensures { IfSome result (λ n. IsPlain items.now bytes.now n) }
{
    if bytes.len() < 2 {
        digit_below(bytes[0], items.digit_limit())
    } else if bytes.len() < 3 {
        below(two_columns(bytes[0], bytes[1]), items.limit())
    } else if bytes.len() < 4 {
        below(three_columns(bytes[0], bytes[1], bytes[2]), items.limit())
    } else {
        None
    }
}

/// The number of a column that is a digit, if it is below a limit.
#[inline(always)]
fn digit_below(column: u8, limit: u32) -> Option<u32>
    requires digits { limit ≤ 10 }
    ensures digit { IfSome result (λ n. (is_ascii_digit column ≡ true) × (n ≡ column - 48)) }
    ensures low { IfSome result (λ n. n < limit) }
{
    let number = (column as u32).wrapping_sub(48);
    if number < limit { Some(number) } else { None }
}

/// The number, if there is one and it is below a limit.
#[inline(always)]
fn below(found: Option<u32>, limit: u32) -> Option<u32>
    ensures { IfSome result (λ n. (found ≡ Some n) × (n < limit)) }
{
    match found {
        Some(number) if number < limit => Some(number),
        _ => None,
    }
}

/// The number of three columns, where they are blanks and then digits.
#[inline(always)]
fn three_columns(first: u8, second: u8, last: u8) -> Option<u32>
    ensures number { IfSome result (λ n. digits_number (without_blanks (first ∷ second ∷ last ∷ [])) ≡ Some n) }
    ensures low { IfSome result (λ n. n < 1_000) }
{
    if first == b' ' {
        return two_columns(second, last);
    }
    let Some(hundreds) = digit(first) else {
        return None;
    };
    let Some(tens) = digit(second) else {
        return None;
    };
    let Some(ones) = digit(last) else {
        return None;
    };
    Some(100 * hundreds + 10 * tens + ones)
}

/// The number of two columns, where they are a blank or a digit and a digit.
#[inline(always)]
fn two_columns(first: u8, last: u8) -> Option<u32>
    ensures number { IfSome result (λ n. digits_number (without_blanks (first ∷ last ∷ [])) ≡ Some n) }
    ensures low { IfSome result (λ n. n < 100) }
{
    let Some(ones) = digit(last) else {
        return None;
    };
    if first == b' ' {
        return Some(ones);
    }
    let Some(tens) = digit(first) else {
        return None;
    };
    Some(10 * tens + ones)
}

/// The number of a column that is a digit.
#[inline(always)]
fn digit(column: u8) -> Option<u32>
    ensures digit { IfSome result (λ n. (is_ascii_digit column ≡ true) × (n ≡ column - 48)) }
    ensures low { IfSome result (λ n. n < 10) }
{
    digit_below(column, 10)
}

/// The value of a number's columns, at most 18, column by column, where `code` stands for `missing`.
#[inline(never)]
pub fn number_in_columns(columns: Columns<'_>, code: Option<i64>) -> Num
    requires { length (columns_lent columns) ≤ 18 }
    ensures { result ≡ field (columns_lent columns.entry) code }
{
    let spelled = without_front(columns.bytes);
    if spelled.is_empty() {
        return Num::NotAppl;
    }
    let Some(number) = digits_number(spelled) else {
        return any_number(columns, code);
    };
    if is_code(number, code) {
        return Num::Missing;
    }
    Num::Whole(number as i64)
}

/// The value of a number's columns, at most 18, whatever they are.
fn any_number(columns: Columns<'_>, code: Option<i64>) -> Num
    requires { length (columns_lent columns) ≤ 18 }
    ensures { result ≡ field (columns_lent columns.entry) code }
{
    let mut characters = [' '; 18];
    let front = &mut characters[..columns.len()];
    put_columns(front, columns);
    read_num(front, code)
}

/// Whether a number is the code.
fn is_code(number: u64, code: Option<i64>) -> bool
    requires { number < 1_000_000_000_000_000_000 }
    ensures { result ≡ is_code code (pos number) }
{
    code == Some(number as i64)
}

/// The columns without the blanks in front.
fn without_front(columns: &[u8]) -> &[u8]
    ensures same { result.now ≡ without_blanks columns.now }
    ensures short { length result.now ≤ length columns.now }
{
    let mut rest = columns;
    'blanks: while rest.first() == Some(&b' ') {
        rest = &rest[1..];
    }
    rest
}

/// The number that digits alone spell, at least one and at most 18.
#[tactic(auto, unfolding(cse_value::specs::Field::digits_number))]
fn digits_number(digits: &[u8]) -> Option<u64>
    requires some { 0 < length digits.now }
    requires few { length digits.now ≤ 18 }
    ensures number { result ≡ digits_number digits.now }
    ensures low { IfSome result (λ n. n < 1_000_000_000_000_000_000) }
{
    let mut number = 0;
    'digits: for digit in digits {
        if !digit.is_ascii_digit() {
            return None;
        }
        number = 10 * number + (*digit as u64 - 48);
    }
    Some(number)
}
