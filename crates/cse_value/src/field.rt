//! Fields: lists of columns that are read as numbers and texts, and written back.
//!
//! A column is a character, and a blank is U+0020. A blank field is `notappl`, the code of its item is
//! `missing`, and columns that are no number are `default` (CSPro Users Guide, special values). That
//! digits beyond 64 bits are no number is own.

ghost use Rattle.std.specs.Prelude.{◌≡◌, ◌+◌, ◌-◌, ◌*◌, ◌<◌, ◌≤◌, ◌++◌, List, length, min, neg_ℤ, pos, replicate, reverse};
ghost use Rattle.std.specs.Option.{option_map};
ghost use Rattle.cse_value.specs.Field.{PutKeepsWidth, PutTextKeepsWidth, ReadsWhatWasPut, digits_number, field, in_i64, numeral, put, put_text, put_whole, shown, trimmed, without_blanks};

use crate::digits::put_unsigned;
use crate::number::Num;
use crate::text::Text;
use arrayvec::ArrayString;
use itoa::Buffer;

/// One more than the greatest size of a number of 64 bits.
const TOP: u64 = 9_223_372_036_854_775_809;

/// The value of a number's columns, where `code` stands for `missing`. Blanks are `NotAppl`. Blanks, a
/// minus sign or none, one or more digits, and blanks are that number, or `Missing` where it is the code.
/// All else is `Undef`, and so are digits beyond 64 bits.
#[tactic(auto, unfolding(crate::specs::Field::field))]
pub fn read_num(columns: &[char], code: Option<i64>) -> Num
    ensures { result ≡ field columns.now code }
{
    let spelled = trimmed(columns);
    if spelled.is_empty() {
        return Num::NotAppl;
    }
    let Some(number) = numeral(spelled) else {
        return Num::Undef;
    };
    if code == Some(number) {
        return Num::Missing;
    }
    Num::Whole(number)
}

/// The columns without the blanks at both ends.
#[tactic(auto, unfolding(crate::specs::Field::trimmed))]
fn trimmed(columns: &[char]) -> &[char]
    ensures { result.now ≡ trimmed columns.now }
{
    without_back(without_front(columns))
}

/// The columns without the blanks in front.
fn without_front(columns: &[char]) -> &[char]
    ensures { result.now ≡ without_blanks columns.now }
{
    let mut rest = columns;
    'blanks: while rest.first() == Some(&' ') {
        rest = &rest[1..];
    }
    rest
}

/// The columns without the blanks at their end.
fn without_back(columns: &[char]) -> &[char]
    ensures { result.now ≡ reverse (without_blanks (reverse columns.now)) }
{
    let mut rest = columns;
    'blanks: while let [more @ .., ' '] = rest {
        rest = more;
    }
    rest
}

/// The number that a minus sign or none, and digits spell, if 64 bits hold it.
fn numeral(spelled: &[char]) -> Option<i64>
    requires { 0 < length spelled.now }
    ensures { result ≡ in_i64 (numeral spelled.now) }
{
    if spelled[0] == '-' {
        let Some(size) = decimal(&spelled[1..]) else {
            return None;
        };
        return negative(size);
    }
    let Some(size) = decimal(spelled) else {
        return None;
    };
    positive(size)
}

/// The number of this size without a sign, if 64 bits hold it.
fn positive(size: u64) -> Option<i64>
    ensures { result ≡ in_i64 (Some (pos size)) }
{
    0i64.checked_add_unsigned(size)
}

/// The number of this size behind a minus sign, if 64 bits hold it.
fn negative(size: u64) -> Option<i64>
    ensures { result ≡ in_i64 (Some (neg_ℤ (pos size))) }
{
    0i64.checked_sub_unsigned(size)
}

/// The number that one or more digits spell, at most `TOP`.
#[tactic(auto, unfolding(crate::specs::Field::digits_number))]
fn decimal(digits: &[char]) -> Option<u64>
    ensures { result ≡ option_map (λ n. min n TOP) (digits_number digits.now) }
{
    if digits.is_empty() {
        return None;
    }
    let mut number = 0;
    'digits: for digit in digits {
        if !digit.is_ascii_digit() {
            return None;
        }
        number = with_digit(number, *digit);
    }
    Some(number)
}

/// The number with a decimal digit more, at most `TOP`.
fn with_digit(number: u64, digit: char) -> u64
    requires low { 48 ≤ digit }
    requires high { digit < 58 }
    ensures { result ≡ min (10 * number + (digit - 48)) TOP }
{
    if number > TOP / 10 {
        return TOP;
    }
    10 * number + (digit as u64 - 48)
}

/// Writes a number's columns, right aligned, with blanks in front, or with zeros after the sign.
/// `NotAppl` is blanks, and `Missing` its code. `Undef`, `Missing` without a code, and a number that has
/// no room are `*` in every column.
#[tactic(auto, unfolding(crate::specs::Field::put))]
pub fn put_num(columns: &mut [char], value: Num, zero_fill: bool, code: Option<i64>)
    ensures columns { columns.new ≡ put (length columns.old) value zero_fill code }
    ensures width { length columns.new ≡ length columns.old }
{
    match value {
        Num::Whole(number) => put_whole(columns, number, zero_fill),
        Num::NotAppl => columns.fill(' '),
        Num::Missing => match code {
            Some(number) => put_whole(columns, number, zero_fill),
            None => columns.fill('*'),
        },
        Num::Undef => columns.fill('*'),
    }
}

/// Writes the columns of a number.
fn put_whole(columns: &mut [char], number: i64, zero_fill: bool)
    ensures { columns.new ≡ put_whole (length columns.old) zero_fill number }
{
    if put_unsigned(columns, number, zero_fill) {
        return;
    }
    let mut buffer = Buffer::new();
    let text = buffer.format(number).as_bytes();
    if text.len() > columns.len() {
        columns.fill('*');
        return;
    }
    if !zero_fill {
        put_right(columns, text, ' ');
        return;
    }
    if number < 0 {
        put_right(columns, &text[1..], '0');
        columns[0] = '-';
        return;
    }
    put_right(columns, text, '0');
}

/// Writes ASCII bytes at the end of the columns, and the filler before them.
fn put_right(columns: &mut [char], bytes: &[u8], filler: char)
    requires { length bytes.now ≤ length columns.old }
    ensures { columns.new
        ≡ replicate (length columns.old - length bytes.now) filler ++ bytes.now }
{
    let room = columns.len() - bytes.len();
    columns[..room].fill(filler);
    for i in 0..bytes.len() {
        columns[room + i] = bytes[i] as char;
    }
}

/// The text of the columns.
pub fn read_text(columns: &[char]) -> Text
    requires { length columns.now ≤ 255 }
    ensures { result.items ≡ columns.now }
{
    let mut text = Text::new();
    let Ok(()) = text.try_extend_from_slice(columns) else {
        unreachable!();
    };
    text
}

/// Writes the text, cut to the columns or padded with blanks.
pub fn put_text(columns: &mut [char], text: &Text)
    ensures columns { columns.new ≡ put_text (length columns.old) text.now.items }
    ensures width { length columns.new ≡ length columns.old }
{
    let text = text.as_slice();
    let n = text.len().min(columns.len());
    columns[..n].copy_from_slice(&text[..n]);
    columns[n..].fill(' ');
}

/// The text of a value in a message: a decimal number, `NOTAPPL`, `MISSING` or `DEFAULT`.
pub fn show_num(value: Num) -> ArrayString<20>
    ensures { result.bytes ≡ shown value }
{
    match value {
        Num::Whole(number) => short_text(Buffer::new().format(number)),
        Num::NotAppl => short_text("NOTAPPL"),
        Num::Missing => short_text("MISSING"),
        Num::Undef => short_text("DEFAULT"),
    }
}

/// A copy of at most 20 bytes.
fn short_text(text: &str) -> ArrayString<20>
    requires { length text.now ≤ 20 }
    ensures { result.bytes ≡ text.now }
{
    let mut copy = ArrayString::new();
    copy.push_str(text);
    copy
}

/// Reading what was written into one column or more, with the same code, gives what the field keeps:
/// `NotAppl` for `NotAppl`, `Missing` for `Missing` with a code that has room and for the code itself,
/// a number that has room and isn't the code, and `Undef` for all else.
pub fn round_trip()
    ensures { ReadsWhatWasPut }
{}

/// A write of a number, or of a text, keeps the number of columns.
pub fn keeps_width()
    ensures numbers { PutKeepsWidth }
    ensures texts { PutTextKeepsWidth }
{}
