//! A number that is written into a few columns.
//!
//! Most fields of numbers are one to three columns, and most numbers have room there. These are written here,
//! each column where it stands.

ghost use Rattle.std.specs.Prelude.{◌≡◌, ◌<◌, ◌≤◌, ◌+◌, ◌-◌, ◌++◌, ◌∷◌, [], length, replicate, cond, true, false};
ghost use Rattle.std.specs.Fmt.{decimal};
ghost use Rattle.std.specs.Str.{IsAscii};
ghost use Rattle.cse_value.specs.Field.{put_whole};
ghost use Rattle.cse_case.specs.Few.{IsFew};

/// The character of a digit.
#[inline(always)]
fn character(digit: u32) -> u8
    requires { digit < 10 }
    ensures { result ≡ 48 + digit }
{
    48 + digit as u8
}

/// The two columns of a number, with this character before it.
#[inline(always)]
fn two_columns(number: u32, filler: u8) -> (u8, u8)
    requires { number < 100 }
    ensures { result.0 ∷ result.1 ∷ [] ≡ replicate (2 - length (decimal number)) filler ++ decimal number }
{
    if number < 10 {
        (filler, character(number))
    } else {
        (character(number / 10), character(number % 10))
    }
}

/// The three columns of a number, with this character before it.
#[inline(always)]
fn three_columns(number: u32, filler: u8) -> (u8, u8, u8)
    requires { number < 1000 }
    ensures { result.0 ∷ result.1 ∷ result.2 ∷ [] ≡ replicate (3 - length (decimal number)) filler ++ decimal number }
{
    if number < 10 {
        (filler, filler, character(number))
    } else {
        let (first, second) = two_columns(number / 10, filler);
        (first, second, character(number % 10))
    }
}

/// Writes a number over columns, if they are one to three and have room for it, and tells whether they are.
///
/// Each width tests the number by itself: where the tests of width and number are joined by `&&`, the compiler makes
/// numbers of both, and not two branches.
#[inline(always)]
fn put_few(columns: &mut [u8], number: u64, filler: u8) -> bool
    ensures len { length columns.new ≡ length columns.old }
    ensures low { result ≡ true → number < 1000 }
    ensures room { result ≡ true → length (decimal number) ≤ length columns.old }
    ensures some { 0 < length columns.old → length columns.old ≤ 3 → length (decimal number) ≤ length columns.old → result ≡ true }
    ensures columns { result ≡ true → columns.new ≡ replicate (length columns.old - length (decimal number)) filler ++ decimal number }
    ensures same { result ≡ false → columns.new ≡ columns.old }
{
    match columns.len() {
        3 => {
            if number >= 1000 {
                return false;
            }
            let (first, second, last) = three_columns(number as u32, filler);
            columns[0] = first;
            columns[1] = second;
            columns[2] = last;
            true
        }
        2 => {
            if number >= 100 {
                return false;
            }
            let (first, last) = two_columns(number as u32, filler);
            columns[0] = first;
            columns[1] = last;
            true
        }
        1 => {
            if number >= 10 {
                return false;
            }
            columns[0] = character(number as u32);
            true
        }
        _ => false,
    }
}

/// The byte that stands before a number (the item's `ZeroFill`).
#[inline(always)]
fn filler_byte(zero_fill: bool) -> u8
    ensures { result ≡ cond zero_fill 48 32 }
{
    if zero_fill { b'0' } else { b' ' }
}

/// Writes a whole number over columns, if they are few and have room for it, and tells whether they are. The bits of
/// a number below 0 are those of a number that has no room.
#[inline(always)]
pub fn put_small(columns: &mut [u8], number: i64, zero_fill: bool) -> bool
    ensures len { length columns.new ≡ length columns.old }
    ensures columns { result ≡ true → columns.new ≡ put_whole (length columns.old) zero_fill number }
    ensures ascii { result ≡ true → IsAscii columns.new }
    ensures some { 0 < length columns.old → IsFew (length columns.old) number → result ≡ true }
    ensures same { result ≡ false → columns.new ≡ columns.old }
{
    put_few(columns, number.cast_unsigned(), filler_byte(zero_fill))
}
