//! Numbers without a sign, written digit by digit where they are to lie.

ghost use Rattle.std.specs.Prelude.{◌≡◌, ◌<◌, ◌≤◌, ◌-◌, ◌++◌, length, cond, replicate, true, false};
ghost use Rattle.std.specs.Fmt.{decimal};
ghost use Rattle.cse_value.specs.Field.{put_whole};

/// Writes a number without a sign over columns, with this character before it, and tells whether they have
/// room for it. The digits are put where they are to lie, the last one first.
fn put_digits(columns: &mut [char], number: u64, filler: char) -> bool
    ensures len { length columns.new ≡ length columns.old }
    ensures room { result ≡ true → length (decimal number) ≤ length columns.old }
    ensures columns { result ≡ true → columns.new ≡ replicate (length columns.old - length (decimal number)) filler ++ decimal number }
    ensures lacks { result ≡ false → length columns.old < length (decimal number) }
{
    let mut rest = number;
    let mut at = columns.len();
    'digits: while 0 < at {
        at -= 1;
        columns[at] = (48 + (rest % 10) as u8) as char;
        rest /= 10;
        if rest == 0 {
            columns[..at].fill(filler);
            return true;
        }
    }
    false
}

/// The character that stands before a number (the item's `ZeroFill`).
#[inline(always)]
pub fn filler_of(zero_fill: bool) -> char
    ensures { result ≡ cond zero_fill 48 32 }
{
    if zero_fill { '0' } else { ' ' }
}

/// Writes the columns of a number that has no sign, and tells whether it has none and they have room for it.
pub fn put_unsigned(columns: &mut [char], number: i64, zero_fill: bool) -> bool
    ensures len { length columns.new ≡ length columns.old }
    ensures columns { result ≡ true → columns.new ≡ put_whole (length columns.old) zero_fill number }
{
    0 <= number && put_digits(columns, number as u64, filler_of(zero_fill))
}
