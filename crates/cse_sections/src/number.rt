//! The whole numbers that a text spells.
ghost use Rattle.std.specs.Prelude.{◌≡◌, ◌^◌, ◌≤◌, nat_lt, min, IfSome};
ghost use Rattle.std.specs.List.{list_all};
ghost use Rattle.std.specs.Char.{is_ascii_digit};
ghost use Rattle.cse_sections.specs.Number.{are_digits, decimal_of, fits_columns, negated_of, number_between, unsigned_of, whole_of};

/// The digits as a number, kept at the greatest of 64 bits once it is above.
fn decimal_of(bytes: &[u8]) -> u64
    ensures { result ≡ min (decimal_of bytes.now) 18446744073709551615 }
{
    let mut number = 0u64;
    'digits: for b in bytes {
        number = number
            .saturating_mul(10)
            .saturating_add(b.saturating_sub(b'0') as u64);
    }
    number
}

/// Whether all bytes are digits.
fn all_digits(bytes: &[u8]) -> bool
    ensures { result ≡ list_all is_ascii_digit bytes.now }
{
    bytes.iter().all(|b| b.is_ascii_digit())
}

/// Whether the bytes are one or more digits.
fn are_digits(bytes: &[u8]) -> bool
    ensures { result ≡ are_digits bytes.now }
{
    if bytes.is_empty() {
        return false;
    }
    all_digits(bytes)
}

/// The number without a sign that the bytes spell.
#[tactic(auto, unfolding(crate::specs::Number::unsigned_of))]
fn unsigned_of(bytes: &[u8]) -> Option<i64>
    ensures { result ≡ unsigned_of bytes.now }
{
    if !are_digits(bytes) {
        return None;
    }
    let number = decimal_of(bytes);
    if number >= 9223372036854775808 {
        return None;
    }
    Some(number as i64)
}

/// The negative of the number that the bytes spell.
#[tactic(auto, unfolding(crate::specs::Number::negated_of))]
fn negated_of(bytes: &[u8]) -> Option<i64>
    ensures { result ≡ negated_of bytes.now }
{
    if !are_digits(bytes) {
        return None;
    }
    let number = decimal_of(bytes);
    if number > 9223372036854775808 {
        return None;
    }
    if number == 9223372036854775808 {
        return Some(i64::MIN);
    }
    Some(-(number as i64))
}

/// The number that the bytes spell: an optional `-` and digits, within 64 bits.
#[tactic(auto, unfolding(crate::specs::Number::whole_of))]
pub fn whole_of(bytes: &[u8]) -> Option<i64>
    ensures { result ≡ whole_of bytes.now }
{
    match bytes {
        [] => None,
        [b'-', digits @ ..] => negated_of(digits),
        _ => unsigned_of(bytes),
    }
}

/// The number from `low` to `high` that the bytes spell.
#[tactic(auto, unfolding(crate::specs::Number::number_between))]
pub fn number_between(low: u32, high: u32, bytes: &[u8]) -> Option<u32>
    ensures number { result ≡ number_between low high bytes.now }
    ensures high { IfSome result (λ n. n ≤ high) }
{
    let whole = whole_of(bytes)?;
    if whole < i64::from(low) {
        return None;
    }
    if whole > i64::from(high) {
        return None;
    }
    Some(whole as u32)
}

/// Whether the number is below a power of ten.
fn is_below_power(number: u64, exponent: u32) -> bool
    ensures { result ≡ nat_lt number (10 ^ exponent) }
{
    match 10u64.checked_pow(exponent) {
        Some(top) => number < top,
        None => true,
    }
}

/// Whether the number in decimal has at most so many characters, its sign counted.
#[tactic(auto, unfolding(crate::specs::Number::fits_columns))]
pub fn fits_columns(len: u32, number: i64) -> bool
    ensures { result ≡ fits_columns len number }
{
    if number < 0 {
        return is_below_power(number.unsigned_abs(), len.saturating_sub(1));
    }
    is_below_power(number.unsigned_abs(), len)
}
