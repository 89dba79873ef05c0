//! One field at the front of the bytes, and the bytes after it.

ghost use Rattle.std.specs.Prelude.{◌≡◌, length, IfOk, FitsSigned, nat_le, ◌==◌};
ghost use Rattle.std.specs.Int.{w64};
ghost use Rattle.cse_image_parts.specs.Reader.{GivesFault, fault, ended as spec_ended, number, signed, some_bytes, checked};
ghost use Rattle.cse_image_parts.specs.declared.fault.Rule.TheVariants.{Form, Limit};

use crate::fault::{FieldFault, Rule};
use byteorder::{ByteOrder, LittleEndian};

/// The rule is broken by the field at the front of the bytes.
#[inline]
pub fn broken(rule: Rule, field: &[u8]) -> FieldFault
    ensures { result ≡ fault rule field.now }
{
    FieldFault {
        rule,
        left: field.len(),
    }
}

/// A field passes the end.
#[inline]
pub fn ended() -> FieldFault
    ensures { result ≡ spec_ended }
{
    FieldFault {
        rule: Rule::Ended,
        left: 0,
    }
}

/// So many bytes, and those after them.
#[inline]
#[tactic(auto, unfolding(crate::specs::Reader::some_bytes))]
pub fn bytes_at(count: usize, bytes: &[u8]) -> Result<(&[u8], &[u8]), FieldFault>
    ensures exact { GivesFault (λ x. (x.0.now, x.1.now)) result (some_bytes count bytes.now) }
    ensures whole { IfOk result (λ x. length x.0.now ≡ count) }
{
    if bytes.len() < count {
        return Err(ended());
    }
    Ok(bytes.split_at(count))
}

/// A number of one byte, and the bytes after it.
#[inline]
#[tactic(auto, unfolding(crate::specs::Reader::number))]
pub fn u8_at(bytes: &[u8]) -> Result<(u8, &[u8]), FieldFault>
    ensures { GivesFault (λ x. (x.0, x.1.now)) result (number 1 bytes.now) }
{
    let (front, rest) = bytes_at(1, bytes)?;
    Ok((front[0], rest))
}

/// A number of two bytes, the lowest first, and the bytes after it.
#[inline]
#[tactic(auto, unfolding(crate::specs::Reader::number))]
pub fn u16_at(bytes: &[u8]) -> Result<(u16, &[u8]), FieldFault>
    ensures { GivesFault (λ x. (x.0, x.1.now)) result (number 2 bytes.now) }
{
    let (front, rest) = bytes_at(2, bytes)?;
    Ok((LittleEndian::read_u16(front), rest))
}

/// A number of four bytes, the lowest first, and the bytes after it.
#[inline]
#[tactic(auto, unfolding(crate::specs::Reader::number))]
pub fn u32_at(bytes: &[u8]) -> Result<(u32, &[u8]), FieldFault>
    ensures { GivesFault (λ x. (x.0, x.1.now)) result (number 4 bytes.now) }
{
    let (front, rest) = bytes_at(4, bytes)?;
    Ok((LittleEndian::read_u32(front), rest))
}

/// A signed number of eight bytes, the lowest first, in two's complement, and the bytes after it.
#[inline]
#[tactic(auto, unfolding(crate::specs::Reader::signed))]
pub fn i64_at(bytes: &[u8]) -> Result<(i64, &[u8]), FieldFault>
    ensures exact { GivesFault (λ x. (x.0, x.1.now)) result (signed bytes.now) }
    ensures fits { IfOk result (λ x. FitsSigned w64 x.0) }
{
    let (front, rest) = bytes_at(8, bytes)?;
    Ok((LittleEndian::read_i64(front), rest))
}

/// A byte that must be 0.
#[inline]
#[tactic(auto, unfolding(crate::specs::Reader::checked))]
pub fn zero_u8_at(bytes: &[u8]) -> Result<(u8, &[u8]), FieldFault>
    ensures { GivesFault (λ x. (x.0, x.1.now)) result (checked Form (λ n. n == 0) (number 1) bytes.now) }
{
    let (zero, rest) = u8_at(bytes)?;
    if zero != 0 {
        return Err(broken(Rule::Form, bytes));
    }
    Ok((zero, rest))
}

/// Two bytes that must be 0.
#[inline]
#[tactic(auto, unfolding(crate::specs::Reader::checked))]
pub fn zero_u16_at(bytes: &[u8]) -> Result<(u16, &[u8]), FieldFault>
    ensures { GivesFault (λ x. (x.0, x.1.now)) result (checked Form (λ n. n == 0) (number 2) bytes.now) }
{
    let (zero, rest) = u16_at(bytes)?;
    if zero != 0 {
        return Err(broken(Rule::Form, bytes));
    }
    Ok((zero, rest))
}

/// The count of a section's entries, which has a limit.
#[inline]
#[tactic(auto, unfolding(crate::specs::Reader::checked))]
pub fn count_at(limit: usize, bytes: &[u8]) -> Result<(u32, &[u8]), FieldFault>
    ensures { GivesFault (λ x. (x.0, x.1.now)) result (checked Limit (λ n. nat_le n limit) (number 4) bytes.now) }
{
    let (count, rest) = u32_at(bytes)?;
    if count as usize > limit {
        return Err(broken(Rule::Limit, bytes));
    }
    Ok((count, rest))
}

/// Three bytes that must be 0, which are one field.
#[inline]
#[tactic(auto, unfolding(crate::specs::Reader::number, crate::specs::Reader::checked))]
pub fn zero_u24_at(bytes: &[u8]) -> Result<(u32, &[u8]), FieldFault>
    ensures { GivesFault (λ x. (x.0, x.1.now)) result (checked Form (λ n. n == 0) (number 3) bytes.now) }
{
    let (front, rest) = bytes_at(3, bytes)?;
    let zero = LittleEndian::read_u24(front);
    if zero != 0 {
        return Err(broken(Rule::Form, bytes));
    }
    Ok((zero, rest))
}
