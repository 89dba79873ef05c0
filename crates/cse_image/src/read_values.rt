//! Plain values: the sections of the records' order, of constants and limits, and texts, globals and messages.

ghost use Rattle.std.specs.Prelude.{◌≡◌, ℕ, ℤ, List, [], Err, IfOk, IfErr};
ghost use Rattle.std.specs.String.{string_bytes};
ghost use Rattle.cse_image_parts.specs.Reader.{Gives, GivesFault, number, signed, checked, decoded, many, counted};
ghost use Rattle.cse_image_parts.specs.declared.fault.Rule.TheVariants.{Form};
ghost use Rattle.cse_image_parts.specs.Codes.{global_kind_of as kind_of};
ghost use Rattle.cse_image_parts.specs.Fields.{fits_global_length};
ghost use Rattle.cse_image_parts.specs.Image.{MessageLists, message_lists};
ghost use Rattle.cse_image.specs.Reading.{limit_at, limits_at, characters_at, text_at, global_at, message_at};

use crate::read_entries::Readable;
use crate::read_shape::flag_of;
use cse_image_parts::codes::global_kind_named;
use cse_image_parts::entries::{GlobalKind, GlobalVariable, Message};
use cse_image_parts::limits::MOST_LIMITS;
use cse_image_parts::placeholders::are_few_placeholders;
use cse_image_parts::rules::{is_right_global_length, is_right_limit};
use cse_image_parts::texts::{is_short_text, plain_text};
use cse_image_parts::version::Version;
use cse_image_parts::{
    FieldFault, ReadStop, Rule, broken, bytes_at, count_at, i64_at, u8_at, u16_at, u32_at,
    zero_u8_at,
};
use std::alloc::Global;

/// A place in the edit order: four bytes.
impl Readable for u32 {
    ghost Seen = { ℕ };

    ghost seen = { λ n. n };

    ghost reader = { λ _. number 4 };

    fn read<'a>(
        _alloc: Global,
        _before: &[Self],
        bytes: &'a [u8],
    ) -> Result<(Self, &'a [u8]), ReadStop> {
        Ok(u32_at(bytes)?)
    }
}

/// A constant: eight bytes.
impl Readable for i64 {
    ghost Seen = { ℤ };

    ghost seen = { λ n. n };

    ghost reader = { λ _. signed };

    fn read<'a>(
        _alloc: Global,
        _before: &[Self],
        bytes: &'a [u8],
    ) -> Result<(Self, &'a [u8]), ReadStop> {
        Ok(i64_at(bytes)?)
    }
}

/// A limit of a counting loop.
#[tactic(auto, unfolding(cse_image_parts::specs::Reader::checked, crate::specs::Reading::limit_at))]
fn limit_of(bytes: &[u8]) -> Result<(u32, &[u8]), FieldFault>
    ensures { GivesFault (λ x. (x.0, x.1.now)) result (limit_at bytes.now) }
{
    let (limit, rest) = u32_at(bytes)?;
    if !is_right_limit(limit) {
        return Err(broken(Rule::Form, bytes));
    }
    Ok((limit, rest))
}

fn limits_in<'a>(limits: &mut Vec<u32>, count: u32, bytes: &'a [u8]) -> Result<&'a [u8], ReadStop>
    ensures { Gives (λ x. (limits.new.items, x.now)) result (many (λ _. limit_at) limits.old.items count bytes.now) }
{
    let mut rest = bytes;
    for _ in 0..count {
        let (limit, after) = limit_of(rest)?;
        limits.push(limit)?;
        rest = after;
    }
    Ok(rest)
}

/// The table of limits, which version 1 has not, from where the bytes before it end, into a list that has none yet.
#[tactic(auto, unfolding(cse_image_parts::specs::Reader::then_at, cse_image_parts::specs::Reader::done, cse_image_parts::specs::Reader::counted, crate::specs::Reading::limits_at))]
pub fn limits_of<'a>(
    version: Version,
    limits: &mut Vec<u32>,
    bytes: Result<&'a [u8], ReadStop>,
) -> Result<&'a [u8], ReadStop>
    requires { limits.old.items ≡ [] }
    ensures exact { IfOk bytes.entry (λ b. Gives (λ x. (limits.new.items, x.now)) result (limits_at version b.now)) }
    ensures stopped { IfErr bytes.entry (λ e. result ≡ Err e) }
{
    match version {
        Version::One => bytes,
        Version::Two => {
            let (count, rest) = count_at(MOST_LIMITS, bytes?)?;
            limits_in(limits, count, rest)
        }
    }
}

/// The characters of a text.
#[tactic(auto, unfolding(cse_image_parts::specs::Reader::checked, crate::specs::Reading::characters_at))]
fn characters_of(len: u16, bytes: &[u8]) -> Result<(&str, &[u8]), FieldFault>
    ensures { GivesFault (λ x. (x.0.now, x.1.now)) result (characters_at len bytes.now) }
{
    let (text, rest) = bytes_at(len as usize, bytes)?;
    let Some(text) = plain_text(text) else {
        return Err(broken(Rule::Form, bytes));
    };
    if !is_short_text(text) {
        return Err(broken(Rule::Limit, bytes));
    }
    Ok((text, rest))
}

/// A text: its length in bytes, in two, then the bytes of its UTF-8.
impl Readable for String {
    ghost Seen = { List ℕ };

    ghost seen = { string_bytes };

    ghost reader = { λ _. text_at };

    #[tactic(auto, unfolding(cse_image_parts::specs::Reader::then_at, cse_image_parts::specs::Reader::done, crate::specs::Reading::text_at))]
    fn read<'a>(
        alloc: Global,
        _before: &[Self],
        bytes: &'a [u8],
    ) -> Result<(Self, &'a [u8]), ReadStop> {
        let (len, rest) = u16_at(bytes)?;
        let (text, rest) = characters_of(len, rest)?;
        Ok((String::from_str(alloc, text)?, rest))
    }
}

#[tactic(auto, unfolding(cse_image_parts::specs::Reader::decoded))]
fn global_kind_of(bytes: &[u8]) -> Result<(GlobalKind, &[u8]), FieldFault>
    ensures { GivesFault (λ x. (x.0, x.1.now)) result (decoded Form kind_of (number 1) bytes.now) }
{
    let (code, rest) = u8_at(bytes)?;
    match global_kind_named(code) {
        Some(kind) => Ok((kind, rest)),
        None => Err(broken(Rule::Form, bytes)),
    }
}

#[tactic(auto, unfolding(cse_image_parts::specs::Reader::checked))]
fn global_length_of(kind: GlobalKind, bytes: &[u8]) -> Result<(u16, &[u8]), FieldFault>
    ensures { GivesFault (λ x. (x.0, x.1.now)) result (checked Form (fits_global_length kind) (number 2) bytes.now) }
{
    let (length, rest) = u16_at(bytes)?;
    if !is_right_global_length(kind, length) {
        return Err(broken(Rule::Form, bytes));
    }
    Ok((length, rest))
}

/// A global: four bytes.
impl Readable for GlobalVariable {
    ghost Seen = { Self };

    ghost seen = { λ x. x };

    ghost reader = { λ _. global_at };

    #[tactic(auto, unfolding(cse_image_parts::specs::Reader::then_at, cse_image_parts::specs::Reader::done, crate::specs::Reading::zero_at, crate::specs::Reading::global_at))]
    fn read<'a>(
        _alloc: Global,
        _before: &[Self],
        bytes: &'a [u8],
    ) -> Result<(Self, &'a [u8]), ReadStop> {
        let (kind, rest) = global_kind_of(bytes)?;
        let (_, rest) = zero_u8_at(rest)?;
        let (length, rest) = global_length_of(kind, rest)?;
        Ok((GlobalVariable { kind, length }, rest))
    }
}

/// A message: its number, whether it is a summary, then its text.
impl Readable for Message {
    ghost Seen = { MessageLists };

    ghost seen = { message_lists };

    ghost reader = { λ _. message_at };

    #[tactic(auto, unfolding(cse_image_parts::specs::Reader::then_at, cse_image_parts::specs::Reader::done, cse_image_parts::specs::Reader::checked, crate::specs::Reading::zero_at, crate::specs::Reading::message_at))]
    fn read<'a>(
        alloc: Global,
        _before: &[Self],
        bytes: &'a [u8],
    ) -> Result<(Self, &'a [u8]), ReadStop> {
        let (number, rest) = u32_at(bytes)?;
        let (summary, rest) = flag_of(rest)?;
        let (_, rest) = zero_u8_at(rest)?;
        let (len, rest) = u16_at(rest)?;
        let (text, after) = characters_of(len, rest)?;
        if !are_few_placeholders(text.as_bytes()) {
            return Err(ReadStop::from(broken(Rule::Limit, rest)));
        }
        Ok((
            Message {
                number,
                summary,
                text: String::from_str(alloc, text)?,
            },
            after,
        ))
    }
}
