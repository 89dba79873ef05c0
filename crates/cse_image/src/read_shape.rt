//! The header, and the entries that tell a dictionary's shape: records, items and value sets.

ghost use Rattle.cse_image_parts.specs.Reader.{GivesFault, number, decoded};
ghost use Rattle.cse_image_parts.specs.declared.fault.Rule.TheVariants.{Form};
ghost use Rattle.cse_image_parts.specs.Codes.{item_kind_of as kind_of};
ghost use Rattle.cse_image.specs.Reading.{flag_at, header_at, record_at, item_at, set_at};

use crate::read_entries::Readable;
use cse_image_parts::codes::{flag_named, item_kind_named};
use cse_image_parts::version::{Version, version_named};
use cse_image_parts::{
    FieldFault, ReadStop, Rule, broken, bytes_at, ended, u8_at, u16_at, u32_at, zero_u16_at,
    zero_u24_at,
};
use cse_value::shape::{ItemKind, ItemShape, RecordShape, SetShape};
use std::alloc::Global;

/// A byte that is 0 or 1.
#[tactic(auto, unfolding(cse_image_parts::specs::Reader::decoded, crate::specs::Reading::flag_at))]
pub fn flag_of(bytes: &[u8]) -> Result<(bool, &[u8]), FieldFault>
    ensures { GivesFault (λ x. (x.0, x.1.now)) result (flag_at bytes.now) }
{
    let (code, rest) = u8_at(bytes)?;
    match flag_named(code) {
        Some(flag) => Ok((flag, rest)),
        None => Err(broken(Rule::Form, bytes)),
    }
}

/// The version.
#[tactic(auto, unfolding(cse_image_parts::specs::Reader::checked, cse_image_parts::specs::Reader::decoded, cse_image_parts::specs::Reader::then_at, cse_image_parts::specs::Reader::done, cse_image_parts::specs::Reader::whole, crate::specs::Reading::zero_at, crate::specs::Reading::header_at))]
pub fn header_of(bytes: &[u8]) -> Result<(Version, &[u8]), FieldFault>
    ensures { GivesFault (λ x. (x.0, x.1.now)) result (header_at bytes.now) }
{
    if bytes.len() < 8 {
        return Err(ended());
    }
    let (magic, after_magic) = bytes_at(4, bytes)?;
    if magic != b"CSEB".as_slice() {
        return Err(broken(Rule::Header, bytes));
    }
    let (code, after_version) = u16_at(after_magic)?;
    let Some(version) = version_named(code) else {
        return Err(broken(Rule::Header, after_magic));
    };
    let (_, rest) = zero_u16_at(after_version)?;
    Ok((version, rest))
}

/// A record: eight bytes.
impl Readable for RecordShape {
    ghost Seen = { Self };

    ghost seen = { λ x. x };

    ghost reader = { λ _. record_at };

    #[tactic(auto, unfolding(cse_image_parts::specs::Reader::then_at, cse_image_parts::specs::Reader::done, crate::specs::Reading::zero_at, crate::specs::Reading::record_at))]
    fn read<'a>(
        _alloc: Global,
        _before: &[Self],
        bytes: &'a [u8],
    ) -> Result<(Self, &'a [u8]), ReadStop> {
        let (max_records, rest) = u16_at(bytes)?;
        let (_, rest) = zero_u16_at(rest)?;
        let (record_len, rest) = u32_at(rest)?;
        Ok((
            RecordShape {
                max_records,
                record_len,
            },
            rest,
        ))
    }
}

#[tactic(auto, unfolding(cse_image_parts::specs::Reader::decoded))]
fn item_kind_of(bytes: &[u8]) -> Result<(ItemKind, &[u8]), FieldFault>
    ensures { GivesFault (λ x. (x.0, x.1.now)) result (decoded Form kind_of (number 1) bytes.now) }
{
    let (code, rest) = u8_at(bytes)?;
    match item_kind_named(code) {
        Some(kind) => Ok((kind, rest)),
        None => Err(broken(Rule::Form, bytes)),
    }
}

/// An item: eight bytes.
impl Readable for ItemShape {
    ghost Seen = { Self };

    ghost seen = { λ x. x };

    ghost reader = { λ _. item_at };

    #[tactic(auto, unfolding(cse_image_parts::specs::Reader::then_at, cse_image_parts::specs::Reader::done, crate::specs::Reading::item_at))]
    fn read<'a>(
        _alloc: Global,
        _before: &[Self],
        bytes: &'a [u8],
    ) -> Result<(Self, &'a [u8]), ReadStop> {
        let (owner, rest) = u8_at(bytes)?;
        let (kind, rest) = item_kind_of(rest)?;
        let (len, rest) = u16_at(rest)?;
        let (start, rest) = u32_at(rest)?;
        Ok((
            ItemShape {
                owner,
                kind,
                len,
                start,
            },
            rest,
        ))
    }
}

/// A value set: eight bytes.
impl Readable for SetShape {
    ghost Seen = { Self };

    ghost seen = { λ x. x };

    ghost reader = { λ _. set_at };

    #[tactic(auto, unfolding(cse_image_parts::specs::Reader::then_at, cse_image_parts::specs::Reader::done, crate::specs::Reading::zero_at, crate::specs::Reading::set_at))]
    fn read<'a>(
        _alloc: Global,
        _before: &[Self],
        bytes: &'a [u8],
    ) -> Result<(Self, &'a [u8]), ReadStop> {
        let (item, rest) = u16_at(bytes)?;
        let (rows, rest) = u16_at(rest)?;
        let (partial, rest) = flag_of(rest)?;
        let (_, rest) = zero_u24_at(rest)?;
        Ok((
            SetShape {
                item,
                rows,
                partial,
            },
            rest,
        ))
    }
}
