//! The section of routines, and events.

ghost use Rattle.std.specs.Prelude.{◌≡◌, ◌≤◌, ◌+◌, [], Err, IfOk, IfErr, OnOk, map, length};
ghost use Rattle.cse_image_parts.specs.Reader.{Gives, GivesFault, number, checked, decoded, many, counted};
ghost use Rattle.cse_image_parts.specs.declared.fault.Rule.TheVariants.{Form, Limit};
ghost use Rattle.cse_image_parts.specs.Versions.{may_give as spec_may_give};
ghost use Rattle.cse_image_parts.specs.Codes.{ambient_of as spec_ambient_of, gift_of as spec_gift_of, event_code_of as spec_event_code_of, local_kind_of as spec_local_kind_of};
ghost use Rattle.cse_image_parts.specs.Image.{routine_lists};
ghost use Rattle.cse_image_parts.specs.Fields.{fits_kind, fits_owner, fits_local_length, are_locals, instructions_in, is_room_for_code, last_event, is_after};
ghost use Rattle.cse_image.specs.Reading.{local_at, routine_at, event_at};

use crate::read_entries::Readable;
use cse_image_parts::codes::{ambient_named, event_code_named, gift_named, local_kind_named};
use cse_image_parts::entries::{Ambient, EventCode, EventEntry, Gift, Local, LocalKind, Routine};
use cse_image_parts::limits::{MOST_INSTRUCTIONS, MOST_ROUTINES};
use cse_image_parts::rules::{
    comes_after, has_parameters, has_room_for_code, is_right_kind, is_right_local_length,
    is_right_owner, last_of,
};
use cse_image_parts::version::{Version, may_give};
use cse_image_parts::{
    FieldFault, ReadStop, Rule, broken, count_at, u8_at, u16_at, u32_at, zero_u8_at,
};
use std::alloc::Global;

/// The kind of the local at this place, from 0, beside so many parameters.
#[tactic(auto, unfolding(cse_image_parts::specs::Reader::checked, cse_image_parts::specs::Reader::decoded))]
fn local_kind_of(parameters: u8, index: u8, bytes: &[u8]) -> Result<(LocalKind, &[u8]), FieldFault>
    ensures { GivesFault (λ x. (x.0, x.1.now)) result (checked Form (fits_kind parameters index) (decoded Form spec_local_kind_of (number 1)) bytes.now) }
{
    let (code, rest) = u8_at(bytes)?;
    let Some(kind) = local_kind_named(code) else {
        return Err(broken(Rule::Form, bytes));
    };
    if !is_right_kind(parameters, index, kind) {
        return Err(broken(Rule::Form, bytes));
    }
    Ok((kind, rest))
}

#[tactic(auto, unfolding(cse_image_parts::specs::Reader::checked))]
fn owner_of(kind: LocalKind, bytes: &[u8]) -> Result<(u8, &[u8]), FieldFault>
    ensures { GivesFault (λ x. (x.0, x.1.now)) result (checked Form (fits_owner kind) (number 1) bytes.now) }
{
    let (owner, rest) = u8_at(bytes)?;
    if !is_right_owner(kind, owner) {
        return Err(broken(Rule::Form, bytes));
    }
    Ok((owner, rest))
}

#[tactic(auto, unfolding(cse_image_parts::specs::Reader::checked))]
fn local_length_of(kind: LocalKind, bytes: &[u8]) -> Result<(u16, &[u8]), FieldFault>
    ensures { GivesFault (λ x. (x.0, x.1.now)) result (checked Form (fits_local_length kind) (number 2) bytes.now) }
{
    let (length, rest) = u16_at(bytes)?;
    if !is_right_local_length(kind, length) {
        return Err(broken(Rule::Form, bytes));
    }
    Ok((length, rest))
}

#[tactic(auto, unfolding(cse_image_parts::specs::Reader::then_at, cse_image_parts::specs::Reader::done, crate::specs::Reading::local_at))]
fn local_of(parameters: u8, index: u8, bytes: &[u8]) -> Result<(Local, &[u8]), FieldFault>
    ensures { GivesFault (λ x. (x.0, x.1.now)) result (local_at parameters index bytes.now) }
{
    let (kind, rest) = local_kind_of(parameters, index, bytes)?;
    let (owner, rest) = owner_of(kind, rest)?;
    let (length, rest) = local_length_of(kind, rest)?;
    Ok((
        Local {
            kind,
            owner,
            length,
        },
        rest,
    ))
}

fn locals_in(
    alloc: Global,
    parameters: u8,
    count: u8,
    bytes: &[u8],
) -> Result<(Vec<Local>, &[u8]), ReadStop>
    ensures { Gives (λ x. (x.0.items, x.1.now)) result (many (λ before. local_at parameters (length before)) [] count bytes.now) }
{
    let mut locals = Vec::new(alloc);
    let mut rest = bytes;
    for index in 0..count {
        let (local, after) = local_of(parameters, index, rest)?;
        locals.push(local)?;
        rest = after;
    }
    Ok((locals, rest))
}

#[tactic(auto, unfolding(cse_image_parts::specs::Reader::decoded))]
fn ambient_of(bytes: &[u8]) -> Result<(Ambient, &[u8]), FieldFault>
    ensures { GivesFault (λ x. (x.0, x.1.now)) result (decoded Form spec_ambient_of (number 1) bytes.now) }
{
    let (code, rest) = u8_at(bytes)?;
    match ambient_named(code) {
        Some(ambient) => Ok((ambient, rest)),
        None => Err(broken(Rule::Form, bytes)),
    }
}

/// What a routine gives: a text from version 2 on.
#[tactic(auto, unfolding(cse_image_parts::specs::Reader::checked, cse_image_parts::specs::Reader::decoded))]
fn gift_of(version: Version, bytes: &[u8]) -> Result<(Gift, &[u8]), FieldFault>
    ensures { GivesFault (λ x. (x.0, x.1.now)) result (checked Form (spec_may_give version) (decoded Form spec_gift_of (number 1)) bytes.now) }
{
    let (code, rest) = u8_at(bytes)?;
    let Some(gives) = gift_named(code) else {
        return Err(broken(Rule::Form, bytes));
    };
    if !may_give(version, gives) {
        return Err(broken(Rule::Form, bytes));
    }
    Ok((gives, rest))
}

/// The count of the locals, among which are so many parameters.
#[tactic(auto, unfolding(cse_image_parts::specs::Reader::checked))]
fn local_count_of(parameters: u8, bytes: &[u8]) -> Result<(u8, &[u8]), FieldFault>
    ensures { GivesFault (λ x. (x.0, x.1.now)) result (checked Form (are_locals parameters) (number 1) bytes.now) }
{
    let (count, rest) = u8_at(bytes)?;
    if !has_parameters(parameters, count) {
        return Err(broken(Rule::Form, bytes));
    }
    Ok((count, rest))
}

/// The count of a routine's instructions, after routines of so many together.
#[tactic(auto, unfolding(cse_image_parts::specs::Reader::checked))]
fn instruction_count_of(before: u32, bytes: &[u8]) -> Result<(u32, &[u8]), FieldFault>
    requires { before ≤ MOST_INSTRUCTIONS }
    ensures exact { GivesFault (λ x. (x.0, x.1.now)) result (checked Limit (is_room_for_code before) (number 4) bytes.now) }
    ensures room { IfOk result (λ x. before + x.0 ≤ MOST_INSTRUCTIONS) }
{
    let (count, rest) = u32_at(bytes)?;
    if !has_room_for_code(before, count) {
        return Err(broken(Rule::Limit, bytes));
    }
    Ok((count, rest))
}

/// A routine, after routines of so many instructions together.
#[tactic(auto, unfolding(cse_image_parts::specs::Reader::then_at, cse_image_parts::specs::Reader::done, crate::specs::Reading::routine_at))]
fn routine_of(
    alloc: Global,
    version: Version,
    before: u32,
    bytes: &[u8],
) -> Result<(Routine, &[u8]), ReadStop>
    requires { before ≤ MOST_INSTRUCTIONS }
    ensures exact { Gives (λ x. (routine_lists x.0, x.1.now)) result (routine_at version before bytes.now) }
    ensures room { IfOk result (λ x. before + x.0.instructions ≤ MOST_INSTRUCTIONS) }
{
    let (ambient, rest) = ambient_of(bytes)?;
    let (gives, rest) = gift_of(version, rest)?;
    let (parameters, rest) = u8_at(rest)?;
    let (count, rest) = local_count_of(parameters, rest)?;
    let (locals, rest) = locals_in(alloc, parameters, count, rest)?;
    let (instructions, rest) = instruction_count_of(before, rest)?;
    Ok((
        Routine {
            ambient,
            gives,
            parameters,
            locals,
            instructions,
        },
        rest,
    ))
}

fn routines_in<'a>(
    alloc: Global,
    version: Version,
    routines: &mut Vec<Routine>,
    count: u32,
    bytes: &'a [u8],
) -> Result<&'a [u8], ReadStop>
    requires { routines.old.items ≡ [] }
    ensures exact { Gives (λ x. (map routine_lists routines.new.items, x.now)) result
        (many (λ before. routine_at version (instructions_in before)) [] count bytes.now) }
    ensures room { OnOk result (instructions_in (map routine_lists routines.new.items) ≤ MOST_INSTRUCTIONS) }
{
    let mut so_far = 0;
    let mut rest = bytes;
    for _ in 0..count {
        let (routine, after) = routine_of(alloc, version, so_far, rest)?;
        so_far += routine.instructions;
        routines.push(routine)?;
        rest = after;
    }
    Ok(rest)
}

/// The table of routines, from where the bytes before it end, into a list that has none yet: their count, then each; and
/// the bytes after it. Together they have no more instructions than a program may.
#[tactic(auto, unfolding(cse_image_parts::specs::Reader::then_at, cse_image_parts::specs::Reader::counted))]
pub fn routines_of<'a>(
    alloc: Global,
    version: Version,
    routines: &mut Vec<Routine>,
    bytes: Result<&'a [u8], ReadStop>,
) -> Result<&'a [u8], ReadStop>
    requires { routines.old.items ≡ [] }
    ensures exact { IfOk bytes.entry (λ b. Gives (λ x. (map routine_lists routines.new.items, x.now)) result
        (counted MOST_ROUTINES (λ before. routine_at version (instructions_in before)) b.now)) }
    ensures stopped { IfErr bytes.entry (λ e. result ≡ Err e) }
    ensures room { OnOk result (instructions_in (map routine_lists routines.new.items) ≤ MOST_INSTRUCTIONS) }
{
    let (count, rest) = count_at(MOST_ROUTINES, bytes?)?;
    routines_in(alloc, version, routines, count, rest)
}

#[tactic(auto, unfolding(cse_image_parts::specs::Reader::decoded))]
fn event_code_of(bytes: &[u8]) -> Result<(EventCode, &[u8]), FieldFault>
    ensures { GivesFault (λ x. (x.0, x.1.now)) result (decoded Form spec_event_code_of (number 1) bytes.now) }
{
    let (number, rest) = u8_at(bytes)?;
    match event_code_named(number) {
        Some(code) => Ok((code, rest)),
        None => Err(broken(Rule::Form, bytes)),
    }
}

/// The index of an event with this code, after the event that was last.
#[tactic(auto, unfolding(cse_image_parts::specs::Reader::checked))]
fn event_index_of(
    last: Option<EventEntry>,
    code: EventCode,
    bytes: &[u8],
) -> Result<(u16, &[u8]), FieldFault>
    ensures { GivesFault (λ x. (x.0, x.1.now)) result (checked Form (is_after last code) (number 2) bytes.now) }
{
    let (index, rest) = u16_at(bytes)?;
    if !comes_after(last, code, index) {
        return Err(broken(Rule::Form, bytes));
    }
    Ok((index, rest))
}

/// An event, after the event that was last.
#[tactic(auto, unfolding(cse_image_parts::specs::Reader::then_at, cse_image_parts::specs::Reader::done, crate::specs::Reading::zero_at, crate::specs::Reading::event_at))]
fn event_of(last: Option<EventEntry>, bytes: &[u8]) -> Result<(EventEntry, &[u8]), FieldFault>
    ensures { GivesFault (λ x. (x.0, x.1.now)) result (event_at last bytes.now) }
{
    let (code, rest) = event_code_of(bytes)?;
    let (_, rest) = zero_u8_at(rest)?;
    let (index, rest) = event_index_of(last, code, rest)?;
    let (routine, rest) = u32_at(rest)?;
    Ok((
        EventEntry {
            code,
            index,
            routine,
        },
        rest,
    ))
}

/// An event: eight bytes.
impl Readable for EventEntry {
    ghost Seen = { Self };

    ghost seen = { λ x. x };

    ghost reader = { λ before. event_at (last_event before) };

    fn read<'a>(
        _alloc: Global,
        before: &[Self],
        bytes: &'a [u8],
    ) -> Result<(Self, &'a [u8]), ReadStop> {
        Ok(event_of(last_of(before), bytes)?)
    }
}
