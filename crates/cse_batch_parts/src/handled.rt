//! The events of a case that a program has a routine for, found once before the first case.

ghost use Rattle.std.specs.Prelude.{◌≡◌, ◌++◌, ◌<◌, [], ◌∷◌, IfOk, OnOk, filter, length, map};
ghost use Rattle.std.specs.List.{AllByRecursion, filter_map};
ghost use Rattle.cse_verify.specs.CaseEvents.{event};
ghost use Rattle.cse_dict.specs.Dictionary.{shape_of};
ghost use Rattle.cse_steps.specs.Handled.{handled_by};
ghost use Rattle.cse_batch_parts.specs.Handled.{AreHandled, IsHandledRecord, handled_items, is_handled, number_of};
ghost use Rattle.cse_verify.specs.Verified.{VerifiedProgram};

use crate::parts::{items_of, order_of};
use cse_image::{Code, Event, EventCode};
use cse_steps::handled::Handled;
use cse_verify::Verified;
use std::alloc::{AllocError, Global};

/// The events of a record and of its items that have a routine.
#[derive(Drop)]
pub(crate) struct HandledRecord {
    pub(crate) number: u16,
    /// Its preproc, if it has one.
    pub(crate) preproc: Option<Handled>,
    /// The events of its items that have one, in the order in which they run.
    pub(crate) items: Vec<Handled>,
    /// Its postproc, if it has one.
    pub(crate) postproc: Option<Handled>,
}

/// The events of a case that have a routine.
#[derive(Drop)]
pub(crate) struct HandledEvents {
    /// The preproc of the level, if it has one.
    pub(crate) preproc: Option<Handled>,
    /// The records that have one, or whose items do, in edit order.
    pub(crate) records: Vec<HandledRecord>,
    /// The postproc of the level, if it has one.
    pub(crate) postproc: Option<Handled>,
}

/// An event with its routine, if the program has one for it.
fn handled_event<C: Code>(
    verified: &Verified<'_, C>,
    code: EventCode,
    index: u16,
) -> Option<Handled>
    ensures { result ≡ handled_by verified.now.image (event code index) }
{
    Handled::of(verified, Event { code, index })
}

/// Puts an event behind others, if the program has a routine for it.
fn put_handled<C: Code>(
    verified: &Verified<'_, C>,
    events: &mut Vec<Handled>,
    code: EventCode,
    index: u16,
) -> Result<(), AllocError>
    ensures { OnOk result (events.new.items ≡ events.old.items ++ filter_map (handled_by verified.now.image) (event code index ∷ [])) }
{
    if let Some(handled) = handled_event(verified, code, index) {
        events.push(handled)?;
    }
    Ok(())
}

/// The events of the items of a record that have a routine, in order.
fn events_of_items<C: Code>(
    alloc: Global,
    verified: &Verified<'_, C>,
    number: u16,
) -> Result<Vec<Handled>, AllocError>
    ensures { IfOk result (λ events. events.items ≡ handled_items verified.now.image number) }
{
    let items = items_of(verified);
    let mut events = Vec::new(alloc);
    'items: for item in 0..items.len() {
        if u16::from(items[item].owner) == number {
            put_handled(verified, &mut events, EventCode::ItemPreproc, item as u16)?;
            put_handled(verified, &mut events, EventCode::ItemPostproc, item as u16)?;
        }
    }
    Ok(events)
}

/// The events of a record that have a routine.
fn handled_record<C: Code>(
    alloc: Global,
    verified: &Verified<'_, C>,
    number: u16,
) -> Result<HandledRecord, AllocError>
    requires { number < length (shape_of verified.now.dictionary).records }
    ensures number { IfOk result (λ r. r.number ≡ number) }
    ensures handled { IfOk result (IsHandledRecord verified.now) }
{
    Ok(HandledRecord {
        number,
        preproc: handled_event(verified, EventCode::RecordPreproc, number),
        items: events_of_items(alloc, verified, number)?,
        postproc: handled_event(verified, EventCode::RecordPostproc, number),
    })
}

/// Whether an event of a record or of its items has a routine.
fn is_handled(handled: &HandledRecord) -> bool
    ensures { (v : VerifiedProgram) → IsHandledRecord v handled.now → result ≡ is_handled v.image handled.now.number }
{
    handled.preproc.is_some() || 0 < handled.items.len() || handled.postproc.is_some()
}

/// The events of the records that have a routine, in edit order; a record without one isn't among them.
fn handled_records<C: Code>(
    alloc: Global,
    verified: &Verified<'_, C>,
) -> Result<Vec<HandledRecord>, AllocError>
    ensures numbers { IfOk result (λ records. map number_of records.items ≡ filter (is_handled verified.now.image) verified.now.image.lists.order) }
    ensures each { IfOk result (λ records. AllByRecursion (IsHandledRecord verified.now) records.items) }
{
    let order = order_of(verified);
    let mut records = Vec::with_capacity(alloc, order.len())?;
    'records: for number in order {
        let record = handled_record(alloc, verified, *number as u16)?;
        if is_handled(&record) {
            records.push(record)?;
        }
    }
    Ok(records)
}

/// The events of a case that have a routine.
pub(crate) fn handled_events<C: Code>(
    alloc: Global,
    verified: &Verified<'_, C>,
) -> Result<HandledEvents, AllocError>
    ensures { IfOk result (AreHandled verified.now) }
{
    Ok(HandledEvents {
        preproc: handled_event(verified, EventCode::LevelPreproc, 0),
        records: handled_records(alloc, verified)?,
        postproc: handled_event(verified, EventCode::LevelPostproc, 0),
    })
}
