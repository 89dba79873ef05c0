//! Which routine an event runs.

ghost use Rattle.std.specs.Prelude.{◌≡◌, ◌<◌, ◌≤◌, ℕ, Some, length, slice_get};
ghost use Rattle.cse_image_parts.specs.declared.entries.EventEntry.{EventEntry as Entry};
ghost use Rattle.cse_code_typing.specs.Handlers.{is_of, routine_of, event_order};

use cse_image::{Code, Program};
use cse_image_parts::codes::event_code_number;
use cse_image_parts::entries::{Event, EventCode, EventEntry};

/// Events stand by code, and then by index.
fn event_order(code: EventCode, index: u16) -> u32
    ensures { result ≡ event_order code index }
{
    event_code_number(code) as u32 * 65_536 + index as u32
}

fn is_of(event: Event, entry: EventEntry) -> bool
    ensures { result ≡ is_of event entry }
{
    event_code_number(entry.code) == event_code_number(event.code) && entry.index == event.index
}

fn entry_at(events: &[EventEntry], i: usize) -> Option<EventEntry>
    ensures { result ≡ slice_get events.now i }
{
    events.get(i).copied()
}

/// How many of the entries, which ascend, stand before this order. Takes time that grows with the
/// logarithm of how many there are.
fn place_of(events: &[EventEntry], order: u32) -> usize
    requires { (j k : ℕ) (a b : Entry) → slice_get events.now j ≡ Some a → slice_get events.now k ≡ Some b → j < k
        → event_order a.code a.index < event_order b.code b.index }
    ensures before { (k : ℕ) (a : Entry) → slice_get events.now k ≡ Some a → k < result → event_order a.code a.index < order }
    ensures after { (k : ℕ) (a : Entry) → slice_get events.now k ≡ Some a → result ≤ k → order ≤ event_order a.code a.index }
    ensures within { result ≤ length events.now }
{
    let mut from = 0;
    let mut to = events.len();
    'halves: while from < to {
        let middle = from + (to - from) / 2;
        let Some(entry) = entry_at(events, middle) else {
            unreachable!()
        };
        if event_order(entry.code, entry.index) < order {
            from = middle + 1;
        } else {
            to = middle;
        }
    }
    from
}

/// The routine that an event of a program runs; none, where the program has none for it. Takes no
/// memory, and time that grows with the logarithm of how many events there are.
pub fn routine_of<C: Code>(program: &Program<C>, event: Event) -> Option<u32>
    ensures { result ≡ routine_of program.now.lists.events event }
{
    let _ascend = program.tables();
    let events = program.events();
    let place = place_of(events, event_order(event.code, event.index));
    let entry = entry_at(events, place)?;
    if is_of(event, entry) {
        Some(entry.routine)
    } else {
        None
    }
}
