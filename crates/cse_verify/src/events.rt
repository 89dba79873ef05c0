//! The steps of the events of a case and of the application.

ghost use Rattle.std.specs.Prelude.{◌≡◌, ◌*◌, ◌^◌, ◌<◌, ◌≤◌, List, ℕ, length, slice_index, EachIndex, IfSome, IfNone, IsTrue};
ghost use Rattle.cse_image_parts.specs.Image.{lists_of};
ghost use Rattle.cse_code_typing.specs.Order.{all_events_fit};
ghost use Rattle.cse_code_typing.specs.Shapes.{shape_of};
ghost use Rattle.cse_verify.specs.Limit.{step_limit};
ghost use Rattle.cse_verify.specs.Bound.{bounds_below, AreBoundedBelow};
ghost use Rattle.cse_verify.specs.EventBound.{most_of_item, times_in_case, times_in_run, case_bound, run_bound};
ghost use Rattle.cse_verify.specs.Running.{case_sum, run_sum};

use crate::limits::STEP_LIMIT;
use cse_image::{Code, EventCode, EventEntry, Program, Tables};

/// The most occurrences of the record of an item.
fn most_of_item(tables: &Tables, item: u16) -> u16
    ensures { result ≡ most_of_item (lists_of tables.now) item }
{
    match tables.items.get(item as usize) {
        Some(shape) => match tables.records.get(shape.owner as usize) {
            Some(record) => record.max_records,
            None => 0,
        },
        None => 0,
    }
}

/// How often an event may come in a case.
fn times_in_case(tables: &Tables, code: EventCode, index: u16) -> u16
    ensures { result ≡ times_in_case (lists_of tables.now) code index }
{
    match code {
        EventCode::ApplicationPreproc => 0,
        EventCode::ApplicationPostproc => 0,
        EventCode::LevelPreproc => 1,
        EventCode::LevelPostproc => 1,
        EventCode::RecordPreproc => 1,
        EventCode::RecordPostproc => 1,
        EventCode::ItemPreproc => most_of_item(tables, index),
        EventCode::ItemPostproc => most_of_item(tables, index),
    }
}

/// How often an event comes in the application's preproc and postproc.
fn times_in_run(code: EventCode) -> u16
    ensures value { result ≡ times_in_run code }
    ensures once { result ≤ 1 }
{
    match code {
        EventCode::ApplicationPreproc => 1,
        EventCode::ApplicationPostproc => 1,
        EventCode::LevelPreproc => 0,
        EventCode::LevelPostproc => 0,
        EventCode::RecordPreproc => 0,
        EventCode::RecordPostproc => 0,
        EventCode::ItemPreproc => 0,
        EventCode::ItemPostproc => 0,
    }
}

/// The bound of a routine; 0 where there is no such routine.
fn bound_at(bounds: &[u64], routine: u32) -> u64
    requires { EachIndex bounds.now (λ r. slice_index bounds.now r ≤ step_limit) }
    ensures value { result ≡ slice_index bounds.now routine }
    ensures small { result ≤ step_limit }
{
    match bounds.get(routine as usize) {
        Some(bound) => *bound,
        None => 0,
    }
}

/// The sum over the events of a case, where it keeps to the limit.
fn sum_of_case(tables: &Tables, bounds: &[u64]) -> Option<u64>
    requires { EachIndex bounds.now (λ r. slice_index bounds.now r ≤ step_limit) }
    ensures value { IfSome result (λ n. n ≡ case_sum (lists_of tables.now) bounds.now) }
    ensures small { IfSome result (λ n. n ≤ step_limit) }
    ensures too_many { IfNone result (step_limit < case_sum (lists_of tables.now) bounds.now) }
{
    let mut total = 0;
    'events: for event in &tables.events {
        let times = times_in_case(tables, event.code, event.index);
        let sum = total as u128 + times as u128 * bound_at(bounds, event.routine) as u128;
        if sum > STEP_LIMIT as u128 {
            return None;
        }
        total = sum as u64;
    }
    Some(total)
}

/// The sum over the application's events.
fn sum_of_run(events: &[EventEntry], bounds: &[u64]) -> u64
    requires small { EachIndex bounds.now (λ r. slice_index bounds.now r ≤ step_limit) }
    requires fits { run_sum events.now bounds.now < 2 ^ 64 }
    ensures { result ≡ run_sum events.now bounds.now }
{
    let mut total = 0;
    'events: for event in events {
        total += times_in_run(event.code) as u64 * bound_at(bounds, event.routine);
    }
    total
}

/// The most steps that the events of a case may take together, by the bounds of the routines; or none
/// where they are above the limit. Takes no memory.
pub fn case_steps<C: Code>(program: &Program<C>, bounds: &[u64]) -> Option<u64>
    requires bounds { bounds.now ≡ bounds_below program.now (length program.now.lists.routines) }
    requires bounded { AreBoundedBelow program.now (length program.now.lists.routines) }
    ensures value { IfSome result (λ n. n ≡ case_bound program.now) }
    ensures small { IfSome result (λ n. n ≤ step_limit) }
    ensures too_many { IfNone result (step_limit < case_bound program.now) }
{
    sum_of_case(program.tables(), bounds)
}

/// The most steps that the application's events, which fit, may take together, by the bounds of the
/// routines. Takes no memory.
pub fn run_steps<C: Code>(program: &Program<C>, bounds: &[u64]) -> u64
    requires bounds { bounds.now ≡ bounds_below program.now (length program.now.lists.routines) }
    requires bounded { AreBoundedBelow program.now (length program.now.lists.routines) }
    requires events { IsTrue (all_events_fit (shape_of program.now) program.now.lists) }
    ensures { result ≡ run_bound program.now }
{
    sum_of_run(&program.tables().events, bounds)
}
