//! The events of a program, in ascending order of code and index.

ghost use Rattle.std.specs.Prelude.{◌≡◌, ◌+◌, ◌≤◌, ◌++◌, [], map, length, OnOk, IfOk};
ghost use Rattle.std.specs.Option.{option_copied};
ghost use Rattle.cse_compile.specs.Events as spec;
ghost use Rattle.cse_compile.specs.Outline.{handler};

use crate::outlines::Handler;
use cse_image_parts::codes::event_code_number;
use cse_image_parts::entries::{Event, EventCode, EventEntry};
use indexmap::IndexMap;
use std::alloc::{AllocError, Global};
use std::marker::Model;

/// Which routine an event runs, looked up by the event's code and index.
#[derive(Drop)]
pub struct EventTable {
    table: IndexMap<(u8, u16), u32>,
}

impl Model for EventTable {
    ghost use Rattle.cse_compile.specs.Events.{Table};

    ghost Value = { Table };

    ghost view = { λ t. t.table.entries };
}

impl EventTable {
    fn new(alloc: Global) -> EventTable
        ensures { result ≡ [] }
    {
        EventTable {
            table: IndexMap::new(alloc),
        }
    }

    fn add(&mut self, event: Event, routine: u32) -> Result<(), AllocError>
        ensures { OnOk result (self.new ≡ spec.with_event self.old event routine) }
    {
        self.table
            .insert((event_code_number(event.code), event.index), routine)?;
        Ok(())
    }

    fn routine_of(&self, code: EventCode, index: u16) -> Option<u32>
        ensures { result ≡ spec.routine_at self.now code index }
    {
        self.table.get(&(event_code_number(code), index)).copied()
    }

    fn add_entry(
        &self,
        events: &mut Vec<EventEntry>,
        code: EventCode,
        index: u16,
    ) -> Result<(), AllocError>
        ensures { OnOk result (events.new.items ≡ events.old.items ++ spec.entry_at self.now code index) }
    {
        if let Some(routine) = self.routine_of(code, index) {
            events.push(EventEntry {
                code,
                index,
                routine,
            })?;
        }
        Ok(())
    }

    fn add_entries(
        &self,
        events: &mut Vec<EventEntry>,
        code: EventCode,
        count: u16,
    ) -> Result<(), AllocError>
        ensures { OnOk result (events.new.items ≡ events.old.items ++ spec.entries_below self.now code count) }
    {
        'all: for index in 0..count {
            self.add_entry(events, code, index)?;
        }
        Ok(())
    }

    /// The events that have a routine, by code and then by index, for so many records and items.
    pub fn entries(
        &self,
        alloc: Global,
        records: u16,
        items: u16,
    ) -> Result<Vec<EventEntry>, AllocError>
        ensures { IfOk result (λ v. v.items ≡ spec.entries_in self.now records items) }
    {
        let mut events = Vec::new(alloc);
        self.add_entries(&mut events, EventCode::ApplicationPreproc, 1)?;
        self.add_entries(&mut events, EventCode::ApplicationPostproc, 1)?;
        self.add_entries(&mut events, EventCode::LevelPreproc, 1)?;
        self.add_entries(&mut events, EventCode::LevelPostproc, 1)?;
        self.add_entries(&mut events, EventCode::RecordPreproc, records)?;
        self.add_entries(&mut events, EventCode::RecordPostproc, records)?;
        self.add_entries(&mut events, EventCode::ItemPreproc, items)?;
        self.add_entries(&mut events, EventCode::ItemPostproc, items)?;
        Ok(events)
    }
}

/// The events of the handlers, which are the routines from number `first` on.
pub fn event_table(
    alloc: Global,
    first: u32,
    handlers: &[Handler],
) -> Result<EventTable, AllocError>
    requires { first + length handlers.now ≤ 4294967295 }
    ensures { IfOk result (λ t. t ≡ spec.table_from [] first (map handler handlers.now)) }
{
    let mut table = EventTable::new(alloc);
    let mut routine = first;
    'all: for written in handlers {
        table.add(written.event, routine)?;
        routine += 1;
    }
    Ok(table)
}
