//! The entries of an image's sections, a list for each section.

use crate::instruction::Instr;
use cse_value::shape::{ItemShape, RecordShape, SetShape};

/// The kind of a global's value.
#[derive(Clone, Copy)]
pub enum GlobalKind {
    Number = 1,
    Text = 2,
}

/// A variable that keeps its value over the whole run.
#[derive(Clone, Copy)]
pub struct GlobalVariable {
    pub kind: GlobalKind,
    /// The declared length of a text, in characters from 1 to 255; 0 for a number.
    pub length: u16,
}

/// The kind of a local's value.
#[derive(Clone, Copy)]
pub enum LocalKind {
    Number = 1,
    Text = 2,
    /// An occurrence of a record that is there.
    Occurrence = 3,
}

/// A variable of one call.
#[derive(Clone, Copy)]
pub struct Local {
    pub kind: LocalKind,
    /// The record of an occurrence; 0 for another kind.
    pub owner: u8,
    /// The declared length of a text, in characters from 1 to 255; 0 for another kind.
    pub length: u16,
}

/// An array of numbers, the last index fastest.
#[derive(Drop)]
pub struct Array {
    /// Its cells are kept from one run to the next.
    pub saved: bool,
    /// One to three sizes, each 1 at least.
    pub dimensions: Vec<u16>,
    pub name: String,
    /// The starting cells; those that lack start at 0.
    pub cells: Vec<i64>,
}

/// A message that code may list.
#[derive(Drop)]
pub struct Message {
    /// The number in the message file, or 0.
    pub number: u32,
    /// It is counted, and not listed.
    pub summary: bool,
    pub text: String,
}

/// What code of a routine may ask for.
#[derive(Clone, Copy)]
pub enum Ambient {
    /// What stays over the whole run.
    Run = 0,
    /// A case as well.
    Case = 1,
}

/// What a call of a routine leaves.
#[derive(Clone, Copy)]
pub enum Gift {
    Nothing = 0,
    Number = 1,
    /// From version 2 of the format on.
    Text = 2,
}

/// A routine, without its code.
#[derive(Drop)]
pub struct Routine {
    pub ambient: Ambient,
    pub gives: Gift,
    /// How many of the locals are parameters: they come first.
    pub parameters: u8,
    pub locals: Vec<Local>,
    /// How many instructions it has, 1 at least.
    pub instructions: u32,
}

/// The moments at which a batch runs a routine.
#[derive(Clone, Copy)]
pub enum EventCode {
    ApplicationPreproc = 0,
    ApplicationPostproc = 1,
    LevelPreproc = 2,
    LevelPostproc = 3,
    RecordPreproc = 4,
    RecordPostproc = 5,
    ItemPreproc = 6,
    ItemPostproc = 7,
}

/// A moment of a batch: of the application, the level, a record or an item.
#[derive(Clone, Copy)]
pub struct Event {
    pub code: EventCode,
    /// The number of the record or item, else 0.
    pub index: u16,
}

/// An event, and the routine that it runs.
#[derive(Clone, Copy)]
pub struct EventEntry {
    pub code: EventCode,
    /// The number of the record or item, else 0.
    pub index: u16,
    pub routine: u32,
}

/// All sections of an image after its header, one list each.
#[derive(Drop)]
pub struct Parts {
    pub records: Vec<RecordShape>,
    pub items: Vec<ItemShape>,
    pub sets: Vec<SetShape>,
    /// The records in edit order.
    pub order: Vec<u32>,
    pub constants: Vec<i64>,
    /// How many turns a counting loop may take, each 1 at least: a loop names its limit by the place.
    pub limits: Vec<u32>,
    pub texts: Vec<String>,
    pub globals: Vec<GlobalVariable>,
    pub arrays: Vec<Array>,
    pub messages: Vec<Message>,
    pub routines: Vec<Routine>,
    pub events: Vec<EventEntry>,
    /// The instructions of routine 0, then those of routine 1, and so on.
    pub code: Vec<Instr>,
}

/// All sections but the code.
pub struct Tables {
    pub records: Vec<RecordShape>,
    pub items: Vec<ItemShape>,
    pub sets: Vec<SetShape>,
    pub order: Vec<u32>,
    pub constants: Vec<i64>,
    pub limits: Vec<u32>,
    pub texts: Vec<String>,
    pub globals: Vec<GlobalVariable>,
    pub arrays: Vec<Array>,
    pub messages: Vec<Message>,
    pub routines: Vec<Routine>,
    pub events: Vec<EventEntry>,
}

// Written out, so that a crate that owns a program calls this drop and does not prove one for each section.
impl Drop for Tables {
    fn drop(self) {
        let Tables {
            records: _records,
            items: _items,
            sets: _sets,
            order: _order,
            constants: _constants,
            limits: _limits,
            texts: _texts,
            globals: _globals,
            arrays: _arrays,
            messages: _messages,
            routines: _routines,
            events: _events,
        } = self;
    }
}
