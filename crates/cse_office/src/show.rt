//! An image as text: the tables of a program, and its routines with their instructions.

use crate::fields::{put_fields, put_item, put_quoted, put_record};
use crate::names::Names;
use crate::op_names::op_name;
use crate::steps::Steps;
use crate::text::Text;
use cse_image::{
    Ambient, Array, Code, EventCode, EventEntry, Gift, GlobalKind, GlobalVariable, Instr, Message,
    Op, Program, Routine, Tables,
};
use std::alloc::Global;

/// Writes an instruction on a line, so far to the right as brackets are open around it.
fn put_instr(
    out: &mut Text,
    tables: &Tables,
    names: Option<&Names<'_>>,
    instr: Instr,
    place: usize,
    depth: usize,
) {
    out.put_counted("  ", place as u64);
    out.put(" ");
    for _ in 0..depth {
        out.put("  ");
    }
    out.put(op_name(instr.op));
    put_fields(out, tables, names, instr);
    out.put("\n");
}

/// Whether an instruction opens a bracket.
fn opens(op: Op) -> bool {
    op == Op::LoopCount || op == Op::LoopOccurrences
}

/// Writes the instructions of a routine, from one of the program's on, each on a line.
fn put_code(
    out: &mut Text,
    program: &Program,
    names: Option<&Names<'_>>,
    first: usize,
    count: usize,
) {
    let code = program.code();
    let mut depth = 0usize;
    for place in 0..count {
        let at = first.saturating_add(place);
        if at < code.len() {
            let instr = code.at(at);
            depth = depth.saturating_sub(usize::from(instr.op == Op::End));
            put_instr(out, program.tables(), names, instr, place, depth);
            depth = depth.saturating_add(usize::from(opens(instr.op)));
        }
    }
}

/// What an event is called; of one of a record or an item, what stands behind its name.
fn event_word(code: EventCode) -> &'static str {
    match code {
        EventCode::ApplicationPreproc => " application preproc",
        EventCode::ApplicationPostproc => " application postproc",
        EventCode::LevelPreproc => " level preproc",
        EventCode::LevelPostproc => " level postproc",
        EventCode::RecordPreproc | EventCode::ItemPreproc => " preproc",
        EventCode::RecordPostproc | EventCode::ItemPostproc => " postproc",
    }
}

/// Writes the event that runs a routine.
fn put_event(out: &mut Text, names: Option<&Names<'_>>, event: &EventEntry) {
    let index = event.index as usize;
    match event.code {
        EventCode::RecordPreproc | EventCode::RecordPostproc => put_record(out, names, index),
        EventCode::ItemPreproc | EventCode::ItemPostproc => put_item(out, names, index),
        _ => {}
    }
    out.put(event_word(event.code));
}

/// Writes the events that run a routine.
fn put_events(out: &mut Text, names: Option<&Names<'_>>, events: &[EventEntry], number: usize) {
    for event in events {
        if event.routine as usize == number {
            put_event(out, names, event);
        }
    }
}

/// What a routine runs on.
fn ambient_word(ambient: Ambient) -> &'static str {
    match ambient {
        Ambient::Run => ", of the run",
        Ambient::Case => ", of a case",
    }
}

/// What a routine gives.
fn gift_word(gift: Gift) -> &'static str {
    match gift {
        Gift::Nothing => "",
        Gift::Number => ", gives a number",
        Gift::Text => ", gives a text",
    }
}

/// Writes what a routine is, and how many steps it may take.
fn put_kind(out: &mut Text, routine: &Routine, steps: u64) {
    out.put(ambient_word(routine.ambient));
    out.put(gift_word(routine.gives));
    out.put_counted(", parameters ", u64::from(routine.parameters));
    out.put_counted(", locals ", routine.locals.len() as u64);
    out.put_counted(", at most ", steps);
    out.put(" steps\n");
}

/// Writes a message.
fn put_message(out: &mut Text, message: &Message, number: usize) {
    out.put_counted("message ", number as u64);
    out.put_counted(" number ", u64::from(message.number));
    out.put(if message.summary { " summary" } else { "" });
    put_quoted(out, message.text.as_str());
    out.put("\n");
}

/// Writes the messages.
fn put_messages(out: &mut Text, tables: &Tables) {
    for number in 0..tables.messages.len() {
        put_message(out, &tables.messages[number], number);
    }
}

/// Writes an array.
fn put_array(out: &mut Text, array: &Array) {
    out.put("array ");
    out.put(array.name.as_str());
    for size in &array.dimensions {
        out.put_counted(" ", u64::from(*size));
    }
    out.put(if array.saved { " saved\n" } else { "\n" });
}

/// Writes a global.
fn put_global(out: &mut Text, global: &GlobalVariable, number: usize) {
    out.put_counted("global ", number as u64);
    out.put(match global.kind {
        GlobalKind::Number => " number\n",
        GlobalKind::Text => " text\n",
    });
}

/// Writes the arrays and globals.
fn put_variables(out: &mut Text, tables: &Tables) {
    for array in &tables.arrays {
        put_array(out, array);
    }
    for number in 0..tables.globals.len() {
        put_global(out, &tables.globals[number], number);
    }
}

/// Writes a program: messages, arrays and globals, and each routine with the events that run it and its instructions.
pub fn put_image(out: &mut Text, alloc: Global, program: &Program, names: Option<&Names<'_>>) {
    put_messages(out, program.tables());
    put_variables(out, program.tables());
    let mut steps = Steps::new(alloc);
    let mut first = 0usize;
    let routines = program.routines();
    for number in 0..routines.len() {
        let routine = &routines[number];
        let count = routine.instructions as usize;
        let most = steps.add(program, first, count);
        out.put_counted("\nroutine ", number as u64);
        put_events(out, names, program.events(), number);
        put_kind(out, routine, most);
        put_code(out, program, names, first, count);
        first = first.saturating_add(count);
    }
    if steps.lacks_memory {
        out.give_up();
    }
}
