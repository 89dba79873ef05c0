//! What the fields of an instruction stand for.

use crate::names::Names;
use crate::text::Text;
use cse_image::{Instr, Op, Tables};

/// The special values, by their codes.
static SPECIALS: [&str; 3] = [" NOTAPPL", " MISSING", " DEFAULT"];

/// The relations, by their codes.
static RELATIONS: [&str; 6] = [" =", " <>", " <", " <=", " >", " >="];

/// What is taken from a stack, by its code.
static TAKEN: [&str; 3] = [" number", " text", " place"];

/// What a field stands for.
#[derive(Clone, Copy)]
enum Field {
    Nothing,
    /// A code that has a word: a special value, a relation, or what is taken from a stack.
    Special(u8),
    Relation(u8),
    Taken(u8),
    /// The size of a dimension.
    Size(usize),
    Local(usize),
    Global(usize),
    Routine(usize),
    Constant(usize),
    Text(usize),
    Limit(usize),
    Array(usize),
    Message(usize),
    Item(usize),
    Record(usize),
    Set(usize),
}

/// What an instruction names, but for the place that it leads to.
fn field_of(instr: Instr) -> Field {
    let (a, b, c) = (instr.a as usize, instr.b as usize, instr.c as usize);
    match instr.op {
        Op::Number => Field::Constant(c),
        Op::Special => Field::Special(instr.a),
        Op::Text => Field::Text(c),
        Op::LoadLocal | Op::StoreLocal => Field::Local(c),
        Op::LoadGlobal | Op::StoreGlobal => Field::Global(c),
        Op::Compare | Op::CompareText => Field::Relation(instr.a),
        Op::Index => Field::Size(b),
        Op::CurrentOccurrence
        | Op::OccurrenceNumber
        | Op::TotalOccurrences
        | Op::Occurrence
        | Op::LoopOccurrences => Field::Record(a),
        Op::IdNumber
        | Op::IdText
        | Op::ItemNumber
        | Op::ItemText
        | Op::StoreNumber
        | Op::StoreText
        | Op::Impute => Field::Item(c),
        Op::LoadCell | Op::StoreCell => Field::Array(c),
        Op::InSet | Op::Row => Field::Set(b),
        Op::Message => Field::Message(c),
        Op::Call => Field::Routine(c),
        Op::LoopCount => Field::Limit(b),
        Op::Pop => Field::Taken(instr.a),
        _ => Field::Nothing,
    }
}

/// Writes a text in quotes, behind a blank. A character below U+0020 is shown as `?`, as in a listing.
pub fn put_quoted(out: &mut Text, text: &str) {
    out.put(" \"");
    for character in text.chars() {
        out.put_char(if character < ' ' { '?' } else { character });
    }
    out.put("\"");
}

/// Writes a name behind a blank; where there is none, a word and a number.
fn put_named(out: &mut Text, name: &str, word: &str, number: usize) {
    if name.is_empty() {
        out.put_counted(word, number as u64);
    } else {
        out.put(" ");
        out.put(name);
    }
}

/// Writes the name of an item, or its number.
pub fn put_item(out: &mut Text, names: Option<&Names<'_>>, number: usize) {
    let name = match names {
        Some(names) => names.item_name(number),
        None => "",
    };
    put_named(out, name, " item ", number);
}

/// Writes the name of a record, or its number.
pub fn put_record(out: &mut Text, names: Option<&Names<'_>>, number: usize) {
    let name = match names {
        Some(names) => names.record_name(number),
        None => "",
    };
    put_named(out, name, " record ", number);
}

/// Writes the name of a value set, or its number.
fn put_set(out: &mut Text, names: Option<&Names<'_>>, number: usize) {
    let name = match names {
        Some(names) => names.set_name(number),
        None => "",
    };
    put_named(out, name, " set ", number);
}

/// Writes the word of a code; where there is none, the code.
fn put_word(out: &mut Text, words: &[&'static str], code: u8) {
    match words.get(code as usize) {
        Some(word) => out.put(word),
        None => out.put_counted(" ", u64::from(code)),
    }
}

/// Writes a constant.
fn put_constant(out: &mut Text, tables: &Tables, number: usize) {
    out.put(" ");
    out.put_signed(tables.constants.get(number).copied().unwrap_or(0));
}

/// Writes a text.
fn put_text(out: &mut Text, tables: &Tables, number: usize) {
    if let Some(text) = tables.texts.get(number) {
        put_quoted(out, text.as_str());
    }
}

/// Writes the most turns of a loop.
fn put_limit(out: &mut Text, tables: &Tables, number: usize) {
    let limit = tables.limits.get(number).copied().unwrap_or(0);
    out.put_counted(" ", u64::from(limit));
}

/// Writes the name of an array, or its number.
fn put_array(out: &mut Text, tables: &Tables, number: usize) {
    if let Some(array) = tables.arrays.get(number) {
        put_named(out, array.name.as_str(), " array ", number);
    }
}

/// Writes the number of a message, and its text.
fn put_message(out: &mut Text, tables: &Tables, number: usize) {
    out.put_counted(" ", number as u64);
    if let Some(message) = tables.messages.get(number) {
        put_quoted(out, message.text.as_str());
    }
}

/// Writes a field that stands for an entry of a table.
fn put_entry(out: &mut Text, tables: &Tables, field: Field) {
    match field {
        Field::Constant(number) => put_constant(out, tables, number),
        Field::Text(number) => put_text(out, tables, number),
        Field::Limit(number) => put_limit(out, tables, number),
        Field::Array(number) => put_array(out, tables, number),
        Field::Message(number) => put_message(out, tables, number),
        _ => {}
    }
}

/// Writes a field that stands for a code or for a number, or for an entry of a table.
fn put_field(out: &mut Text, tables: &Tables, field: Field) {
    match field {
        Field::Special(code) => put_word(out, &SPECIALS, code),
        Field::Relation(code) => put_word(out, &RELATIONS, code),
        Field::Taken(code) => put_word(out, &TAKEN, code),
        Field::Size(number) => out.put_counted(" ", number as u64),
        Field::Local(number) => out.put_counted(" local ", number as u64),
        Field::Global(number) => out.put_counted(" global ", number as u64),
        Field::Routine(number) => out.put_counted(" routine ", number as u64),
        _ => put_entry(out, tables, field),
    }
}

/// Whether an instruction names a place that it leads to.
fn leads(instr: Instr) -> bool {
    match instr.op {
        Op::Jump
        | Op::JumpUnless
        | Op::Index
        | Op::Occurrence
        | Op::LoopCount
        | Op::LoopOccurrences
        | Op::End
        | Op::Break => true,
        Op::Row => instr.a == 0,
        _ => false,
    }
}

/// Writes what the fields of an instruction stand for, by name where it has one.
pub fn put_fields(out: &mut Text, tables: &Tables, names: Option<&Names<'_>>, instr: Instr) {
    let field = field_of(instr);
    match field {
        Field::Item(number) => put_item(out, names, number),
        Field::Record(number) => put_record(out, names, number),
        Field::Set(number) => put_set(out, names, number),
        _ => put_field(out, tables, field),
    }
    if leads(instr) {
        out.put_counted(" to ", u64::from(instr.c));
    }
}
