//! A program: its tables, and its code wherever it lies.

ghost use Rattle.std.specs.Prelude.{◌≡◌, List, ℕ, MatchOption, IfOk, IfErr, OnOk, Ok, map, length, ◌++◌};
ghost use Rattle.std.specs.Bool.{Decides};
ghost use Rattle.std.specs.List.{flat_map};
ghost use Rattle.std.specs.String.{string_bytes};
ghost use Rattle.cse_image_parts.specs.Image.{Image, lists_of, image_of, image_with, array_lists, message_lists, routine_lists};
ghost use Rattle.cse_image.specs.Spelling.{Fits, Spells, StandFor, spelling, instr};
ghost use Rattle.cse_image.specs.Reading.{reading};
ghost use Rattle.cse_image.specs.Place.{Answers, placed, out_of_memory};

use crate::code::{Code, Owned};
use crate::error::ImageError;
use crate::fitting::{each_instr_fits, is_code_of, tables_fit};
use crate::sections::put_tables;
use crate::view::{CodeView, view_image};
use crate::writing::{put_header, put_instr};
use cse_fault_numbers::WANT_OF_MEMORY;
use cse_image_parts::entries::{
    Array, EventEntry, GlobalVariable, Message, Parts, Routine, Tables,
};
use cse_image_parts::instruction::Instr;
use cse_value::shape::{ItemShape, RecordShape, SetShape};
use std::alloc::{AllocError, Global};
use std::marker::Model;

/// A program that has a spelling.
#[derive(Drop)]
pub struct Program<C: Code = Owned> {
    tables: Tables,
    code: C,
}

impl<C: Code> Model for Program<C> {
    ghost Value = { Image };

    ghost view = { λ p. record { lists = lists_of p.tables; code = C.list p.code } };

    ghost invariant = { λ p. Fits (record { lists = lists_of p.tables; code = C.list p.code }) };
}

impl<C: Code> Program<C> {
    /// The program of tables and code that fit.
    pub(crate) fn with(tables: Tables, code: C) -> Self
        requires { Fits (image_with tables (C.list code)) }
        ensures { result ≡ image_with tables (C.list code) }
    {
        Program { tables, code }
    }

    /// All sections but the code.
    pub fn tables(&self) -> &Tables
        ensures lists { lists_of result.now ≡ self.now.lists }
        ensures fits { Fits self.now }
    {
        &self.tables
    }

    /// The instructions of routine 0, then those of routine 1, and so on.
    pub fn code(&self) -> &C
        ensures { C.list result.now ≡ self.now.code }
    {
        &self.code
    }

    /// The shapes of the records, by place from 0.
    pub fn records(&self) -> &[RecordShape]
        ensures { result.now ≡ self.now.lists.records }
    {
        &self.tables.records
    }

    /// The shapes of the items, by place from 0.
    pub fn items(&self) -> &[ItemShape]
        ensures { result.now ≡ self.now.lists.items }
    {
        &self.tables.items
    }

    /// The shapes of the value sets, by place from 0.
    pub fn sets(&self) -> &[SetShape]
        ensures { result.now ≡ self.now.lists.sets }
    {
        &self.tables.sets
    }

    /// The records in edit order.
    pub fn order(&self) -> &[u32]
        ensures { result.now ≡ self.now.lists.order }
    {
        &self.tables.order
    }

    /// The constants, by the place that an instruction names.
    pub fn constants(&self) -> &[i64]
        ensures { result.now ≡ self.now.lists.constants }
    {
        &self.tables.constants
    }

    /// How many turns a counting loop may take, by the place that it names.
    pub fn limits(&self) -> &[u32]
        ensures { result.now ≡ self.now.lists.limits }
    {
        &self.tables.limits
    }

    /// The texts, by the place that an instruction names.
    pub fn texts(&self) -> &[String]
        ensures { map string_bytes result.now ≡ self.now.lists.texts }
    {
        &self.tables.texts
    }

    /// The global variables, by place from 0.
    pub fn globals(&self) -> &[GlobalVariable]
        ensures { result.now ≡ self.now.lists.globals }
    {
        &self.tables.globals
    }

    /// The arrays and hot decks with their first cells, by place from 0.
    pub fn arrays(&self) -> &[Array]
        ensures { map array_lists result.now ≡ self.now.lists.arrays }
    {
        &self.tables.arrays
    }

    /// The messages, by place from 0.
    pub fn messages(&self) -> &[Message]
        ensures { map message_lists result.now ≡ self.now.lists.messages }
    {
        &self.tables.messages
    }

    /// The routines without their code, by place from 0.
    pub fn routines(&self) -> &[Routine]
        ensures { map routine_lists result.now ≡ self.now.lists.routines }
    {
        &self.tables.routines
    }

    /// The events that have a routine, in the order of their codes and indexes.
    pub fn events(&self) -> &[EventEntry]
        ensures { result.now ≡ self.now.lists.events }
    {
        &self.tables.events
    }
}

/// The program of tables and instructions that fit.
fn with_code(tables: Tables, instructions: Vec<Instr>) -> Program
    requires { Fits (image_with tables instructions.items) }
    ensures { result ≡ image_with tables instructions.items }
{
    Program::with(tables, Owned { instructions })
}

/// The instructions, in memory of their own.
fn instructions_of<C: Code>(alloc: Global, code: &C) -> Result<Vec<Instr>, AllocError>
    ensures { IfOk result (λ v. v.items ≡ C.list code.now) }
{
    let mut instructions = Vec::new(alloc);
    for i in 0..code.len() {
        instructions.push(code.at(i))?;
    }
    Ok(instructions)
}

fn into_tables(program: Program<CodeView>) -> Tables
    ensures { lists_of result ≡ program.entry.lists }
{
    program.tables
}

/// The same program with its code in memory of its own. The only error is want of memory, 90.
fn owned(alloc: Global, program: Program<CodeView>) -> Result<Program, ImageError>
    ensures same { IfOk result (λ p. p ≡ program.entry) }
    ensures memory { IfErr result (λ e. e ≡ out_of_memory) }
{
    match instructions_of(alloc, program.code()) {
        Ok(code) => Ok(with_code(into_tables(program), code)),
        Err(_) => Err(ImageError {
            number: WANT_OF_MEMORY,
            at: 0,
        }),
    }
}

/// The program that the bytes stand for: they spell it, or they spell a program of version 1 whose
/// upgrade it is.
pub fn read_image(alloc: Global, bytes: &[u8]) -> Result<Program, ImageError>
    // What is read is what the bytes stand for: they are its spelling in version 2, or that of a
    // version 1 program whose upgrade it is.
    ensures found { IfOk result (λ p. StandFor p bytes.now) }
    // What they stand for is read, unless memory runs out.
    ensures only { (x : Image) → StandFor x bytes.now → Answers (λ p. p) result (Ok x) }
    // Which rule is broken first, and where, by the rules of the version that stands in the header.
    ensures exact { Answers (λ p. p) result (placed (length bytes.now) (reading bytes.now)) }
{
    match view_image(alloc, bytes) {
        Ok(program) => owned(alloc, program),
        Err(error) => Err(error),
    }
}

/// The one spelling of the program, in version 2. The only error is want of memory, 90.
pub fn write_image<C: Code>(alloc: Global, program: &Program<C>) -> Result<Vec<u8>, ImageError>
    ensures spelling { IfOk result (λ v. v.items ≡ spelling program.now) }
    ensures memory { IfErr result (λ e. e ≡ out_of_memory) }
{
    match put_program(alloc, program) {
        Ok(bytes) => Ok(bytes),
        Err(_) => Err(ImageError {
            number: WANT_OF_MEMORY,
            at: 0,
        }),
    }
}

fn put_program<C: Code>(alloc: Global, program: &Program<C>) -> Result<Vec<u8>, AllocError>
    ensures { IfOk result (λ v. v.items ≡ spelling program.now) }
{
    let mut out = Vec::new(alloc);
    put_header(&mut out)?;
    put_tables(&mut out, &program.tables)?;
    put_code(&mut out, &program.code)?;
    Ok(out)
}

fn put_code<C: Code>(out: &mut Vec<u8>, code: &C) -> Result<(), AllocError>
    ensures { OnOk result (out.new.items ≡ out.old.items ++ flat_map instr (C.list code.now)) }
{
    for i in 0..code.len() {
        put_instr(out, code.at(i))?;
    }
    Ok(())
}

impl Program {
    /// The program of these parts, where they have a spelling in version 2; else the parts are given up. Takes no
    /// memory.
    pub fn from_parts(parts: Parts) -> Option<Program>
        ensures { MatchOption result ((bytes : List ℕ) → Spells (image_of parts) bytes → ⊥) (λ p. (p ≡ image_of parts) × Spells p (spelling p)) }
    {
        let (tables, code) = split(parts);
        if fits(&tables, &code) {
            Some(with_code(tables, code))
        } else {
            None
        }
    }
}

/// The tables and the code of parts.
fn split(parts: Parts) -> (Tables, Vec<Instr>)
    ensures { image_with result.0 result.1.items ≡ image_of parts }
{
    (
        Tables {
            records: parts.records,
            items: parts.items,
            sets: parts.sets,
            order: parts.order,
            constants: parts.constants,
            limits: parts.limits,
            texts: parts.texts,
            globals: parts.globals,
            arrays: parts.arrays,
            messages: parts.messages,
            routines: parts.routines,
            events: parts.events,
        },
        parts.code,
    )
}

/// Do tables and code have a spelling?
fn fits(tables: &Tables, code: &[Instr]) -> bool
    ensures { Decides result (Fits (image_with tables.now code.now)) }
{
    tables_fit(tables) && is_code_of(&tables.routines, code) && each_instr_fits(code)
}
