//! The spelling of each entry of a program, written at the end of a list of bytes.

ghost use Rattle.std.specs.Prelude.{◌≡◌, ◌<◌, ◌^◌, ◌++◌, ℕ, List, length, OnOk, ⊤};
ghost use Rattle.std.specs.List.{flat_map, All};
ghost use Rattle.std.specs.String.{string_bytes};
ghost use Rattle.cse_image_parts.specs.Spelling.{u16 as u16_spelling};
ghost use Rattle.cse_image_parts.specs.declared.version.Version.TheVariants as versions;
ghost use Rattle.cse_image_parts.specs.Image.{array_lists, message_lists, routine_lists};
ghost use Rattle.cse_image.specs.Spelling.{header, record_shape, item_shape, set_shape, text as text_spelling, global as global_spelling, array as array_spelling, message as message_spelling, local as local_spelling, routine as routine_spelling, event as event_spelling, instr as instr_spelling};

use cse_image_parts::codes::{
    ambient_number, event_code_number, flag_number, gift_number, global_kind_number,
    item_kind_number, local_kind_number,
};
use cse_image_parts::entries::{Array, EventEntry, GlobalVariable, Local, Message, Routine};
use cse_image_parts::instruction::Instr;
use cse_image_parts::opcodes::op_number;
use cse_image_parts::version::{Version, version_number};
use cse_image_parts::{put_bytes, put_i64s, put_u8, put_u16, put_u32};
use cse_value::shape::{ItemShape, RecordShape, SetShape};
use std::alloc::AllocError;

/// The header of version 2, in which all images are written.
pub fn put_header(out: &mut Vec<u8>) -> Result<(), AllocError>
    ensures { OnOk result (out.new.items ≡ out.old.items ++ header versions.Two) }
{
    put_bytes(out, b"CSEB")?;
    put_u16(out, version_number(Version::Two))?;
    put_u16(out, 0)
}

/// An entry of a section.
pub trait Entry {
    // Its lengths have room in the fields that tell them.
    ghost fits: { Self → Type 0 };

    ghost spelling: { Self → List ℕ };

    /// Writes it at the end.
    fn put(&self, out: &mut Vec<u8>) -> Result<(), AllocError>
        requires { fits self.now }
        ensures { OnOk result (out.new.items ≡ out.old.items ++ spelling self.now) };
}

/// Writes entries, one after another.
pub fn put_entries<E: Entry>(out: &mut Vec<u8>, entries: &[E]) -> Result<(), AllocError>
    requires { All E.fits entries.now }
    ensures { OnOk result (out.new.items ≡ out.old.items ++ flat_map E.spelling entries.now) }
{
    for entry in entries {
        entry.put(out)?;
    }
    Ok(())
}

/// A record: eight bytes.
impl Entry for RecordShape {
    ghost fits = { λ _. ⊤ };

    ghost spelling = { record_shape };

    fn put(&self, out: &mut Vec<u8>) -> Result<(), AllocError> {
        put_u16(out, self.max_records)?;
        put_u16(out, 0)?;
        put_u32(out, self.record_len)
    }
}

/// An item: eight bytes.
impl Entry for ItemShape {
    ghost fits = { λ _. ⊤ };

    ghost spelling = { item_shape };

    fn put(&self, out: &mut Vec<u8>) -> Result<(), AllocError> {
        put_u8(out, self.owner)?;
        put_u8(out, item_kind_number(self.kind))?;
        put_u16(out, self.len)?;
        put_u32(out, self.start)
    }
}

/// A value set: eight bytes.
impl Entry for SetShape {
    ghost fits = { λ _. ⊤ };

    ghost spelling = { set_shape };

    fn put(&self, out: &mut Vec<u8>) -> Result<(), AllocError> {
        put_u16(out, self.item)?;
        put_u16(out, self.rows)?;
        put_u8(out, flag_number(self.partial))?;
        put_bytes(out, &[0, 0, 0])
    }
}

/// A text: its length in bytes, in two, then the bytes of its UTF-8.
impl Entry for String {
    ghost fits = { λ t. length (string_bytes t) < 2 ^ 16 };

    ghost spelling = { λ t. text_spelling (string_bytes t) };

    fn put(&self, out: &mut Vec<u8>) -> Result<(), AllocError> {
        put_u16(out, self.len() as u16)?;
        put_bytes(out, self.as_bytes())
    }
}

/// A global: four bytes.
impl Entry for GlobalVariable {
    ghost fits = { λ _. ⊤ };

    ghost spelling = { global_spelling };

    fn put(&self, out: &mut Vec<u8>) -> Result<(), AllocError> {
        put_u8(out, global_kind_number(self.kind))?;
        put_u8(out, 0)?;
        put_u16(out, self.length)
    }
}

/// A dimension of an array: two bytes.
impl Entry for u16 {
    ghost fits = { λ _. ⊤ };

    ghost spelling = { u16_spelling };

    fn put(&self, out: &mut Vec<u8>) -> Result<(), AllocError> {
        put_u16(out, *self)
    }
}

/// An array: its flags and lengths, its dimensions, its name, then the cells that it begins with.
impl Entry for Array {
    ghost fits = { λ x. (length x.dimensions.items < 2 ^ 8) × (length (string_bytes x.name) < 2 ^ 8) × (length x.cells.items < 2 ^ 32) };

    ghost spelling = { λ x. array_spelling (array_lists x) };

    fn put(&self, out: &mut Vec<u8>) -> Result<(), AllocError> {
        put_u8(out, flag_number(self.saved))?;
        put_u8(out, self.dimensions.len() as u8)?;
        put_u8(out, self.name.len() as u8)?;
        put_u8(out, 0)?;
        put_entries(out, &self.dimensions)?;
        put_bytes(out, self.name.as_bytes())?;
        put_u32(out, self.cells.len() as u32)?;
        put_i64s(out, &self.cells)
    }
}

/// A message: its number, whether it is a summary, then its text.
impl Entry for Message {
    ghost fits = { λ x. length (string_bytes x.text) < 2 ^ 16 };

    ghost spelling = { λ x. message_spelling (message_lists x) };

    fn put(&self, out: &mut Vec<u8>) -> Result<(), AllocError> {
        put_u32(out, self.number)?;
        put_u8(out, flag_number(self.summary))?;
        put_u8(out, 0)?;
        self.text.put(out)
    }
}

/// A local of a routine: four bytes.
impl Entry for Local {
    ghost fits = { λ _. ⊤ };

    ghost spelling = { local_spelling };

    fn put(&self, out: &mut Vec<u8>) -> Result<(), AllocError> {
        put_u8(out, local_kind_number(self.kind))?;
        put_u8(out, self.owner)?;
        put_u16(out, self.length)
    }
}

/// A routine: its head, its locals, then how many instructions it has.
impl Entry for Routine {
    ghost fits = { λ x. length x.locals.items < 2 ^ 8 };

    ghost spelling = { λ x. routine_spelling (routine_lists x) };

    fn put(&self, out: &mut Vec<u8>) -> Result<(), AllocError> {
        put_u8(out, ambient_number(self.ambient))?;
        put_u8(out, gift_number(self.gives))?;
        put_u8(out, self.parameters)?;
        put_u8(out, self.locals.len() as u8)?;
        put_entries(out, &self.locals)?;
        put_u32(out, self.instructions)
    }
}

/// An event: eight bytes.
impl Entry for EventEntry {
    ghost fits = { λ _. ⊤ };

    ghost spelling = { event_spelling };

    fn put(&self, out: &mut Vec<u8>) -> Result<(), AllocError> {
        put_u8(out, event_code_number(self.code))?;
        put_u8(out, 0)?;
        put_u16(out, self.index)?;
        put_u32(out, self.routine)
    }
}

/// An instruction: eight bytes.
#[inline]
pub fn put_instr(out: &mut Vec<u8>, instr: Instr) -> Result<(), AllocError>
    ensures { OnOk result (out.new.items ≡ out.old.items ++ instr_spelling instr) }
{
    put_u8(out, op_number(instr.op))?;
    put_u8(out, instr.a)?;
    put_u16(out, instr.b)?;
    put_u32(out, instr.c)
}
