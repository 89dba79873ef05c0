//! The sections of a program, written at the end of a list of bytes: a count, and the entries.

ghost use Rattle.std.specs.Prelude.{◌≡◌, ◌<◌, ◌^◌, ◌++◌, length, OnOk};
ghost use Rattle.std.specs.List.{All};
ghost use Rattle.cse_image_parts.specs.Spelling.{section, u32 as u32_spelling, i64 as i64_spelling};
ghost use Rattle.cse_image_parts.specs.declared.version.Version.TheVariants as versions;
ghost use Rattle.cse_image_parts.specs.Image.{lists_of};
ghost use Rattle.cse_image.specs.Spelling.{ListsFit, lists as lists_spelling};
ghost use Rattle.cse_image.specs.Sections.{early_lists, late_lists};

use crate::writing::{Entry, put_entries};
use cse_image_parts::entries::Tables;
use cse_image_parts::{put_i64s, put_u32, put_u32s};
use std::alloc::AllocError;

#[tactic(auto, unfolding(cse_image_parts::specs::Spelling::section))]
fn section_of<E: Entry>(out: &mut Vec<u8>, entries: &[E]) -> Result<(), AllocError>
    requires count { length entries.now < 2 ^ 32 }
    requires each { All E.fits entries.now }
    ensures { OnOk result (out.new.items ≡ out.old.items ++ section E.spelling entries.now) }
{
    put_u32(out, entries.len() as u32)?;
    put_entries(out, entries)
}

#[tactic(auto, unfolding(cse_image_parts::specs::Spelling::section))]
fn section_of_u32s(out: &mut Vec<u8>, numbers: &[u32]) -> Result<(), AllocError>
    requires { length numbers.now < 2 ^ 32 }
    ensures { OnOk result (out.new.items ≡ out.old.items ++ section u32_spelling numbers.now) }
{
    put_u32(out, numbers.len() as u32)?;
    put_u32s(out, numbers)
}

#[tactic(auto, unfolding(cse_image_parts::specs::Spelling::section))]
fn section_of_i64s(out: &mut Vec<u8>, numbers: &[i64]) -> Result<(), AllocError>
    requires { length numbers.now < 2 ^ 32 }
    ensures { OnOk result (out.new.items ≡ out.old.items ++ section i64_spelling numbers.now) }
{
    put_u32(out, numbers.len() as u32)?;
    put_i64s(out, numbers)
}

/// Writes the sections from the records to the limits.
fn put_early(out: &mut Vec<u8>, tables: &Tables) -> Result<(), AllocError>
    requires { ListsFit versions.Two (lists_of tables.now) }
    ensures { OnOk result (out.new.items ≡ out.old.items ++ early_lists (lists_of tables.now)) }
{
    section_of(out, &tables.records)?;
    section_of(out, &tables.items)?;
    section_of(out, &tables.sets)?;
    section_of_u32s(out, &tables.order)?;
    section_of_i64s(out, &tables.constants)?;
    section_of_u32s(out, &tables.limits)
}

/// Writes the sections from the texts to the events.
fn put_late(out: &mut Vec<u8>, tables: &Tables) -> Result<(), AllocError>
    requires { ListsFit versions.Two (lists_of tables.now) }
    ensures { OnOk result (out.new.items ≡ out.old.items ++ late_lists (lists_of tables.now)) }
{
    section_of(out, &tables.texts)?;
    section_of(out, &tables.globals)?;
    section_of(out, &tables.arrays)?;
    section_of(out, &tables.messages)?;
    section_of(out, &tables.routines)?;
    section_of(out, &tables.events)
}

/// Writes the sections but the code.
pub fn put_tables(out: &mut Vec<u8>, tables: &Tables) -> Result<(), AllocError>
    requires { ListsFit versions.Two (lists_of tables.now) }
    ensures { OnOk result (out.new.items ≡ out.old.items ++ lists_spelling versions.Two (lists_of tables.now)) }
{
    put_early(out, tables)?;
    put_late(out, tables)
}
