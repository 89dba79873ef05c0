//! What a run starts with: globals at 0 or blank, arrays with their starting cells.

ghost use Rattle.std.specs.Prelude.{◌≡◌, ◌≤◌, ◌-◌, ◌++◌, pos, IfOk, OnOk, map, length, replicate};
ghost use Rattle.std.specs.List.{AllByRecursion};
ghost use Rattle.cse_value.specs.Texts.{blanks};
ghost use Rattle.cse_image_parts.specs.Image.{array_lists};
ghost use Rattle.cse_decks.specs.Store.{first_global, first_cells};

use crate::cells::ArrayCells;
use crate::global::{GlobalValue, KeptText};
use cse_image::{Array, GlobalKind, GlobalVariable};
use cse_image_parts::rules::cells_for;
use cse_value::{Num, TEXT_LEN, Text};
use std::alloc::{AllocError, Global};

/// A blank text.
fn blank_text(length: usize) -> Text
    requires { length ≤ 255 }
    ensures { result.items ≡ blanks length }
{
    let mut text = Text::new();
    'blanks: while text.len() < length {
        text.push(' ');
    }
    text
}

/// What a global starts with.
fn first_global(alloc: Global, global: GlobalVariable) -> Result<GlobalValue, AllocError>
    ensures { IfOk result (λ value. value ≡ first_global global) }
{
    match global.kind {
        GlobalKind::Number => Ok(GlobalValue::Number(Num::Whole(0))),
        GlobalKind::Text => {
            let length = usize::from(global.length).min(TEXT_LEN);
            Ok(GlobalValue::Words(KeptText::new(alloc, blank_text(length))?))
        }
    }
}

/// What the globals start with.
pub fn first_globals(
    alloc: Global,
    globals: &[GlobalVariable],
) -> Result<Vec<GlobalValue>, AllocError>
    ensures { IfOk result (λ v. v.items ≡ map first_global globals.now) }
{
    let mut values = Vec::new(alloc);
    for global in globals {
        values.push(first_global(alloc, *global)?)?;
    }
    Ok(values)
}

/// The declared cells as numbers.
fn declared_values(alloc: Global, cells: &[i64]) -> Result<Vec<Num>, AllocError>
    ensures { IfOk result (λ v. v.items ≡ map (λ z. Num.Whole z) cells.now) }
{
    cells.iter().map(|z| Num::Whole(*z)).collect(alloc)
}

/// Adds so many zeros.
fn add_zeros(values: &mut Vec<Num>, zeros: u64) -> Result<(), AllocError>
    ensures { OnOk result (values.new.items ≡ values.old.items ++ replicate zeros (Num.Whole (pos 0))) }
{
    for _zero in 0..zeros {
        values.push(Num::Whole(0))?;
    }
    Ok(())
}

/// The starting values of an array's cells.
fn first_values(alloc: Global, array: &Array) -> Result<ArrayCells, AllocError>
    requires { length array.now.dimensions.items ≤ 3 }
    ensures { IfOk result (λ v. v ≡ first_cells (array_lists array.now)) }
{
    let mut values = declared_values(alloc, &array.cells)?;
    let declared = values.len() as u64;
    add_zeros(
        &mut values,
        cells_for(&array.dimensions).saturating_sub(declared),
    )?;
    Ok(ArrayCells { values })
}

/// What the arrays start with.
pub fn first_arrays(alloc: Global, arrays: &[Array]) -> Result<Vec<ArrayCells>, AllocError>
    requires { AllByRecursion (λ a. length a.dimensions.items ≤ 3) arrays.now }
    ensures { IfOk result (λ v. v.items ≡ map first_cells (map array_lists arrays.now)) }
{
    let mut cells = Vec::new(alloc);
    for array in arrays {
        cells.push(first_values(alloc, array)?)?;
    }
    Ok(cells)
}
