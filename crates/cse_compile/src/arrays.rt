//! Arrays, in order of the source.

ghost use Rattle.std.specs.Prelude.{◌≡◌, ◌++◌, ◌∷◌, [], map, OnOk, IfOk};
ghost use Rattle.std.specs.String.{string_bytes};
ghost use Rattle.cse_logic_tree.specs.Typed.{array, declaration, dimension, whole};
ghost use Rattle.cse_dict.specs.Keys.{kept_name};
ghost use Rattle.cse_image_parts.specs.Image.{array_lists};
ghost use Rattle.cse_compile.specs.Tables as spec;

use cse_image_parts::entries::Array;
use cse_logic_tree::{Declaration, Dimension, Whole};
use std::alloc::{AllocError, Global};

fn size_of(written: &Dimension) -> u16
    ensures { result ≡ spec.size_of (dimension written.now) }
{
    match written {
        Dimension::Number(_, size) | Dimension::Set(_, _, _, size) => *size,
    }
}

fn sizes_of(alloc: Global, dimensions: &[Dimension]) -> Result<Vec<u16>, AllocError>
    ensures { IfOk result (λ v. v.items ≡ map spec.size_of (map dimension dimensions.now)) }
{
    let mut sizes = Vec::new(alloc);
    'all: for written in dimensions {
        sizes.push(size_of(written))?;
    }
    Ok(sizes)
}

/// The number of a cell.
fn cell_of(value: &Whole) -> i64
    ensures { result ≡ spec.cell_of (whole value.now) }
{
    value.value
}

fn cells_of(alloc: Global, values: &[Whole]) -> Result<Vec<i64>, AllocError>
    ensures { IfOk result (λ v. v.items ≡ map spec.cell_of (map whole values.now)) }
{
    let mut cells = Vec::new(alloc);
    'all: for value in values {
        cells.push(cell_of(value))?;
    }
    Ok(cells)
}

/// An array as the image has it.
fn array_of(alloc: Global, declared: &cse_logic_tree::Array) -> Result<Array, AllocError>
    ensures { IfOk result (λ a. array_lists a ≡ spec.array_of (array declared.now)) }
{
    let dimensions = sizes_of(alloc, &declared.dimensions)?;
    let cells = cells_of(alloc, &declared.cells)?;
    let name = declared.name.text.to_ascii_uppercase(alloc)?;
    Ok(Array {
        saved: declared.is_saved,
        dimensions,
        name,
        cells,
    })
}

fn add_array(
    alloc: Global,
    arrays: &mut Vec<Array>,
    written: &Declaration,
) -> Result<(), AllocError>
    ensures { OnOk result (map array_lists arrays.new.items ≡ map array_lists arrays.old.items ++ spec.arrays_of (declaration written.now)) }
{
    if let Declaration::Array(declared) = written {
        arrays.push(array_of(alloc, declared)?)?;
    }
    Ok(())
}

/// The arrays of the declarations, their names in upper case.
pub fn arrays_of(alloc: Global, declarations: &[Declaration]) -> Result<Vec<Array>, AllocError>
    ensures { IfOk result (λ v. map array_lists v.items ≡ spec.arrays_in (map declaration declarations.now)) }
{
    let mut arrays = Vec::new(alloc);
    'all: for written in declarations {
        add_array(alloc, &mut arrays, written)?;
    }
    Ok(arrays)
}
