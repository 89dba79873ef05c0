//! The items that a source may change.

ghost use Rattle.std.specs.Prelude.{◌≡◌, ◌≤◌, ◌∷◌, ◌++◌, [], false, if◌then◌else◌, length, replicate, slice_index_or, IfOk, OnOk};
ghost use Rattle.std.specs.List.{filter, range_with_len};
ghost use Rattle.cse_logic_tree.specs.Typed as typed;
ghost use Rattle.cse_edit.specs.Items as spec;

use crate::sources::source;
use cse_dict::Dictionary;
use cse_logic_tree::Tree;
use cse_value::OutOfMemory;
use std::alloc::{AllocError, Global};

fn add_written(items: &mut Vec<u16>, item: u16, is_written: bool) -> Result<(), AllocError>
    ensures { OnOk result (items.new.items ≡ items.old.items ++ (if is_written then item ∷ [] else [])) }
{
    if is_written {
        items.push(item)?;
    }
    Ok(())
}

/// The places of the marks.
fn marked_places(alloc: Global, marks: &[bool]) -> Result<Vec<u16>, AllocError>
    requires { length marks.now ≤ 10000 }
    ensures { IfOk result (λ v. v.items ≡ filter (λ i. slice_index_or marks.now i false) (range_with_len 0 (length marks.now))) }
{
    let mut items = Vec::new(alloc);
    'marks: for item in 0..marks.len() {
        add_written(&mut items, item as u16, marks[item])?;
    }
    Ok(items)
}

/// The items that a source writes, of as many as there are marks, none of which is set.
fn written<'t, 'a>(
    alloc: Global,
    tree: &'t Tree<'a>,
    marks: &mut [bool],
) -> Result<Vec<u16>, AllocError>
    requires few { length marks.old ≤ 10000 }
    requires none { marks.old ≡ replicate (length marks.old) false }
    ensures { IfOk result (λ v. v.items ≡ filter (spec.is_written (typed.tree tree.now)) (range_with_len 0 (length marks.old))) }
{
    source(tree, marks);
    marked_places(alloc, marks)
}

/// The items that a checked source may change, by their numbers in the dictionary: those that an assignment or an
/// `impute` of a procedure or a function names, each once, in order of the dictionary. Nothing of a line changes that is
/// in no column of one of these. The one error is want of memory.
pub fn items_written<'t, 'a>(
    alloc: Global,
    tree: &'t Tree<'a>,
    dictionary: &Dictionary,
) -> Result<Vec<u16>, OutOfMemory>
    ensures { IfOk result (λ v. v.items ≡ spec.items_written dictionary.now (typed.tree tree.now)) }
{
    let count = dictionary.shape().items.len();
    let mut marks = vec![in alloc; false; count]?;
    Ok(written(alloc, tree, &mut marks)?)
}
