//! The places of items that values are put into.

ghost use Rattle.std.specs.Prelude.{◌≡◌, IfOk};
ghost use Rattle.std.specs.Option.{option_map};
ghost use Rattle.cse_logic_tree.specs.Typed as typed;
ghost use Rattle.cse_logic_names.specs.Scope.{found};
ghost use Rattle.cse_logic_expressions.specs.Judge as judge;
ghost use Rattle.cse_logic_expressions.specs.JudgeStatement as spec;
ghost use Rattle.cse_logic_expressions.specs.JudgeStatement.{placed};
ghost use Rattle.cse_logic_expressions.specs.Clauses.{all_judged, place_count, place_judged, item_place};

use crate::assign::count_of;
use crate::expression::all_values;
use crate::item::{field_at, sole};
use cse_logic_names::scope::Scope;
use cse_logic_tree::{Field, Found, Which};
use cse_syntax_tree::{Expression, Place};
use std::alloc::{AllocError, Global};

/// The occurrence that is found.
fn here<'a>(found: Option<Found>) -> Option<Which<'a>>
    ensures { option_map typed.which result ≡ option_map typed.Here found }
{
    match found {
        None => None,
        Some(found) => Some(Which::Here(found)),
    }
}

fn at<'a>(
    alloc: Global,
    scope: &Scope<'_>,
    subscripts: &Vec<Expression<'a>>,
) -> Result<Option<Which<'a>>, AllocError>
    ensures { IfOk result (λ r. option_map typed.which r ≡ option_map typed.At (judge.sole (all_judged scope.now subscripts.now.items))) }
{
    let found = all_values(alloc, scope, subscripts)?;
    match sole(found) {
        None => Ok(None),
        Some(place) => Ok(Some(Which::At(place))),
    }
}

/// Which occurrence is meant.
fn which_at<'a>(
    alloc: Global,
    scope: &Scope<'_>,
    place: &Place<'a>,
    owner: u8,
) -> Result<Option<Which<'a>>, AllocError>
    ensures { IfOk result (λ r. option_map typed.which r
        ≡ spec.which_at (place_count place.now) (found scope.now owner) (place_judged scope.now place.now)) }
{
    if count_of(&place.subscripts) == 0 {
        Ok(here(scope.found(u16::from(owner))))
    } else {
        at(alloc, scope, &place.subscripts)
    }
}

/// A place of an item of this record.
pub fn place_at<'a>(
    alloc: Global,
    scope: &Scope<'_>,
    place: &Place<'a>,
    item: u16,
    owner: u8,
) -> Result<Option<(Field, Which<'a>)>, AllocError>
    ensures { IfOk result (λ r. option_map placed r ≡ item_place scope.now place.now item owner) }
{
    let Some(field) = field_at(scope, item, owner) else {
        return Ok(None);
    };
    match which_at(alloc, scope, place, owner)? {
        None => Ok(None),
        Some(which) => Ok(Some((field, which))),
    }
}
