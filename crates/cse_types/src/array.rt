//! Arrays: their sizes, and the cells at the start.

ghost use Rattle.std.specs.Prelude.{◌≡◌, ◌+◌, ◌<◌, map, slice_get, Some, None, IfOk, OnOk};
ghost use Rattle.std.specs.Option.{option_map};
ghost use Rattle.cse_syntax_tree.specs.Tree as syntax;
ghost use Rattle.cse_syntax_tree.specs.Tree.{written};
ghost use Rattle.cse_logic_tree.specs.Typed as typed;
ghost use Rattle.cse_logic_names.specs.Scope.{meant};
ghost use Rattle.cse_logic_names.specs.WellTyped as well;
ghost use Rattle.cse_logic_expressions.specs.JudgeStatement.{whole_judged};
ghost use Rattle.cse_types.specs.JudgeTree as spec;
ghost use Rattle.cse_logic_names.specs.Walk.{is_there, joined};
ghost use Rattle.cse_types.specs.SourceClauses.{dimensions_made, wholes_made};

use cse_dict::Dictionary;
use cse_logic_expressions::expression::written_number;
use cse_logic_expressions::head::whole;
use cse_logic_expressions::list::{both_hold, keep};
use cse_logic_expressions::set::number_set;
use cse_logic_names::scope::Scope;
use cse_logic_tree::{Array, Dimension, Whole};
use cse_syntax_tree::{Array as Parsed, Dimension as ParsedDimension, Lexeme, Literal};
use std::alloc::{AllocError, Global};

/// The size that digits write: from 1 to the most.
pub fn size_of(most: u16, digits: Lexeme<'_>) -> Option<u16>
    ensures { result ≡ well.size_of most (written digits.entry) }
{
    match written_size(most, digits.text) {
        None => { None }
        Some(size) => Some(size),
    }
}

#[tactic(auto, using(crate::proofs::Sizes::size_there, crate::proofs::Sizes::size_none))]
fn written_size(most: u16, digits: &str) -> Option<u16>
    ensures { result ≡ well.size_in most digits.now }
{
    match written_number(digits) {
        None => None,
        Some(size) => fitting(most, size),
    }
}

fn fitting(most: u16, size: u64) -> Option<u16>
    ensures { result ≡ well.size_fit most size }
{
    if size >= 1 && size <= u64::from(most) {
        Some(size as u16)
    } else {
        None
    }
}

/// The rows of a set, with one more where `(+)` stands.
fn set_rows(scope: &Scope<'_>, set: u16, one_more: bool) -> Option<u16>
    ensures { result ≡ spec.set_rows scope.now set one_more }
{
    match rows_with(scope.dictionary, set, one_more) {
        None => { None }
        Some(rows) => Some(rows),
    }
}

#[tactic(auto, using(crate::proofs::SetRows::few_rows))]
fn rows_with(dictionary: &Dictionary, set: u16, one_more: bool) -> Option<u16>
    ensures { result ≡ option_map (λ rows. rows + well.one_if one_more) (well.rows_of (slice_get dictionary.now.sets set)) }
{
    // A dictionary's sets have at most 65,534 rows.
    let _shape = dictionary.shape();
    match rows_of(dictionary, set) {
        None => None,
        Some(rows) => { if one_more { Some(rows + 1) } else { Some(rows) } }
    }
}

fn rows_of(dictionary: &Dictionary, set: u16) -> Option<u16>
    ensures { result ≡ well.rows_of (slice_get dictionary.now.sets set) }
{
    match dictionary.shape().sets.get(set as usize) {
        None => None,
        Some(found) => {
            if found.rows == 0 {
                None
            } else {
                Some(found.rows)
            }
        }
    }
}

fn set_dimension<'a>(
    scope: &Scope<'_>,
    name: Lexeme<'a>,
    one_more: bool,
    set: Option<u16>,
) -> Option<Dimension<'a>>
    ensures { option_map typed.dimension result ≡ spec.set_dimension scope.now (written name.entry) one_more set }
{
    match set {
        None => None,
        Some(set) => match set_rows(scope, set, one_more) {
            None => None,
            Some(size) => Some(Dimension::Set(name, set, one_more, size)),
        },
    }
}

/// The size of an array in one direction.
fn dimension<'a>(scope: &Scope<'_>, x: &ParsedDimension<'a>) -> Option<Dimension<'a>>
    ensures { option_map typed.dimension result ≡ spec.dimension_judged scope.now (syntax.dimension x.now) }
{
    match *x {
        ParsedDimension::Number(digits) => match size_of(65_535, digits) {
            None => None,
            Some(size) => Some(Dimension::Number(digits, size)),
        },
        ParsedDimension::Set(name, one_more) => {
            let set = number_set(scope, scope.meant(name));
            set_dimension(scope, name, one_more, set)
        }
    }
}

/// The dimensions of an array, or none where one isn't sound.
pub fn dimensions<'a>(
    alloc: Global,
    scope: &Scope<'_>,
    all: &Vec<ParsedDimension<'a>>,
) -> Result<Option<Vec<Dimension<'a>>>, AllocError>
    ensures { IfOk result (λ r. dimensions_made r ≡ spec.dimensions_judged scope.now (map syntax.dimension all.now.items)) }
{
    let mut found = Vec::new(alloc);
    let mut is_sound = true;
    'all: for x in all {
        let next = dimension(scope, x);
        let is_there = keep(&mut found, next)?;
        is_sound = both_hold(is_sound, is_there);
    }
    if is_sound { Ok(Some(found)) } else { Ok(None) }
}

/// A cell at the start.
fn cell<'a>(x: &Literal<'a>) -> Option<Whole<'a>>
    ensures { option_map typed.whole result ≡ whole_judged (syntax.literal x.now) }
{
    whole(*x)
}

/// The cells at the start, or none where one isn't sound.
fn cells<'a>(alloc: Global, all: &Vec<Literal<'a>>) -> Result<Option<Vec<Whole<'a>>>, AllocError>
    ensures { IfOk result (λ r. wholes_made r ≡ spec.cells_judged (map syntax.literal all.now.items)) }
{
    let mut found = Vec::new(alloc);
    let mut is_sound = true;
    'all: for x in all {
        let next = cell(x);
        let is_there = keep(&mut found, next)?;
        is_sound = both_hold(is_sound, is_there);
    }
    if is_sound { Ok(Some(found)) } else { Ok(None) }
}

fn array_of<'a>(
    x: &Parsed<'a>,
    dimensions: Option<Vec<Dimension<'a>>>,
    cells: Option<Vec<Whole<'a>>>,
) -> Option<Array<'a>>
    ensures { option_map typed.array result ≡ joined (spec.array_of (syntax.array x.now)) (dimensions_made dimensions.entry) (wholes_made cells.entry) }
{
    match dimensions {
        None => None,
        Some(dimensions) => match cells {
            None => None,
            Some(cells) => Some(Array {
                name: x.name,
                dimensions,
                is_saved: x.is_saved,
                cells,
            }),
        },
    }
}

/// An array, or none where a dimension or a cell isn't sound.
pub fn array<'a>(
    alloc: Global,
    scope: &Scope<'_>,
    x: &Parsed<'a>,
) -> Result<Option<Array<'a>>, AllocError>
    ensures { IfOk result (λ r. option_map typed.array r ≡ spec.array_judged scope.now (syntax.array x.now)) }
{
    let dimensions = dimensions(alloc, scope, &x.dimensions)?;
    let cells = cells(alloc, &x.cells)?;
    Ok(array_of(x, dimensions, cells))
}
