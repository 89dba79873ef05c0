//! Declarations, one after the other.

ghost use Rattle.std.specs.Prelude.{◌≡◌, ◌++◌, map, length, Some, IfOk, OnOk};
ghost use Rattle.std.specs.Option.{option_map};
ghost use Rattle.cse_syntax_tree.specs.Tree as syntax;
ghost use Rattle.cse_syntax_tree.specs.Tree.{written};
ghost use Rattle.cse_logic_tree.specs.Typed as typed;
ghost use Rattle.cse_logic_names.specs.WellTyped.{declared_messages, messages_of};
ghost use Rattle.cse_types.specs.JudgeTree as spec;
ghost use Rattle.cse_types.specs.Told.{told_of};
ghost use Rattle.cse_logic_names.specs.Walk.{is_there};
ghost use Rattle.cse_types.specs.SourceClauses.{behind_judged, declarations_made, judged_function};

use crate::array::{array, size_of};
use crate::function::function;
use crate::told::Told;
use cse_logic_expressions::list::{both_hold, keep};
use cse_logic_names::scope::Scope;
use cse_logic_tree::Declaration;
use cse_syntax_tree::{Array as ParsedArray, Declaration as Parsed, Lexeme, Parameter, Statement};
use std::alloc::{AllocError, Global};

/// Numbers.
fn numeric<'a>(
    alloc: Global,
    names: &Vec<Lexeme<'a>>,
) -> Result<Option<Declaration<'a>>, AllocError>
    ensures { IfOk result (λ r. option_map typed.declaration r ≡ Some (typed.Numeric (map written names.now.items))) }
{
    match Vec::from_slice(alloc, names) {
        Err(fault) => Err(fault),
        Ok(names) => Ok(Some(Declaration::Numeric(names))),
    }
}

/// Texts of a size.
fn alpha<'a>(
    alloc: Global,
    digits: Lexeme<'a>,
    names: &Vec<Lexeme<'a>>,
    size: Option<u16>,
) -> Result<Option<Declaration<'a>>, AllocError>
    ensures { IfOk result (λ r. option_map typed.declaration r ≡ option_map (spec.alpha_of (written digits.entry) (map written names.now.items)) size) }
{
    match size {
        None => Ok(None),
        Some(size) => match Vec::from_slice(alloc, names) {
            Err(fault) => Err(fault),
            Ok(names) => Ok(Some(Declaration::Alpha(digits, size, names))),
        },
    }
}

/// An array.
fn array_declared<'a>(
    alloc: Global,
    scope: &Scope<'_>,
    x: &ParsedArray<'a>,
) -> Result<Option<Declaration<'a>>, AllocError>
    ensures { IfOk result (λ r. option_map typed.declaration r ≡ option_map typed.Array' (spec.array_judged scope.now (syntax.array x.now))) }
{
    match array(alloc, scope, x) {
        Ok(Some(x)) => Ok(Some(Declaration::Array(x))),
        Ok(None) => Ok(None),
        Err(fault) => Err(fault),
    }
}

/// A function.
fn function_declared<'a>(
    alloc: Global,
    scope: &mut Scope<'_>,
    told: &mut Vec<Told<'a>>,
    name: Lexeme<'a>,
    parameters: &Vec<Parameter<'a>>,
    body: &Vec<Statement<'a>>,
) -> Result<Option<Declaration<'a>>, AllocError>
    ensures value { IfOk result (λ r. option_map typed.declaration r
        ≡ option_map typed.Function' (judged_function scope.old (length told.old.items) name.entry parameters.now.items body.now.items)) }
    ensures behind { OnOk result (scope.new ≡ behind_judged scope.old (length told.old.items) name.entry parameters.now.items body.now.items) }
    ensures told { OnOk result (map told_of told.new.items ≡ map told_of told.old.items ++ messages_of (syntax.block body.now.items)) }
{
    match function(alloc, scope, told, name, parameters, body) {
        Ok(Some(x)) => Ok(Some(Declaration::Function(x))),
        Ok(None) => Ok(None),
        Err(fault) => Err(fault),
    }
}

/// One declaration; behind a function stands what is known of it.
#[tactic(auto, using(cse_logic_faults::proofs::Lists::append_none))]
pub fn declaration<'a>(
    alloc: Global,
    scope: &mut Scope<'_>,
    told: &mut Vec<Told<'a>>,
    x: &Parsed<'a>,
) -> Result<Option<Declaration<'a>>, AllocError>
    ensures value { IfOk result (λ r. option_map typed.declaration r ≡ spec.declaration_judged scope.old (length told.old.items) (syntax.declaration x.now)) }
    ensures behind { OnOk result (scope.new ≡ spec.behind scope.old (length told.old.items) (syntax.declaration x.now)) }
    ensures told { OnOk result (map told_of told.new.items ≡ map told_of told.old.items ++ spec.messages_with (syntax.declaration x.now)) }
{
    match x {
        Parsed::Numeric(names) => numeric(alloc, names),
        Parsed::Alpha(digits, names) => {
            let size = size_of(255, *digits);
            alpha(alloc, *digits, names, size)
        }
        Parsed::Array(x) => array_declared(alloc, scope, x),
        Parsed::Function(name, parameters, body) => {
            function_declared(alloc, scope, told, *name, parameters, body)
        }
    }
}

/// Declarations, or none where one isn't sound; behind them stands what is known of their functions.
pub fn declarations<'a>(
    alloc: Global,
    scope: &mut Scope<'_>,
    told: &mut Vec<Told<'a>>,
    all: &Vec<Parsed<'a>>,
) -> Result<Option<Vec<Declaration<'a>>>, AllocError>
    ensures value { IfOk result (λ r. declarations_made r ≡ spec.declarations_judged scope.old (length told.old.items) (map syntax.declaration all.now.items)) }
    ensures behind { OnOk result (scope.new ≡ spec.behind_all scope.old (length told.old.items) (map syntax.declaration all.now.items)) }
    ensures told { OnOk result (map told_of told.new.items ≡ map told_of told.old.items ++ declared_messages (map syntax.declaration all.now.items)) }
{
    let mut found = Vec::new(alloc);
    let mut is_sound = true;
    'all: for x in all {
        let next = declaration(alloc, scope, told, x)?;
        let is_there = keep(&mut found, next)?;
        is_sound = both_hold(is_sound, is_there);
    }
    if is_sound { Ok(Some(found)) } else { Ok(None) }
}
