//! What is known of a source before the first function ends.

ghost use Rattle.std.specs.Prelude.{◌≡◌, Some, None, IfOk};
ghost use Rattle.cse_types.specs.TreeOver as spec;
ghost use Rattle.cse_types.specs.JudgeTree as judge;
ghost use Rattle.cse_types.specs.Table as tables;
ghost use Rattle.cse_types.specs.SourceClauses.{each_made};
ghost use Rattle.cse_types.specs.PartClauses.{globals_of};

use crate::arrays::arrays;
use crate::table::{Table, table_of};
use cse_dict::Dictionary;
use cse_logic_names::meaning::Routine;
use cse_logic_names::messages::Messages;
use cse_logic_names::names::{Names, Parameters};
use cse_logic_names::scope::Scope;
use cse_logic_tree::{Dimension, Owner};
use cse_syntax_tree::{Procedure as ParsedProcedure, Tree as Parsed};
use std::alloc::{AllocError, Global};

/// The names of the declarations.
pub fn declared_names(
    alloc: Global,
    dictionary: &Dictionary,
    tree: &Parsed<'_>,
) -> Result<Table, AllocError>
    ensures { IfOk result (λ t. t ≡ tables.table_of dictionary.now (globals_of tree.now)) }
{
    match &tree.globals {
        None => Ok(Table::new(alloc)),
        Some(all) => table_of(alloc, dictionary, all),
    }
}

/// What is known where these names are declared.
fn first_scope<'a>(
    alloc: Global,
    dictionary: &'a Dictionary,
    messages: &'a Messages,
    declared: Names,
) -> Scope<'a>
    ensures { result ≡ spec.names_of dictionary.now messages.now declared }
{
    Scope {
        dictionary,
        messages,
        declared,
        arrays: Vec::new(alloc),
        functions: Vec::new(alloc),
        parameters: Parameters::new(alloc),
        routine: Routine::Procedure(Owner::Application),
        loops: Vec::new(alloc),
    }
}

/// The dimensions of each array.
fn all_arrays<'a>(
    alloc: Global,
    scope: &Scope<'_>,
    tree: &Parsed<'a>,
) -> Result<Vec<Option<Vec<Dimension<'a>>>>, AllocError>
    ensures { IfOk result (λ v. each_made v.items ≡ judge.arrays_judged scope.now (globals_of tree.now)) }
{
    match &tree.globals {
        None => Ok(Vec::new(alloc)),
        Some(all) => arrays(alloc, scope, all),
    }
}

/// What is known before the first function ends.
pub fn start<'a>(
    alloc: Global,
    dictionary: &'a Dictionary,
    messages: &'a Messages,
    declared: Names,
    tree: &Parsed<'a>,
) -> Result<Scope<'a>, AllocError>
    ensures { IfOk result (λ s. s ≡ spec.start_of dictionary.now messages.now declared (globals_of tree.now)) }
{
    let mut scope = first_scope(alloc, dictionary, messages, declared);
    match all_arrays(alloc, &scope, tree) {
        Err(fault) => Err(fault),
        Ok(arrays) => {
            scope.arrays = arrays;
            Ok(scope)
        }
    }
}

/// The procedures of a tree.
pub fn procedures_in<'t, 'a>(tree: &'t Parsed<'a>) -> &'t [ParsedProcedure<'a>]
    ensures { result.now ≡ tree.now.procedures.items }
{
    tree.procedures.as_slice()
}
