//! All faults of names and kinds of a source.

ghost use Rattle.std.specs.Prelude.{◌≡◌, ◌++◌, map, IfOk, OnOk};
ghost use Rattle.cse_syntax_tree.specs.Tree as syntax;
ghost use Rattle.cse_logic_faults.specs.Listed.{listed};
ghost use Rattle.cse_types.specs.JudgeTree as judge;
ghost use Rattle.cse_types.specs.SourceFaults as spec;
ghost use Rattle.cse_types.specs.FaultClauses.{all_faults, faults_within};
ghost use Rattle.cse_types.specs.PartClauses.{globals_of};

use crate::counted_parts::counts_of;
use crate::declared::all_declarations;
use crate::new_names::all_names;
use crate::owned::all_procedures;
use crate::start::{declared_names, procedures_in, start};
use cse_dict::Dictionary;
use cse_logic_faults::counts::Counts;
use cse_logic_faults::found::Found;
use cse_logic_names::faults::Fault;
use cse_logic_names::messages::Messages;
use cse_logic_names::scope::Scope;
use cse_syntax_tree::{Declaration, Tree};
use std::alloc::{AllocError, Global};

/// The names of the declarations, and the declarations.
#[tactic(auto, using(cse_logic_faults::proofs::Lists::behind))]
fn declared(
    alloc: Global,
    scope: &mut Scope<'_>,
    counts: &Counts,
    found: &mut Found,
    all: &Vec<Declaration<'_>>,
) -> Result<(), AllocError>
    ensures found { OnOk result (found.new ≡ found.old ++ all_faults counts.now scope.old (map syntax.declaration all.now.items)) }
    ensures behind { OnOk result (scope.new ≡ judge.behind_all scope.old 0 (map syntax.declaration all.now.items)) }
{
    all_names(alloc, scope.dictionary, found, all)?;
    let mut told = Vec::new(alloc);
    all_declarations(alloc, scope, counts, found, &mut told, all)
}

/// The same, if there are any.
fn globals(
    alloc: Global,
    scope: &mut Scope<'_>,
    counts: &Counts,
    found: &mut Found,
    tree: &Tree<'_>,
) -> Result<(), AllocError>
    ensures found { OnOk result (found.new ≡ found.old ++ all_faults counts.now scope.old (globals_of tree.now)) }
    ensures behind { OnOk result (scope.new ≡ judge.behind_all scope.old 0 (globals_of tree.now)) }
{
    match &tree.globals {
        None => found.none(),
        Some(all) => declared(alloc, scope, counts, found, all),
    }
}

/// What is known before the first function ends.
fn known<'a>(
    alloc: Global,
    dictionary: &'a Dictionary,
    messages: &'a Messages,
    tree: &Tree<'a>,
) -> Result<Scope<'a>, AllocError>
    ensures { IfOk result (λ s. s ≡ spec.first_known dictionary.now messages.now (globals_of tree.now)) }
{
    let table = declared_names(alloc, dictionary, tree)?;
    start(alloc, dictionary, messages, table.names, tree)
}

/// All of them, in the order of the definition, in a scope of what is known before the first function ends.
#[tactic(auto, using(cse_logic_faults::proofs::Lists::behind))]
fn found_within(
    alloc: Global,
    scope: &mut Scope<'_>,
    counts: &Counts,
    tree: &Tree<'_>,
) -> Result<Found, AllocError>
    ensures { IfOk result (λ f. f ≡ faults_within counts.now scope.old tree.now) }
{
    let mut found = Found::new(alloc);
    globals(alloc, scope, counts, &mut found, tree)?;
    all_procedures(alloc, scope, counts, &mut found, procedures_in(tree))?;
    Ok(found)
}

/// The same, where each function takes so many arguments.
fn found_counted<'a>(
    alloc: Global,
    dictionary: &'a Dictionary,
    messages: &'a Messages,
    counts: &Counts,
    tree: &Tree<'a>,
) -> Result<Found, AllocError>
    ensures { IfOk result (λ f. f ≡ faults_within counts.now (spec.first_known dictionary.now messages.now (globals_of tree.now)) tree.now) }
{
    let mut scope = known(alloc, dictionary, messages, tree)?;
    found_within(alloc, &mut scope, counts, tree)
}

/// The same of a source.
#[tactic(auto, unfolding(crate::specs::SourceFaults::faults_of))]
fn found_in<'a>(
    alloc: Global,
    dictionary: &'a Dictionary,
    messages: &'a Messages,
    tree: &Tree<'a>,
) -> Result<Found, AllocError>
    ensures { IfOk result (λ f. f ≡ spec.faults_of dictionary.now messages.now (syntax.tree tree.now)) }
{
    match counts_of(alloc, tree) {
        Err(fault) => Err(fault),
        Ok(counts) => found_counted(alloc, dictionary, messages, &counts, tree),
    }
}

/// All faults of names and kinds of a source's tree, 40 to 49, for a dictionary and the messages of a message file.
pub fn faults<'a>(
    alloc: Global,
    dictionary: &'a Dictionary,
    messages: &'a Messages,
    tree: &Tree<'a>,
) -> Result<Vec<Fault>, AllocError>
    ensures { IfOk result (λ v. map listed v.items ≡ spec.faults_of dictionary.now messages.now (syntax.tree tree.now)) }
{
    match found_in(alloc, dictionary, messages, tree) {
        Err(fault) => Err(fault),
        Ok(found) => Ok(found.list),
    }
}
