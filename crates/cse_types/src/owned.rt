//! The faults of procedures, one after the other.

ghost use Rattle.std.specs.Prelude.{◌≡◌, ◌++◌, [], map, drop, OnOk};
ghost use Rattle.cse_dict.specs.Keys.{kept_name};
ghost use Rattle.cse_syntax_tree.specs.Tree as syntax;
ghost use Rattle.cse_syntax_tree.specs.Tree.{written};
ghost use Rattle.cse_logic_names.specs.Scope as scopes;
ghost use Rattle.cse_logic_names.specs.WellTyped.{procedure_scope};
ghost use Rattle.cse_types.specs.PartFaults as spec;
ghost use Rattle.cse_types.specs.PartClauses.{two_parts};
ghost use Rattle.cse_types.specs.NameFaults.{and_name};

use crate::new_names::add;
use crate::owner::{meant_by, owner_meant};
use cse_dict::Dictionary;
use cse_fault_numbers::{OPAQUE_ITEM, UNKNOWN_NAME, UNUSABLE_HERE};
use cse_logic_faults::counts::Counts;
use cse_logic_faults::found::Found;
use cse_logic_faults::statement::block;
use cse_logic_names::meaning::{Meaning, Routine};
use cse_logic_names::names::{Parameters, kept};
use cse_logic_names::scope::{Scope, kind_and_owner};
use cse_logic_tree::Owner;
use cse_syntax_tree::{Body, Lexeme, Procedure, Statement};
use cse_value::shape::ItemKind;
use std::alloc::{AllocError, Global};

// ---- names

fn may_own(meaning: Option<Meaning>) -> bool
    ensures { result ≡ spec.may_own meaning }
{
    match meaning {
        Some(Meaning::Application) => true,
        Some(Meaning::Level) => true,
        Some(Meaning::Record(_)) => true,
        Some(Meaning::Item(_)) => true,
        _ => false,
    }
}

/// An item that has no procedure: an opaque one, or an id item.
fn own_item(
    dictionary: &Dictionary,
    found: &mut Found,
    token: usize,
    item: u16,
) -> Result<(), AllocError>
    ensures { OnOk result (found.new ≡ found.old ++ spec.own_item_faults token (scopes.kind_and_owner dictionary.now item)) }
{
    match kind_and_owner(dictionary, item) {
        None => found.add(UNUSABLE_HERE, token),
        Some((kind, owner)) => match kind {
            ItemKind::Opaque => found.add(OPAQUE_ITEM, token),
            ItemKind::Number => found.unless(!(owner == 255), UNUSABLE_HERE, token),
            ItemKind::Text => found.unless(!(owner == 255), UNUSABLE_HERE, token),
        },
    }
}

fn own(
    dictionary: &Dictionary,
    found: &mut Found,
    token: usize,
    meaning: Option<Meaning>,
) -> Result<(), AllocError>
    ensures { OnOk result (found.new ≡ found.old ++ spec.own_faults dictionary.now token meaning) }
{
    match meaning {
        Some(Meaning::Item(item)) => own_item(dictionary, found, token, item),
        _ => found.none(),
    }
}

/// The name of a procedure, which is one of the dictionary and stands once.
#[tactic(auto, using(cse_logic_faults::proofs::Lists::behind))]
fn owner_name(
    alloc: Global,
    dictionary: &Dictionary,
    found: &mut Found,
    before: &mut Parameters,
    name: Lexeme<'_>,
    meaning: Option<Meaning>,
) -> Result<(), AllocError>
    ensures found { OnOk result (found.new ≡ found.old ++ spec.owner_faults dictionary.now before.old (written name.entry) meaning) }
    ensures before { OnOk result (before.new ≡ and_name before.old (kept_name name.entry.text.now)) }
{
    let kept = kept(alloc, name.text)?;
    found.unless(
        may_own(meaning) && !before.has(&kept),
        UNKNOWN_NAME,
        name.token,
    )?;
    own(dictionary, found, name.token, meaning)?;
    add(before, kept)
}

// ---- bodies

/// What stands before a case, and behind it.
#[tactic(auto, using(cse_logic_faults::proofs::Lists::behind))]
fn both_parts(
    scope: &mut Scope<'_>,
    counts: &Counts,
    found: &mut Found,
    xs: &Vec<Statement<'_>>,
    ys: &Vec<Statement<'_>>,
) -> Result<(), AllocError>
    ensures found { OnOk result (found.new ≡ found.old ++ spec.body_faults counts.now scope.old (two_parts xs.now.items ys.now.items)) }
    ensures same { OnOk result (scope.new ≡ scope.old) }
{
    block(scope, counts, found, xs)?;
    block(scope, counts, found, ys)
}

/// The statements of a procedure.
fn body(
    scope: &mut Scope<'_>,
    counts: &Counts,
    found: &mut Found,
    x: &Body<'_>,
) -> Result<(), AllocError>
    ensures found { OnOk result (found.new ≡ found.old ++ spec.body_faults counts.now scope.old (syntax.body_tree x.now)) }
    ensures same { OnOk result (scope.new ≡ scope.old) }
{
    match x {
        Body::Plain(xs) => block(scope, counts, found, xs),
        Body::Preproc(xs) => block(scope, counts, found, xs),
        Body::Both(xs, ys) => both_parts(scope, counts, found, xs, ys),
        Body::Postproc(xs) => block(scope, counts, found, xs),
    }
}

/// The statements of a procedure of this owner.
fn body_of(
    scope: &mut Scope<'_>,
    counts: &Counts,
    found: &mut Found,
    owner: Owner,
    x: &Body<'_>,
) -> Result<(), AllocError>
    ensures found { OnOk result (found.new ≡ found.old ++ spec.body_faults counts.now (procedure_scope scope.old owner) (syntax.body_tree x.now)) }
    ensures same { OnOk result (scope.new ≡ scope.old) }
{
    let routine = scope.routine;
    scope.routine = Routine::Procedure(owner);
    let answer = body(scope, counts, found, x);
    scope.routine = routine;
    answer
}

// ---- procedures

/// What a procedure belongs to; one of an unknown name is looked at as the level's.
fn owner_or_level(dictionary: &Dictionary, meaning: Option<Meaning>) -> Owner
    ensures { result ≡ spec.owner_or_level dictionary.now meaning }
{
    match owner_meant(dictionary, meaning) {
        None => Owner::Level,
        Some(owner) => owner,
    }
}

/// A procedure.
#[tactic(auto, using(cse_logic_faults::proofs::Lists::behind))]
fn one(
    alloc: Global,
    scope: &mut Scope<'_>,
    counts: &Counts,
    found: &mut Found,
    before: &mut Parameters,
    x: &Procedure<'_>,
) -> Result<(), AllocError>
    ensures found { OnOk result (found.new ≡ found.old ++ spec.procedure_faults counts.now scope.old before.old (syntax.procedure x.now)) }
    ensures before { OnOk result (before.new ≡ and_name before.old (kept_name x.now.name.text.now)) }
    ensures same { OnOk result (scope.new ≡ scope.old) }
{
    let meaning = meant_by(alloc, scope.dictionary, x.name)?;
    owner_name(alloc, scope.dictionary, found, before, x.name, meaning)?;
    let owner = owner_or_level(scope.dictionary, meaning);
    body_of(scope, counts, found, owner, &x.body)
}

/// Procedures.
pub fn all_procedures(
    alloc: Global,
    scope: &mut Scope<'_>,
    counts: &Counts,
    found: &mut Found,
    all: &[Procedure<'_>],
) -> Result<(), AllocError>
    ensures found { OnOk result (found.new ≡ found.old ++ spec.procedures_faults counts.now scope.old [] (map syntax.procedure all.now)) }
    ensures same { OnOk result (scope.new ≡ scope.old) }
{
    let mut before = Parameters::new(alloc);
    'all: for x in all {
        one(alloc, scope, counts, found, &mut before, x)?;
    }
    Ok(())
}
