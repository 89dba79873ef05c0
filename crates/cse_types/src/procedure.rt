//! Procedures, one after the other.

ghost use Rattle.std.specs.Prelude.{◌≡◌, ◌++◌, map, length, Some, None, IfOk, OnOk};
ghost use Rattle.std.specs.Option.{option_map};
ghost use Rattle.cse_syntax_tree.specs.Tree as syntax;
ghost use Rattle.cse_syntax_tree.specs.Tree.{written};
ghost use Rattle.cse_logic_tree.specs.Typed as typed;
ghost use Rattle.cse_logic_names.specs.WellTyped.{body_messages, procedure_messages, procedure_scope};
ghost use Rattle.cse_types.specs.JudgeTree as spec;
ghost use Rattle.cse_types.specs.Told.{told_of};
ghost use Rattle.cse_logic_names.specs.Walk.{is_there, joined};
ghost use Rattle.cse_types.specs.SourceClauses.{FindsMore, body_made, procedures_made};
ghost use Rattle.cse_types.specs.Clauses.{block_made};
ghost use Rattle.cse_types.specs.PartClauses.{two_parts};

use crate::owner::owner_named;
use crate::statement::block;
use crate::told::Told;
use cse_logic_expressions::list::{both_hold, keep};
use cse_logic_names::meaning::Routine;
use cse_logic_names::scope::Scope;
use cse_logic_tree::{Body, Owner, Procedure, Statement};
use cse_syntax_tree::{
    Body as ParsedBody, Lexeme, Procedure as Parsed, Statement as ParsedStatement,
};
use std::alloc::{AllocError, Global};

fn plain<'a>(found: Option<Vec<Statement<'a>>>) -> Option<Body<'a>>
    ensures { body_made result ≡ option_map typed.Plain (block_made found.entry) }
{
    match found {
        None => None,
        Some(found) => Some(Body::Plain(found)),
    }
}

fn preproc<'a>(found: Option<Vec<Statement<'a>>>) -> Option<Body<'a>>
    ensures { body_made result ≡ option_map typed.Preproc (block_made found.entry) }
{
    match found {
        None => None,
        Some(found) => Some(Body::Preproc(found)),
    }
}

fn postproc<'a>(found: Option<Vec<Statement<'a>>>) -> Option<Body<'a>>
    ensures { body_made result ≡ option_map typed.Postproc (block_made found.entry) }
{
    match found {
        None => None,
        Some(found) => Some(Body::Postproc(found)),
    }
}

fn around<'a>(
    before: Option<Vec<Statement<'a>>>,
    after: Option<Vec<Statement<'a>>>,
) -> Option<Body<'a>>
    ensures { body_made result ≡ joined typed.Both (block_made before.entry) (block_made after.entry) }
{
    match before {
        None => None,
        Some(before) => match after {
            None => None,
            Some(after) => Some(Body::Both(before, after)),
        },
    }
}

/// What stands before a case, and behind it.
fn both_parts<'a>(
    alloc: Global,
    scope: &mut Scope<'_>,
    told: &mut Vec<Told<'a>>,
    xs: &Vec<ParsedStatement<'a>>,
    ys: &Vec<ParsedStatement<'a>>,
) -> Result<Option<Body<'a>>, AllocError>
    ensures value { IfOk result (λ r. body_made r ≡ spec.body_judged scope.old (length told.old.items) (two_parts xs.now.items ys.now.items)) }
    ensures told { OnOk result (map told_of told.new.items ≡ map told_of told.old.items ++ body_messages (two_parts xs.now.items ys.now.items)) }
    ensures same { OnOk result (scope.new ≡ scope.old) }
{
    let before = block(alloc, scope, told, xs)?;
    let after = block(alloc, scope, told, ys)?;
    Ok(around(before, after))
}

/// The statements of a procedure.
fn body<'a>(
    alloc: Global,
    scope: &mut Scope<'_>,
    told: &mut Vec<Told<'a>>,
    x: &ParsedBody<'a>,
) -> Result<Option<Body<'a>>, AllocError>
    ensures value { IfOk result (λ r. body_made r ≡ spec.body_judged scope.old (length told.old.items) (syntax.body_tree x.now)) }
    ensures told { OnOk result (map told_of told.new.items ≡ map told_of told.old.items ++ body_messages (syntax.body_tree x.now)) }
    ensures same { OnOk result (scope.new ≡ scope.old) }
{
    match x {
        ParsedBody::Plain(xs) => Ok(plain(block(alloc, scope, told, xs)?)),
        ParsedBody::Preproc(xs) => Ok(preproc(block(alloc, scope, told, xs)?)),
        ParsedBody::Both(xs, ys) => both_parts(alloc, scope, told, xs, ys),
        ParsedBody::Postproc(xs) => Ok(postproc(block(alloc, scope, told, xs)?)),
    }
}

/// The statements of a procedure of this owner.
fn body_of<'a>(
    alloc: Global,
    scope: &mut Scope<'_>,
    told: &mut Vec<Told<'a>>,
    owner: Owner,
    x: &ParsedBody<'a>,
) -> Result<Option<Body<'a>>, AllocError>
    ensures value { IfOk result (λ r. body_made r ≡ spec.body_judged (procedure_scope scope.old owner) (length told.old.items) (syntax.body_tree x.now)) }
    ensures told { OnOk result (map told_of told.new.items ≡ map told_of told.old.items ++ body_messages (syntax.body_tree x.now)) }
    ensures same { OnOk result (scope.new ≡ scope.old) }
{
    let routine = scope.routine;
    scope.routine = Routine::Procedure(owner);
    let found = body(alloc, scope, told, x);
    scope.routine = routine;
    found
}

/// A procedure of a known name and a sound body.
fn owned<'a>(
    name: Lexeme<'a>,
    owner: Option<Owner>,
    body: Option<Body<'a>>,
) -> Option<Procedure<'a>>
    ensures { option_map typed.procedure result ≡ joined (spec.procedure_of (written name.entry)) owner (body_made body.entry) }
{
    match owner {
        None => None,
        Some(owner) => match body {
            None => None,
            Some(body) => Some(Procedure { name, owner, body }),
        },
    }
}

/// A procedure, or none where it isn't sound. One of an unknown name is looked at as the level's, since its messages are counted.
fn procedure<'a>(
    alloc: Global,
    scope: &mut Scope<'_>,
    told: &mut Vec<Told<'a>>,
    x: &Parsed<'a>,
) -> Result<Option<Procedure<'a>>, AllocError>
    ensures value { IfOk result (λ r. option_map typed.procedure r ≡ spec.procedure_judged scope.old (length told.old.items) (syntax.procedure x.now)) }
    ensures told { OnOk result (map told_of told.new.items ≡ map told_of told.old.items ++ body_messages (syntax.body_tree x.now.body)) }
    ensures same { OnOk result (scope.new ≡ scope.old) }
{
    let owner = owner_named(alloc, scope.dictionary, x.name)?;
    match body_of(alloc, scope, told, owner.unwrap_or(Owner::Level), &x.body) {
        Ok(found) => Ok(owned(x.name, owner, found)),
        Err(fault) => Err(fault),
    }
}

/// One procedure more, and whether it is sound.
#[tactic(auto, using(crate::proofs::ProcedureLaws::kept_made, crate::proofs::ProcedureLaws::made_there))]
fn one_more<'a>(
    alloc: Global,
    scope: &mut Scope<'_>,
    told: &mut Vec<Told<'a>>,
    found: &mut Vec<Procedure<'a>>,
    x: &Parsed<'a>,
) -> Result<bool, AllocError>
    ensures found { OnOk result (FindsMore found.old.items found.new.items (spec.procedure_judged scope.old (length told.old.items) (syntax.procedure x.now))) }
    ensures there { IfOk result (λ b. b ≡ is_there (spec.procedure_judged scope.old (length told.old.items) (syntax.procedure x.now))) }
    ensures told { OnOk result (map told_of told.new.items ≡ map told_of told.old.items ++ body_messages (syntax.body_tree x.now.body)) }
    ensures same { OnOk result (scope.new ≡ scope.old) }
{
    match procedure(alloc, scope, told, x) {
        Err(fault) => Err(fault),
        Ok(next) => keep(found, next),
    }
}

/// Procedures, or none where one isn't sound.
pub fn procedures<'a>(
    alloc: Global,
    scope: &mut Scope<'_>,
    told: &mut Vec<Told<'a>>,
    all: &[Parsed<'a>],
) -> Result<Option<Vec<Procedure<'a>>>, AllocError>
    ensures value { IfOk result (λ r. procedures_made r ≡ spec.procedures_judged scope.old (length told.old.items) (map syntax.procedure all.now)) }
    ensures told { OnOk result (map told_of told.new.items ≡ map told_of told.old.items ++ procedure_messages (map syntax.procedure all.now)) }
    ensures same { OnOk result (scope.new ≡ scope.old) }
{
    let mut found = Vec::new(alloc);
    let mut is_sound = true;
    'all: for x in all {
        let is_there = one_more(alloc, scope, told, &mut found, x)?;
        is_sound = both_hold(is_sound, is_there);
    }
    if is_sound { Ok(Some(found)) } else { Ok(None) }
}
