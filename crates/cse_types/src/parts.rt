//! A source's tree, from names to the typed one.

ghost use Rattle.std.specs.Prelude.{◌≡◌, true, [], map, Some, None, IfOk, OnOk};
ghost use Rattle.std.specs.Option.{option_map};
ghost use Rattle.cse_syntax_tree.specs.Tree as syntax;
ghost use Rattle.cse_logic_tree.specs.Typed as typed;
ghost use Rattle.cse_types.specs.TreeOver as spec;
ghost use Rattle.cse_types.specs.TreeOver.{parts_judged, tree_over, with_entries};
ghost use Rattle.cse_types.specs.Fresh.{fresh_names};
ghost use Rattle.cse_types.specs.Entries.{are_said};
ghost use Rattle.cse_types.specs.JudgeTree as judge;
ghost use Rattle.cse_types.specs.Parts.{parts_tree};
ghost use Rattle.cse_types.specs.Told.{told_of};
ghost use Rattle.cse_logic_names.specs.WellTyped.{declared_messages, tree_messages};
ghost use Rattle.cse_logic_names.specs.Walk.{joined};
ghost use Rattle.cse_types.specs.SourceClauses.{declarations_made, globals_made, procedures_made};
ghost use Rattle.cse_types.specs.PartClauses.{globals_of};
ghost use Rattle.cse_types.specs.Names.{owner_names};

use crate::declaration::declarations;
use crate::entries::entries;
use crate::owners::owners;
use crate::procedure::procedures;
use crate::start::{declared_names, procedures_in, start};
use crate::told::Told;
use cse_dict::Dictionary;
use cse_logic_expressions::list::both_hold;
use cse_logic_names::messages::Messages;
use cse_logic_names::names::Names;
use cse_logic_names::scope::Scope;
use cse_logic_tree::{Declaration, Procedure, Tree};
use cse_syntax_tree::Tree as Parsed;
use std::alloc::{AllocError, Global};

/// The declarations, if there are any, and the procedures.
#[derive(Drop)]
pub struct Parts<'a> {
    pub globals: Option<Vec<Declaration<'a>>>,
    pub procedures: Vec<Procedure<'a>>,
}

fn present<'a>(found: Option<Vec<Declaration<'a>>>) -> Option<Option<Vec<Declaration<'a>>>>
    ensures { globals_made result ≡ option_map (λ ys. Some ys) (declarations_made found.entry) }
{
    match found {
        None => None,
        Some(found) => Some(Some(found)),
    }
}

/// The declarations, if there are any; none where one isn't sound.
fn globals<'a>(
    alloc: Global,
    scope: &mut Scope<'_>,
    told: &mut Vec<Told<'a>>,
    tree: &Parsed<'a>,
) -> Result<Option<Option<Vec<Declaration<'a>>>>, AllocError>
    requires { told.old.items ≡ [] }
    ensures value { IfOk result (λ r. globals_made r ≡ judge.globals_judged scope.old (syntax.tree tree.now).globals) }
    ensures behind { OnOk result (scope.new ≡ judge.behind_all scope.old 0 (globals_of tree.now)) }
    ensures told { OnOk result (map told_of told.new.items ≡ declared_messages (globals_of tree.now)) }
{
    match &tree.globals {
        None => Ok(Some(None)),
        Some(all) => match declarations(alloc, scope, told, all) {
            Err(fault) => Err(fault),
            Ok(found) => Ok(present(found)),
        },
    }
}

fn parts_of<'a>(
    globals: Option<Option<Vec<Declaration<'a>>>>,
    procedures: Option<Vec<Procedure<'a>>>,
) -> Option<Parts<'a>>
    ensures { option_map parts_tree result ≡ joined spec.parts_of (globals_made globals.entry) (procedures_made procedures.entry) }
{
    match globals {
        None => None,
        Some(globals) => match procedures {
            None => None,
            Some(procedures) => Some(Parts {
                globals,
                procedures,
            }),
        },
    }
}

/// The declarations and the procedures, or none where one isn't sound.
fn all_parts<'a>(
    alloc: Global,
    scope: &mut Scope<'_>,
    told: &mut Vec<Told<'a>>,
    tree: &Parsed<'a>,
) -> Result<Option<Parts<'a>>, AllocError>
    requires { told.old.items ≡ [] }
    ensures value { IfOk result (λ r. option_map parts_tree r ≡ parts_judged scope.old (syntax.tree tree.now)) }
    ensures told { OnOk result (map told_of told.new.items ≡ tree_messages (syntax.tree tree.now)) }
{
    let globals = match globals(alloc, scope, told, tree) {
        Err(fault) => return Err(fault),
        Ok(globals) => globals,
    };
    let all = procedures_in(tree);
    match procedures(alloc, scope, told, all) {
        Err(fault) => Err(fault),
        Ok(procedures) => Ok(parts_of(globals, procedures)),
    }
}

/// The parts as a tree, with the messages of the source.
fn whole_tree<'a>(
    alloc: Global,
    messages: &'a Messages,
    told: &Vec<Told<'a>>,
    parts: Parts<'a>,
) -> Result<Tree<'a>, AllocError>
    requires { are_said (map told_of told.now.items) ≡ true }
    ensures { IfOk result (λ t. typed.tree t ≡ with_entries messages.now (map told_of told.now.items) (parts_tree parts.entry)) }
{
    let messages = entries(alloc, messages, told)?;
    Ok(Tree {
        globals: parts.globals,
        procedures: parts.procedures,
        messages,
    })
}

fn tree_of<'a>(
    alloc: Global,
    messages: &'a Messages,
    told: &Vec<Told<'a>>,
    parts: Option<Parts<'a>>,
) -> Result<Option<Tree<'a>>, AllocError>
    requires { are_said (map told_of told.now.items) ≡ true }
    ensures { IfOk result (λ r. option_map typed.tree r ≡ option_map (with_entries messages.now (map told_of told.now.items)) (option_map parts_tree parts.entry)) }
{
    match parts {
        None => Ok(None),
        Some(parts) => match whole_tree(alloc, messages, told, parts) {
            Err(fault) => Err(fault),
            Ok(tree) => Ok(Some(tree)),
        },
    }
}

/// Whether each procedure has a name of its own.
fn are_apart(alloc: Global, tree: &Parsed<'_>) -> Result<bool, AllocError>
    ensures { IfOk result (λ b. b ≡ (fresh_names (λ name. true) (owner_names (syntax.tree tree.now).procedures)).is_sound) }
{
    let fresh = owners(alloc, procedures_in(tree))?;
    Ok(fresh.is_sound)
}

/// The typed tree of a source's tree in this scope of what is known before the first function ends.
fn tree_in<'a>(
    alloc: Global,
    scope: &mut Scope<'_>,
    messages: &'a Messages,
    tree: &Parsed<'a>,
) -> Result<Option<Tree<'a>>, AllocError>
    requires { are_said (tree_messages (syntax.tree tree.now)) ≡ true }
    ensures { IfOk result (λ r. option_map typed.tree r
        ≡ option_map (with_entries messages.now (tree_messages (syntax.tree tree.now))) (parts_judged scope.old (syntax.tree tree.now))) }
{
    let mut told = Vec::new(alloc);
    match all_parts(alloc, scope, &mut told, tree) {
        Err(fault) => Err(fault),
        Ok(parts) => tree_of(alloc, messages, &told, parts),
    }
}

/// The typed tree of a source's tree whose declarations have these names, or none where a part isn't sound.
fn tree_with<'a>(
    alloc: Global,
    dictionary: &'a Dictionary,
    messages: &'a Messages,
    names: Names,
    tree: &Parsed<'a>,
) -> Result<Option<Tree<'a>>, AllocError>
    requires { are_said (tree_messages (syntax.tree tree.now)) ≡ true }
    ensures { IfOk result (λ r. option_map typed.tree r ≡ tree_over dictionary.now messages.now names (syntax.tree tree.now)) }
{
    match start(alloc, dictionary, messages, names, tree) {
        Err(fault) => Err(fault),
        Ok(mut scope) => tree_in(alloc, &mut scope, messages, tree),
    }
}

/// The typed tree of a source's tree, or none where a rule is broken.
pub fn judged<'a>(
    alloc: Global,
    dictionary: &'a Dictionary,
    messages: &'a Messages,
    tree: &Parsed<'a>,
) -> Result<Option<Tree<'a>>, AllocError>
    requires { are_said (tree_messages (syntax.tree tree.now)) ≡ true }
    ensures { IfOk result (λ r. option_map typed.tree r ≡ judge.typed_of dictionary.now messages.now (syntax.tree tree.now)) }
{
    let are_apart = are_apart(alloc, tree)?;
    let table = declared_names(alloc, dictionary, tree)?;
    let is_sound = both_hold(table.is_sound, are_apart);
    if is_sound {
        tree_with(alloc, dictionary, messages, table.names, tree)
    } else {
        Ok(None)
    }
}
