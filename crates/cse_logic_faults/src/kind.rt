//! Numbers and texts.

ghost use Rattle.std.specs.Prelude.{◌≡◌, Some};
ghost use Rattle.cse_syntax_tree.specs.Tree.{expr, written};
ghost use Rattle.cse_logic_names.specs.declared.meaning.Meaning.TheVariants as m;
ghost use Rattle.cse_logic_names.specs.Scope as scopes;
ghost use Rattle.cse_logic_faults.specs.Faults as spec;
ghost use Rattle.cse_logic_faults.specs.Listed.{sort};

use cse_dict::Dictionary;
use cse_logic_names::meaning::Meaning;
use cse_logic_names::scope::{Scope, kind_and_owner, own_result};
use cse_syntax_tree::{Expression, ExpressionKind, Lexeme};
use cse_value::shape::ItemKind;

/// A number or a text; none of them is known of a name that means neither.
#[derive(Clone, Copy)]
pub enum Kind {
    Number,
    Text,
    Unknown,
}

/// Whether it is a text.
pub fn is_text(kind: Kind) -> bool
    ensures { result ≡ spec.is_text (sort kind) }
{
    match kind {
        Kind::Text => true,
        Kind::Number => false,
        Kind::Unknown => false,
    }
}

/// Whether it is a number.
pub fn is_number(kind: Kind) -> bool
    ensures { result ≡ spec.is_number (sort kind) }
{
    match kind {
        Kind::Number => true,
        Kind::Text => false,
        Kind::Unknown => false,
    }
}

fn item_kind(dictionary: &Dictionary, item: u16) -> Kind
    ensures { sort result ≡ spec.item_sort (scopes.kind_and_owner dictionary.now item) }
{
    match kind_and_owner(dictionary, item) {
        None => Kind::Unknown,
        Some((kind, _)) => match kind {
            ItemKind::Opaque => Kind::Unknown,
            ItemKind::Number => Kind::Number,
            ItemKind::Text => Kind::Text,
        },
    }
}

fn result_kind(scope: &Scope<'_>, function: usize) -> Kind
    ensures { sort result ≡ spec.bare_sort scope.now (Some (m.Function function)) }
{
    match own_result(scope.routine, function) {
        None => Kind::Unknown,
        Some(_) => Kind::Number,
    }
}

/// What a name without parentheses is.
fn bare(scope: &Scope<'_>, name: Lexeme<'_>) -> Kind
    ensures { sort result ≡ spec.bare_sort scope.now (scopes.meant scope.now (written name.entry)) }
{
    match scope.meant(name) {
        None => Kind::Unknown,
        Some(meaning) => match meaning {
            Meaning::Variable(_) => Kind::Number,
            Meaning::Text(_) => Kind::Text,
            Meaning::Array(_) => Kind::Number,
            Meaning::Function(function) => result_kind(scope, function),
            Meaning::Record(_) => Kind::Unknown,
            Meaning::Item(item) => item_kind(scope.dictionary, item),
            Meaning::Set(_) => Kind::Unknown,
            Meaning::Application => Kind::Unknown,
            Meaning::Level => Kind::Unknown,
        },
    }
}

/// What a name with parentheses is.
fn indexed(scope: &Scope<'_>, name: Lexeme<'_>) -> Kind
    ensures { sort result ≡ spec.indexed_sort scope.now (scopes.meant scope.now (written name.entry)) }
{
    match scope.meant(name) {
        None => Kind::Unknown,
        Some(meaning) => match meaning {
            Meaning::Variable(_) => Kind::Number,
            Meaning::Text(_) => Kind::Text,
            Meaning::Array(_) => Kind::Number,
            Meaning::Function(_) => Kind::Number,
            Meaning::Record(_) => Kind::Unknown,
            Meaning::Item(item) => item_kind(scope.dictionary, item),
            Meaning::Set(_) => Kind::Unknown,
            Meaning::Application => Kind::Unknown,
            Meaning::Level => Kind::Unknown,
        },
    }
}

/// What an expression is.
#[tactic(auto, unfolding(crate::specs::Faults::sort_of), using(crate::proofs::Nodes::indexed_sort_is, crate::proofs::Nodes::chain_sort_is))]
pub fn kind_of(scope: &Scope<'_>, x: &Expression<'_>) -> Kind
    ensures { sort result ≡ spec.sort_of scope.now (expr x.now) }
{
    match &*x.kind {
        ExpressionKind::Number(_) => Kind::Number,
        ExpressionKind::Text(_) => Kind::Text,
        ExpressionKind::Special(_, _) => Kind::Number,
        ExpressionKind::Name(name) => bare(scope, *name),
        ExpressionKind::Indexed(name, _) => indexed(scope, *name),
        ExpressionKind::Group(inner) => kind_of(scope, inner),
        ExpressionKind::Apply(_, _) => Kind::Number,
        ExpressionKind::Query(_, _) => Kind::Number,
        ExpressionKind::InValueSet(_, _) => Kind::Number,
        ExpressionKind::Minus(_) => Kind::Number,
        ExpressionKind::Not(_) => Kind::Number,
        ExpressionKind::Compare(_, _, _) => Kind::Number,
        ExpressionKind::Chain(_, _) => Kind::Number,
    }
}

/// Where a text stands: behind the parentheses around it.
#[tactic(auto, unfolding(crate::specs::Faults::text_token))]
pub fn text_token(x: &Expression<'_>) -> usize
    ensures { result ≡ spec.text_token (expr x.now) }
{
    match &*x.kind {
        ExpressionKind::Group(inner) => text_token(inner),
        _ => x.token(),
    }
}
