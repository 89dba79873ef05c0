//! What `errmsg` says: its message, and a value for each placeholder.

ghost use Rattle.std.specs.Prelude.{◌≡◌, ◌==◌, false, map, length, Some, None, IfOk};
ghost use Rattle.std.specs.Option.{option_map};
ghost use Rattle.cse_image_parts.specs.Placeholders.{message_kinds};
ghost use Rattle.cse_syntax_tree.specs.Leaf as leaf;
ghost use Rattle.cse_syntax_tree.specs.Tree.{expr, exprs, message};
ghost use Rattle.cse_logic_tree.specs.Typed as typed;
ghost use Rattle.cse_logic_tree.specs.Typed.{argument, statement};
ghost use Rattle.cse_logic_names.specs.MessageFile.{MessageText};
ghost use Rattle.cse_logic_names.specs.WellTyped.{kinds_of, message_meant, message_number, numbered};
ghost use Rattle.cse_logic_expressions.specs.Judge.{expr_count};
ghost use Rattle.cse_logic_expressions.specs.JudgeStatement as spec;
ghost use Rattle.cse_logic_expressions.specs.JudgeStatement.{as_argument, judge_arguments, ranged};
ghost use Rattle.cse_logic_expressions.specs.Clauses.{judged_alone, number_alone, text_alone};
ghost use Rattle.cse_logic_names.specs.Walk.{is_there};

use crate::assign::{count_of, text};
use crate::expression::{value, written_number};
use crate::list::{both_hold, keep};
use crate::made::statement_found;
use cse_image_parts::placeholders::{ArgumentKind, Kinds, count_placeholders};
use cse_logic_names::messages::Messages;
use cse_logic_names::scope::Scope;
use cse_logic_tree::{Argument, Statement, StatementKind};
use cse_syntax_tree::{Expression, Message};
use std::alloc::{AllocError, Global};

/// What stands between the quotes of a text.
fn inside(text: &[u8]) -> &[u8]
    ensures { result.now ≡ leaf.text_of text.now }
{
    match text.split_first() {
        None => text,
        Some((_, rest)) => &rest[..rest.len().saturating_sub(1)],
    }
}

/// A number that a message may have.
fn in_range(number: u64) -> Option<u32>
    ensures { result ≡ ranged number }
{
    if number == 0 {
        return None;
    }
    if number > 999_999_999 {
        return None;
    }
    Some(number as u32)
}

/// The number of a message that digits write.
pub fn message_number(digits: &str) -> Option<u32>
    ensures { result ≡ message_number digits.now }
{
    match written_number(digits) {
        None => None,
        Some(number) => in_range(number),
    }
}

/// The text of the message of a number.
fn numbered(messages: &Messages, number: Option<u32>) -> Option<&[u8]>
    ensures { option_map (λ t. t.now) result ≡ option_map (λ (x : MessageText). x.text) (numbered messages.now number) }
{
    match number {
        None => None,
        Some(number) => match messages.get(number) {
            None => None,
            Some(text) => Some(text.as_bytes()),
        },
    }
}

/// The text of a message.
fn text_meant<'m>(messages: &'m Messages, said: Message<'m>) -> Option<&'m [u8]>
    ensures { option_map (λ t. t.now) result ≡ option_map (λ (x : MessageText). x.text) (message_meant messages.now (message said.entry)) }
{
    match said {
        Message::Text(text) => Some(inside(text.text.as_bytes())),
        Message::Number(digits) => numbered(messages, message_number(digits.text)),
    }
}

fn number_argument<'a>(
    alloc: Global,
    scope: &Scope<'_>,
    x: &Expression<'a>,
) -> Result<Option<Argument<'a>>, AllocError>
    ensures { IfOk result (λ r. option_map argument r ≡ option_map typed.OfNumber (number_alone scope.now x.now)) }
{
    match value(alloc, scope, false, x)? {
        None => Ok(None),
        Some(x) => Ok(Some(Argument::Number(x))),
    }
}

fn text_argument<'a>(
    alloc: Global,
    scope: &Scope<'_>,
    x: &Expression<'a>,
) -> Result<Option<Argument<'a>>, AllocError>
    ensures { IfOk result (λ r. option_map argument r ≡ option_map typed.OfWords (text_alone scope.now x.now)) }
{
    match text(alloc, scope, x)? {
        None => Ok(None),
        Some(x) => Ok(Some(Argument::Words(x))),
    }
}

/// A value for a placeholder of this kind.
fn one_argument<'a>(
    alloc: Global,
    scope: &Scope<'_>,
    kind: Option<ArgumentKind>,
    x: &Expression<'a>,
) -> Result<Option<Argument<'a>>, AllocError>
    ensures { IfOk result (λ r. option_map argument r ≡ as_argument kind (judged_alone scope.now x.now)) }
{
    match kind {
        None => Ok(None),
        Some(ArgumentKind::Number) => number_argument(alloc, scope, x),
        Some(ArgumentKind::Text) => text_argument(alloc, scope, x),
    }
}

/// A value for each placeholder of a text, of its kind.
fn arguments<'a>(
    alloc: Global,
    scope: &Scope<'_>,
    text: &[u8],
    values: &Vec<Expression<'a>>,
) -> Result<Option<Vec<Argument<'a>>>, AllocError>
    ensures { IfOk result (λ r. option_map (λ v. map argument v.items) r
        ≡ judge_arguments scope.now (message_kinds text.now) (exprs (map expr values.now.items))) }
{
    let mut kinds = Kinds::new(text);
    let mut found = Vec::new(alloc);
    let mut is_sound = true;
    'all: for x in values {
        let kind = kinds.next();
        let next = one_argument(alloc, scope, kind, x)?;
        let is_there = keep(&mut found, next)?;
        is_sound = both_hold(is_sound, is_there);
    }
    if is_sound { Ok(Some(found)) } else { Ok(None) }
}

/// Whether as many values stand there as the text has placeholders.
fn has_values(text: &[u8], values: &Vec<Expression<'_>>) -> bool
    ensures { result ≡ (length (message_kinds text.now) == expr_count (exprs (map expr values.now.items))) }
{
    count_placeholders(text) == count_of(values)
}

/// A message of this text, with its values.
#[tactic(auto, using(cse_logic_names::proofs::Walks::there_map))]
fn filled<'a>(
    alloc: Global,
    scope: &Scope<'_>,
    text: &[u8],
    said: Message<'a>,
    index: usize,
    is_summary: bool,
    values: &Vec<Expression<'a>>,
) -> Result<Option<Statement<'a>>, AllocError>
    ensures { IfOk result (λ r. option_map statement r
        ≡ spec.err_msg scope.now (Some (message_kinds text.now)) (message said.entry) index is_summary (exprs (map expr values.now.items))) }
{
    if !has_values(text, values) {
        return Ok(None);
    }
    match arguments(alloc, scope, text, values)? {
        None => Ok(None),
        Some(values) => statement_found(
            alloc,
            StatementKind::ErrMsg(said, index, values, is_summary),
        ),
    }
}

/// The message of this index among those of the source, where its number is known and each of its placeholders has a value of
/// its kind.
pub fn err_msg<'a>(
    alloc: Global,
    scope: &Scope<'_>,
    said: Message<'a>,
    index: usize,
    is_summary: bool,
    values: &Vec<Expression<'a>>,
) -> Result<Option<Statement<'a>>, AllocError>
    ensures { IfOk result (λ r. option_map statement r ≡ spec.err_msg scope.now (kinds_of scope.now.messages (message said.entry))
        (message said.entry) index is_summary (exprs (map expr values.now.items))) }
{
    match text_meant(scope.messages, said) {
        None => Ok(None),
        Some(text) => filled(alloc, scope, text, said, index, is_summary, values),
    }
}
