//! The faults of what `errmsg` says.

ghost use Rattle.std.specs.Prelude.{◌≡◌, ◌≤◌, ◌++◌, ◌==◌, false, find, length, map, drop, OnOk, Some, None};
ghost use Rattle.std.specs.Option.{option_map};
ghost use Rattle.cse_image_parts.specs.Placeholders.{message_kinds};
ghost use Rattle.cse_syntax_tree.specs.Leaf as leaf;
ghost use Rattle.cse_syntax_tree.specs.Tree.{expr, exprs, message};
ghost use Rattle.cse_logic_names.specs.MessageFile.{MessageText};
ghost use Rattle.cse_logic_names.specs.WellTyped as well;
ghost use Rattle.cse_logic_faults.specs.Faults as faults;
ghost use Rattle.cse_logic_faults.specs.FaultsOfExpressions.{expr_faults, count_of};
ghost use Rattle.cse_logic_faults.specs.FaultsOfStatements as spec;
ghost use Rattle.cse_logic_faults.specs.Operators.{argument_faults};
ghost use Rattle.cse_logic_faults.specs.Listed.{sort};
ghost use Rattle.cse_logic_faults.specs.Numbers.{ranged};
ghost use Rattle.cse_logic_faults.specs.Clauses.{filled_faults, said_faults};

use crate::counts::Counts;
use crate::expression::expression;
use crate::found::Found;
use crate::kind::{Kind, is_number, is_text, kind_of};
use cse_fault_numbers::{OTHER_KIND, OTHER_PLACEHOLDERS, UNKNOWN_NAME};
use cse_image_parts::placeholders::{ArgumentKind, Kinds, count_placeholders};
use cse_logic_names::messages::Messages;
use cse_logic_names::scope::Scope;
use cse_syntax_tree::{Expression, Message, number_of};
use std::alloc::AllocError;

/// What stands between the quotes of a text.
fn inside(text: &[u8]) -> &[u8]
    ensures { result.now ≡ leaf.text_of text.now }
{
    match text.split_first() {
        None => text,
        Some((_, rest)) => &rest[..rest.len().saturating_sub(1)],
    }
}

/// A number that a message may have.
fn in_range(number: u64) -> Option<u32>
    ensures { result ≡ ranged number }
{
    if number == 0 {
        return None;
    }
    if number > 999_999_999 {
        return None;
    }
    Some(number as u32)
}

/// The number of a message that digits write.
fn message_number(digits: &str) -> Option<u32>
    ensures { result ≡ well.message_number digits.now }
{
    match number_of(digits) {
        None => None,
        Some(number) => in_range(number),
    }
}

/// The text of the message of a number.
fn numbered(messages: &Messages, number: Option<u32>) -> Option<&[u8]>
    ensures { option_map (λ t. t.now) result ≡ option_map (λ (x : MessageText). x.text) (well.numbered messages.now number) }
{
    match number {
        None => None,
        Some(number) => match messages.get(number) {
            None => None,
            Some(text) => Some(text.as_bytes()),
        },
    }
}

/// The text of a message.
fn text_meant<'m>(messages: &'m Messages, said: Message<'m>) -> Option<&'m [u8]>
    ensures { option_map (λ t. t.now) result ≡ option_map (λ (x : MessageText). x.text) (well.message_meant messages.now (message said.entry)) }
{
    match said {
        Message::Text(text) => Some(inside(text.text.as_bytes())),
        Message::Number(digits) => numbered(messages, message_number(digits.text)),
    }
}

/// Values of no known kind.
fn values_in(
    scope: &Scope<'_>,
    counts: &Counts,
    found: &mut Found,
    all: &Vec<Expression<'_>>,
) -> Result<(), AllocError>
    ensures { OnOk result (found.new ≡ found.old ++ spec.values_faults counts.now scope.now (exprs (map expr all.now.items))) }
{
    'all: for x in all {
        expression(scope, counts, found, false, x)?;
    }
    Ok(())
}

/// Whether a value of this kind has a placeholder's.
fn is_of(wanted: ArgumentKind, kind: Kind) -> bool
    ensures { result ≡ spec.is_of wanted (sort kind) }
{
    match wanted {
        ArgumentKind::Number => !is_text(kind),
        ArgumentKind::Text => !is_number(kind),
    }
}

/// A value for a placeholder of this kind; a fault of its kind stands at its first token.
#[tactic(auto, using(crate::proofs::Lists::behind))]
fn argument(
    scope: &Scope<'_>,
    counts: &Counts,
    found: &mut Found,
    kind: Option<ArgumentKind>,
    x: &Expression<'_>,
) -> Result<(), AllocError>
    ensures { OnOk result (found.new ≡ found.old ++ argument_faults counts.now scope.now kind (expr x.now)) }
{
    match kind {
        None => expression(scope, counts, found, false, x),
        Some(kind) => {
            expression(scope, counts, found, false, x)?;
            found.unless(is_of(kind, kind_of(scope, x)), OTHER_KIND, x.token())
        }
    }
}

/// A value for each placeholder of a text.
fn arguments(
    scope: &Scope<'_>,
    counts: &Counts,
    found: &mut Found,
    text: &[u8],
    values: &Vec<Expression<'_>>,
) -> Result<(), AllocError>
    ensures { OnOk result (found.new ≡ found.old ++ spec.arguments_faults counts.now scope.now (message_kinds text.now) (exprs (map expr values.now.items))) }
{
    let mut kinds = Kinds::new(text);
    'all: for x in values {
        let kind = kinds.next();
        argument(scope, counts, found, kind, x)?;
    }
    Ok(())
}

/// Whether as many values stand there as the text has placeholders.
#[tactic(auto, using(crate::proofs::Nodes::values_count))]
fn has_values(text: &[u8], values: &Vec<Expression<'_>>) -> bool
    ensures { result ≡ (length (message_kinds text.now) == count_of (exprs (map expr values.now.items))) }
{
    count_placeholders(text) == values.len()
}

/// Values without a message of as many placeholders: this fault of it, and theirs.
#[tactic(auto, using(crate::proofs::Lists::behind))]
fn unfilled(
    scope: &Scope<'_>,
    counts: &Counts,
    found: &mut Found,
    number: u8,
    token: usize,
    values: &Vec<Expression<'_>>,
) -> Result<(), AllocError>
    requires least { 40 ≤ number }
    requires most { number ≤ 49 }
    ensures { OnOk result (found.new ≡ found.old ++ (faults.only number token ++ spec.values_faults counts.now scope.now (exprs (map expr values.now.items)))) }
{
    found.add(number, token)?;
    values_in(scope, counts, found, values)
}

/// A message of this text, with its values.
fn filled(
    scope: &Scope<'_>,
    counts: &Counts,
    found: &mut Found,
    text: &[u8],
    token: usize,
    values: &Vec<Expression<'_>>,
) -> Result<(), AllocError>
    ensures { OnOk result (found.new ≡ found.old ++ filled_faults counts.now scope.now token text.now values.now.items) }
{
    if has_values(text, values) {
        arguments(scope, counts, found, text, values)
    } else {
        unfilled(scope, counts, found, OTHER_PLACEHOLDERS, token, values)
    }
}

/// A message, with its values.
pub fn err_msg(
    scope: &Scope<'_>,
    counts: &Counts,
    found: &mut Found,
    said: Message<'_>,
    values: &Vec<Expression<'_>>,
) -> Result<(), AllocError>
    ensures { OnOk result (found.new ≡ found.old ++ said_faults counts.now scope.now said.entry values.now.items) }
{
    match text_meant(scope.messages, said) {
        None => unfilled(scope, counts, found, UNKNOWN_NAME, said.token(), values),
        Some(text) => filled(scope, counts, found, text, said.token(), values),
    }
}
