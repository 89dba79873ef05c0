//! Sources that are checked: each name stands beside what it names, and each rule of 40 to 49 is kept.

ghost use Rattle.std.specs.Prelude.{◌≡◌, ◌≤◌, ◌⊎◌, false, IfOk, IfErr};
ghost use Rattle.std.specs.Option.{option_map};
ghost use Rattle.cse_syntax_tree.specs.Tree as syntax;
ghost use Rattle.cse_syntax_tree.specs.Grammar.{spell_tree};
ghost use Rattle.cse_syntax.specs.Place as place;
ghost use Rattle.cse_logic_tree.specs.Typed as typed;
ghost use Rattle.cse_types.specs.Answer.{IsAnswer, checked};
ghost use Rattle.cse_types.specs.Checked.{IsChecked};
ghost use Rattle.cse_logic_names.specs.Fault.{out_of_memory};
ghost use Rattle.cse_logic_names.specs.OrderFile.{IsOrderOf};
ghost use Rattle.cse_logic_names.specs.Texts.{AreTexts, AreUtf8};
ghost use Rattle.cse_types.specs.JudgeTree.{typed_of};
ghost use Rattle.cse_types.specs.TheFault.{IsLeast};
ghost use Rattle.cse_logic_names.specs.WellTyped.{IsTypedAs};
ghost use Rattle.cse_logic_names.specs.Walk.{is_there};

use crate::collected::faults;
use crate::parts::judged;
use crate::reading::read_tokens;
use crate::typed::Typed;
use cse_dict::Dictionary;
use cse_fault_numbers::WANT_OF_MEMORY;
use cse_logic_faults::least;
use cse_logic_names::error::TypeError;
use cse_logic_names::faults::Fault;
use cse_logic_names::messages::Messages;
use cse_logic_names::order::Order;
use cse_logic_tree::Tree;
use cse_syntax::Source;
use std::alloc::Global;

/// Want of memory has no place.
fn memory() -> TypeError
    ensures { result ≡ out_of_memory }
{
    TypeError {
        number: WANT_OF_MEMORY,
        line: 0,
        column: 0,
    }
}

/// A fault with its line and column.
fn located(source: &Source<'_>, fault: Fault) -> TypeError
    ensures number { result.number ≡ fault.number }
    ensures least { 40 ≤ result.number }
    ensures most { result.number ≤ 49 }
    ensures line { result.line ≡ place.cut (place.line_of source.now.text.now (place.start_of source.now.text.now source.now.tokens.items fault.token)) }
    ensures column { result.column ≡ place.cut (place.column_of source.now.text.now (place.start_of source.now.text.now source.now.tokens.items fault.token)) }
{
    let at = source.position(fault.token);
    TypeError {
        number: fault.number,
        line: u64::from(at.line),
        column: u64::from(at.column),
    }
}

/// The first of all faults, by place and then by number.
fn told<'a>(
    alloc: Global,
    dictionary: &'a Dictionary,
    source: &Source<'a>,
    messages: &'a Messages,
) -> TypeError
    requires { is_there (typed_of dictionary.now messages.now (syntax.tree source.now.tree)) ≡ false }
    ensures cause { ((40 ≤ result.number) × (result.number ≤ 49)) ⊎ (result ≡ out_of_memory) }
    ensures fault { IsLeast dictionary.now messages.now (syntax.tree source.now.tree) source.now.text.now source.now.tokens.items result }
{
    match faults(alloc, dictionary, messages, &source.tree) {
        Err(_) => memory(),
        Ok(all) => match least(&all) {
            None => unreachable!(),
            Some(fault) => located(source, fault),
        },
    }
}

/// What was found, for whom it was made.
fn made_for<'a>(
    dictionary: &'a Dictionary,
    messages: &'a Messages,
    order: &'a Order,
    tree: Tree<'a>,
) -> Typed<'a>
    requires { IsChecked (record { dictionary = dictionary.now; messages = messages.now; order = order.now; tree = typed.tree tree }) }
    ensures { checked result ≡ record { dictionary = dictionary.now; messages = messages.now; order = order.now; tree = typed.tree tree.entry } }
{
    Typed {
        dictionary,
        messages,
        order,
        tree,
    }
}

/// The answer, where this tree was found, or none.
fn answer<'a>(
    alloc: Global,
    dictionary: &'a Dictionary,
    source: &Source<'a>,
    messages: &'a Messages,
    order: &'a Order,
    found: Option<Tree<'a>>,
) -> Result<Typed<'a>, TypeError>
    requires order { IsOrderOf dictionary.now order.now }
    requires utf8 { ∥ AreUtf8 (spell_tree (syntax.tree source.now.tree)) ∥₁ }
    requires texts { AreTexts messages.now }
    requires found { option_map typed.tree found ≡ typed_of dictionary.now messages.now (syntax.tree source.now.tree) }
    ensures sound { IfOk result (λ t. IsTypedAs dictionary.now messages.now (syntax.tree source.now.tree) (checked t).tree) }
    ensures made_for { IfOk result (λ t. ((checked t).dictionary ≡ dictionary.now) × ((checked t).messages ≡ messages.now) × ((checked t).order ≡ order.now)) }
    ensures only { (t : typed.Tree) → IsTypedAs dictionary.now messages.now (syntax.tree source.now.tree) t → IsAnswer result t }
    ensures cause { IfErr result (λ e. ((40 ≤ e.number) × (e.number ≤ 49)) ⊎ (e ≡ out_of_memory)) }
    ensures fault { IfErr result (IsLeast dictionary.now messages.now (syntax.tree source.now.tree) source.now.text.now source.now.tokens.items) }
{
    match found {
        None => Err(told(alloc, dictionary, source, messages)),
        Some(tree) => Ok(made_for(dictionary, messages, order, tree)),
    }
}

/// The typed tree of a source, for a dictionary, the messages of a message file and the records of an order file.
///
/// A source that keeps each rule has one typed tree, and that is the answer. Else the fault with the least token, and of
/// these the one with the least number (40 to 49, see [`TypeError`]), with its line and column; or want of memory (90).
pub fn check<'a>(
    alloc: Global,
    dictionary: &'a Dictionary,
    source: &Source<'a>,
    messages: &'a Messages,
    order: &'a Order,
) -> Result<Typed<'a>, TypeError>
    requires { IsOrderOf dictionary.now order.now }
    // The tree is that of the source, and keeps each rule.
    ensures sound { IfOk result (λ t. IsTypedAs dictionary.now messages.now (syntax.tree source.now.tree) (checked t).tree) }
    ensures made_for { IfOk result (λ t. ((checked t).dictionary ≡ dictionary.now) × ((checked t).messages ≡ messages.now) × ((checked t).order ≡ order.now)) }
    // Where there is such a tree, it is the answer, unless memory runs out.
    ensures only { (t : typed.Tree) → IsTypedAs dictionary.now messages.now (syntax.tree source.now.tree) t → IsAnswer result t }
    ensures cause { IfErr result (λ e. ((40 ≤ e.number) × (e.number ≤ 49)) ⊎ (e ≡ out_of_memory)) }
    // Else the fault is the first of all, by place and then by number.
    ensures fault { IfErr result (IsLeast dictionary.now messages.now (syntax.tree source.now.tree) source.now.text.now source.now.tokens.items) }
{
    read_tokens(&source.tokens);
    messages.count();
    match judged(alloc, dictionary, messages, &source.tree) {
        Err(_) => Err(memory()),
        Ok(found) => answer(alloc, dictionary, source, messages, order, found),
    }
}
