//! Statements: from trees of syntax to typed ones.

ghost use Rattle.std.specs.Prelude.{◌≡◌, ◌+◌, [], ◌∷◌, ◌++◌, map, length, Some, None, IfOk, OnOk};
ghost use Rattle.std.specs.Option.{option_map};
ghost use Rattle.cse_syntax_tree.specs.Tree as syntax;
ghost use Rattle.cse_syntax_tree.specs.Tree.{written, stmt, arm_tree as parsed_arm, arms as parsed_arms, otherwise_tree as parsed_otherwise};
ghost use Rattle.cse_logic_tree.specs.Typed as typed;
ghost use Rattle.cse_logic_tree.specs.Typed.{number, statement, arm_tree, otherwise_tree, counting};
ghost use Rattle.cse_logic_names.specs.WellTyped.{messages_in, messages_of};
ghost use Rattle.cse_logic_expressions.specs.JudgeStatement as spec;
ghost use Rattle.cse_logic_expressions.specs.JudgeStatement.{judge_statement, judge_block, judge_arm, judge_each, messages_each, for_head, counting_judged, opened};
ghost use Rattle.cse_types.specs.Told.{told_of};
ghost use Rattle.cse_logic_names.specs.Walk.{is_there, joined};
ghost use Rattle.cse_types.specs.Clauses.{arms_made, block_made, said};

use crate::told::Told;
use cse_logic_expressions::action::{alone, assignment, deck_value, imputation, jump};
use cse_logic_expressions::errmsg::err_msg;
use cse_logic_expressions::expression::value;
use cse_logic_expressions::head::{counting, for_head};
use cse_logic_expressions::list::{both_hold, keep};
use cse_logic_expressions::statement_found;
use cse_logic_names::scope::Scope;
use cse_logic_tree::{Arm, Counting, Number, Statement, StatementKind, Variable};
use cse_syntax_tree::{
    Arm as ParsedArm, Counting as ParsedCounting, Expression, Lexeme, Message, Statement as Parsed,
    StatementKind as ParsedKind,
};
use std::alloc::{AllocError, Global};

fn guarded<'a>(condition: Option<Number<'a>>, body: Option<Vec<Statement<'a>>>) -> Option<Arm<'a>>
    ensures { option_map arm_tree result ≡ joined spec.guarded (option_map number condition.entry) (block_made body.entry) }
{
    match condition.zip(body) {
        None => None,
        Some((condition, body)) => Some(Arm { condition, body }),
    }
}

/// An `if`: its first arm, the others, and its `else`.
fn chosen<'a>(
    alloc: Global,
    first: Option<Arm<'a>>,
    others: Option<Vec<Arm<'a>>>,
    otherwise: Option<Option<Vec<Statement<'a>>>>,
) -> Result<Option<Statement<'a>>, AllocError>
    ensures { IfOk result (λ r. option_map statement r
        ≡ spec.chosen (option_map arm_tree first.entry) (arms_made others.entry) (option_map otherwise_tree otherwise.entry)) }
{
    match first {
        None => Ok(None),
        Some(first) => match others {
            None => Ok(None),
            Some(others) => match otherwise {
                None => Ok(None),
                Some(otherwise) => statement_found(
                    alloc,
                    StatementKind::choice(first, others, otherwise),
                ),
            },
        },
    }
}

fn behind<'a>(body: Option<Vec<Statement<'a>>>) -> Option<Option<Vec<Statement<'a>>>>
    ensures { option_map otherwise_tree result ≡ option_map typed.else_of (block_made body.entry) }
{
    match body {
        None => None,
        Some(body) => Some(Some(body)),
    }
}

fn for_loop(head: Option<(Variable, u8)>) -> Option<(Option<u16>, Variable)>
    ensures { result ≡ option_map spec.for_loop head }
{
    match head {
        None => None,
        Some((variable, over)) => Some((Some(u16::from(over)), variable)),
    }
}

fn do_loop(head: &Option<Counting<'_>>) -> Option<(Option<u16>, Variable)>
    ensures { result ≡ option_map spec.do_loop (option_map counting head.now) }
{
    match head {
        None => None,
        Some(head) => Some((None, head.variable)),
    }
}

fn for_of<'a>(
    alloc: Global,
    variable: Lexeme<'a>,
    record_name: Lexeme<'a>,
    head: Option<(Variable, u8)>,
    body: Option<Vec<Statement<'a>>>,
) -> Result<Option<Statement<'a>>, AllocError>
    ensures { IfOk result (λ r. option_map statement r
        ≡ joined (spec.for_of (written variable.entry) (written record_name.entry)) head (block_made body.entry)) }
{
    match head.zip(body) {
        None => Ok(None),
        Some(((found, over), body)) => {
            let kind = StatementKind::each_occurrence(variable, found, record_name, over, body);
            statement_found(alloc, kind)
        }
    }
}

fn do_of<'a>(
    alloc: Global,
    head: Option<Counting<'a>>,
    body: Option<Vec<Statement<'a>>>,
) -> Result<Option<Statement<'a>>, AllocError>
    ensures { IfOk result (λ r. option_map statement r ≡ joined typed.Do (option_map counting head.entry) (block_made body.entry)) }
{
    match head.zip(body) {
        None => Ok(None),
        Some((head, body)) => statement_found(alloc, StatementKind::counted(head, body)),
    }
}

/// A message, which is one more of the source, sound or not.
#[tactic(auto, unfolding(cse_logic_expressions::specs::JudgeStatement::judge_statement))]
fn one_message<'a>(
    alloc: Global,
    scope: &Scope<'_>,
    told: &mut Vec<Told<'a>>,
    message: Message<'a>,
    values: &Vec<Expression<'a>>,
    is_summary: bool,
) -> Result<Option<Statement<'a>>, AllocError>
    ensures value { IfOk result (λ r. option_map statement r ≡ judge_statement scope.now (length told.old.items) (said message.entry values.now.items is_summary)) }
    ensures told { OnOk result (map told_of told.new.items ≡ map told_of told.old.items ++ (syntax.message message.entry, is_summary) ∷ []) }
{
    let index = told.len();
    told.push(Told {
        message,
        is_summary,
    })?;
    err_msg(alloc, scope, message, index, is_summary, values)
}

/// A statement, or none where it isn't sound.
#[cycle(act)]
fn statement<'a>(
    alloc: Global,
    scope: &mut Scope<'_>,
    told: &mut Vec<Told<'a>>,
    x: &Parsed<'a>,
) -> Result<Option<Statement<'a>>, AllocError>
    ensures value { IfOk result (λ r. option_map statement r ≡ judge_statement scope.old (length told.old.items) (stmt x.now)) }
    ensures told { OnOk result (map told_of told.new.items ≡ map told_of told.old.items ++ messages_in (stmt x.now)) }
    ensures same { OnOk result (scope.new ≡ scope.old) }
{
    match &*x.kind {
        ParsedKind::Empty => statement_found(alloc, StatementKind::Empty),
        ParsedKind::Assign(place, value) => assignment(alloc, scope, place, value),
        ParsedKind::Call(name, arguments) => alone(alloc, scope, *name, arguments),
        ParsedKind::If(first, others, otherwise) => {
            let start = arm(alloc, scope, told, first)?;
            let middle = arms(alloc, scope, told, others)?;
            match otherwise {
                None => chosen(alloc, start, middle, Some(None)),
                Some(body) => {
                    let last = block(alloc, scope, told, body)?;
                    chosen(alloc, start, middle, behind(last))
                }
            }
        }
        ParsedKind::For(variable, record_name, body) => {
            let head = for_head(scope, *variable, *record_name);
            let inner = body_of(alloc, scope, told, for_loop(head), body)?;
            for_of(alloc, *variable, *record_name, head, inner)
        }
        ParsedKind::Do(head, body) => {
            let head = counting(scope, *head);
            let inner = body_of(alloc, scope, told, do_loop(&head), body)?;
            do_of(alloc, head, inner)
        }
        ParsedKind::Jump(token, leaving) => jump(alloc, scope, *token, *leaving),
        ParsedKind::Impute(place, value) => imputation(alloc, scope, place, value),
        ParsedKind::PutDeck(deck, value) => deck_value(alloc, scope, *deck, value),
        ParsedKind::ErrMsg(message, values, is_summary) => {
            one_message(alloc, scope, told, *message, values, *is_summary)
        }
    }
}

/// Statements, or none where one isn't sound. All are judged, and each message of theirs is
/// one more of the source.
#[cycle(act)]
pub fn block<'a>(
    alloc: Global,
    scope: &mut Scope<'_>,
    told: &mut Vec<Told<'a>>,
    statements: &Vec<Parsed<'a>>,
) -> Result<Option<Vec<Statement<'a>>>, AllocError>
    ensures value { IfOk result (λ r. block_made r ≡ judge_block scope.old (length told.old.items) (syntax.block statements.now.items)) }
    ensures told { OnOk result (map told_of told.new.items ≡ map told_of told.old.items ++ messages_of (syntax.block statements.now.items)) }
    ensures same { OnOk result (scope.new ≡ scope.old) }
{
    let mut found = Vec::new(alloc);
    let mut is_sound = true;
    'all: for x in statements {
        let next = statement(alloc, scope, told, x)?;
        let is_there = keep(&mut found, next)?;
        is_sound = both_hold(is_sound, is_there);
    }
    if is_sound { Ok(Some(found)) } else { Ok(None) }
}

/// The body of a loop, within it where its head is sound.
#[cycle(act)]
fn body_of<'a>(
    alloc: Global,
    scope: &mut Scope<'_>,
    told: &mut Vec<Told<'a>>,
    turns: Option<(Option<u16>, Variable)>,
    body: &Vec<Parsed<'a>>,
) -> Result<Option<Vec<Statement<'a>>>, AllocError>
    ensures value { IfOk result (λ r. block_made r ≡ judge_block (opened scope.old turns) (length told.old.items) (syntax.block body.now.items)) }
    ensures told { OnOk result (map told_of told.new.items ≡ map told_of told.old.items ++ messages_of (syntax.block body.now.items)) }
    ensures same { OnOk result (scope.new ≡ scope.old) }
{
    match turns {
        None => block(alloc, scope, told, body),
        Some(turns) => {
            scope.begin(turns)?;
            let inner = block(alloc, scope, told, body)?;
            scope.end();
            Ok(inner)
        }
    }
}

/// A condition and the statements that it guards.
#[cycle(act)]
fn arm<'a>(
    alloc: Global,
    scope: &mut Scope<'_>,
    told: &mut Vec<Told<'a>>,
    x: &ParsedArm<'a>,
) -> Result<Option<Arm<'a>>, AllocError>
    ensures value { IfOk result (λ r. option_map arm_tree r ≡ judge_arm scope.old (length told.old.items) (parsed_arm x.now)) }
    ensures told { OnOk result (map told_of told.new.items ≡ map told_of told.old.items ++ messages_of (parsed_arm x.now).1) }
    ensures same { OnOk result (scope.new ≡ scope.old) }
{
    let condition = match value(alloc, scope, false, &x.condition) {
        Err(fault) => return Err(fault),
        Ok(condition) => condition,
    };
    match block(alloc, scope, told, &x.body) {
        Err(fault) => Err(fault),
        Ok(body) => Ok(guarded(condition, body)),
    }
}

/// Arms, or none where one isn't sound.
#[cycle(act)]
fn arms<'a>(
    alloc: Global,
    scope: &mut Scope<'_>,
    told: &mut Vec<Told<'a>>,
    others: &Vec<ParsedArm<'a>>,
) -> Result<Option<Vec<Arm<'a>>>, AllocError>
    ensures value { IfOk result (λ r. arms_made r ≡ judge_each scope.old (length told.old.items) (map parsed_arm others.now.items)) }
    ensures told { OnOk result (map told_of told.new.items ≡ map told_of told.old.items ++ messages_each (map parsed_arm others.now.items)) }
    ensures same { OnOk result (scope.new ≡ scope.old) }
{
    let mut found = Vec::new(alloc);
    let mut is_sound = true;
    'all: for x in others {
        let next = arm(alloc, scope, told, x)?;
        let is_there = keep(&mut found, next)?;
        is_sound = both_hold(is_sound, is_there);
    }
    if is_sound { Ok(Some(found)) } else { Ok(None) }
}
