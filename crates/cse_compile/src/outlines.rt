//! The routines of a source, without their code.

ghost use Rattle.std.specs.Prelude.{◌≡◌, ◌++◌, ◌∷◌, [], map, OnOk, IfOk};
ghost use Rattle.cse_logic_tree.specs.Typed.{block, body_tree, declaration, procedure, statement};
ghost use Rattle.cse_compile.specs.Outline as spec;

use cse_image_parts::entries::{Ambient, Event, EventCode, Gift, Local, LocalKind};
use cse_logic_tree::{Body, Declaration, Owner, Procedure, Statement, StatementKind};
use std::alloc::{AllocError, Global};

/// What a routine is made of.
#[derive(Clone, Copy)]
pub enum RoutineSort {
    /// A function: how many parameters it has, and whether it needs a case.
    Function(usize, bool),
    /// A procedure, by what it belongs to.
    Procedure(Owner),
}

/// A routine, without its code.
#[derive(Clone, Copy)]
pub struct Outline<'t, 'a> {
    pub sort: RoutineSort,
    pub body: &'t Vec<Statement<'a>>,
}

/// A procedure's routine, and the event that runs it.
#[derive(Clone, Copy)]
pub struct Handler<'t, 'a> {
    pub event: Event,
    pub outline: Outline<'t, 'a>,
}

impl RoutineSort {
    /// Whether the routine may speak of a case: a procedure of the application may not, nor a function that speaks of
    /// none.
    pub fn ambient(self) -> Ambient
        ensures { result ≡ spec.ambient_of self }
    {
        match self {
            RoutineSort::Function(_, true) => Ambient::Case,
            RoutineSort::Function(_, false) | RoutineSort::Procedure(Owner::Application) =>
                Ambient::Run,
            RoutineSort::Procedure(_) => Ambient::Case,
        }
    }

    /// What the routine gives: a function a number, a procedure nothing.
    pub fn gives(self) -> Gift
        ensures { result ≡ spec.gives_of self }
    {
        match self {
            RoutineSort::Function(_, _) => Gift::Number,
            RoutineSort::Procedure(_) => Gift::Nothing,
        }
    }

    /// How many of the locals are parameters.
    pub fn parameters(self) -> usize
        ensures { result ≡ spec.parameters_of self }
    {
        match self {
            RoutineSort::Function(count, _) => count,
            RoutineSort::Procedure(Owner::Item(_)) => 1,
            RoutineSort::Procedure(_) => 0,
        }
    }

    /// The local of a function's result, which stands behind the parameters.
    pub fn result_at(self) -> Option<usize>
        ensures { result ≡ spec.result_at self }
    {
        match self {
            RoutineSort::Function(count, _) => Some(count),
            RoutineSort::Procedure(_) => None,
        }
    }

    /// The locals: numbers, or the occurrence of an item's event.
    pub fn locals(self, alloc: Global) -> Result<Vec<Local>, AllocError>
        ensures { IfOk result (λ v. v.items ≡ spec.locals_of self) }
    {
        let mut locals = Vec::new(alloc);
        match self {
            RoutineSort::Function(count, _) => {
                add_numbers(&mut locals, count)?;
                locals.push(NUMBER)?;
            }
            RoutineSort::Procedure(Owner::Item(field)) => {
                locals.push(Local {
                    kind: LocalKind::Occurrence,
                    owner: field.owner,
                    length: 0,
                })?;
            }
            RoutineSort::Procedure(_) => {}
        }
        Ok(locals)
    }
}

const NUMBER: Local = Local {
    kind: LocalKind::Number,
    owner: 0,
    length: 0,
};

#[tactic(auto, using(crate::proofs::SectionLists::times_less))]
fn add_numbers(locals: &mut Vec<Local>, count: usize) -> Result<(), AllocError>
    ensures { OnOk result (locals.new.items ≡ locals.old.items ++ spec.numbers count) }
{
    let mut left = count;
    'all: while left > 0 {
        locals.push(NUMBER)?;
        left -= 1;
    }
    Ok(())
}

// ---- functions

fn add_function<'t, 'a>(
    outlines: &mut Vec<Outline<'t, 'a>>,
    written: &'t Declaration<'a>,
) -> Result<(), AllocError>
    ensures { OnOk result (map spec.outline outlines.new.items ≡ map spec.outline outlines.old.items ++ spec.function_of (declaration written.now)) }
{
    if let Declaration::Function(function) = written {
        outlines.push(Outline {
            sort: RoutineSort::Function(function.parameters.len(), function.needs_case),
            body: &function.body,
        })?;
    }
    Ok(())
}

/// The functions of the declarations, in order.
pub fn function_outlines<'t, 'a>(
    alloc: Global,
    declarations: &'t [Declaration<'a>],
) -> Result<Vec<Outline<'t, 'a>>, AllocError>
    ensures { IfOk result (λ v. map spec.outline v.items ≡ spec.functions_in (map declaration declarations.now)) }
{
    let mut outlines = Vec::new(alloc);
    'all: for written in declarations {
        add_function(&mut outlines, written)?;
    }
    Ok(outlines)
}

// ---- procedures

fn is_empty(written: &Statement) -> bool
    ensures { result ≡ spec.is_empty (statement written.now) }
{
    match &*written.kind {
        StatementKind::Empty => true,
        _ => false,
    }
}

/// No statement but `;` stands there.
fn is_idle(body: &Vec<Statement>) -> bool
    ensures { result ≡ spec.is_idle (block body.now.items) }
{
    'all: for written in body {
        if !is_empty(written) {
            return false;
        }
    }
    true
}

/// What happens before an owner's part of the run, or after it.
fn event_of(owner: Owner, is_after: bool) -> Event
    ensures { result ≡ spec.event_of owner is_after }
{
    match owner {
        Owner::Application => Event {
            code: if is_after {
                EventCode::ApplicationPostproc
            } else {
                EventCode::ApplicationPreproc
            },
            index: 0,
        },
        Owner::Level => Event {
            code: if is_after {
                EventCode::LevelPostproc
            } else {
                EventCode::LevelPreproc
            },
            index: 0,
        },
        Owner::Record(record) => Event {
            code: if is_after {
                EventCode::RecordPostproc
            } else {
                EventCode::RecordPreproc
            },
            index: record as u16,
        },
        Owner::Item(field) => Event {
            code: if is_after {
                EventCode::ItemPostproc
            } else {
                EventCode::ItemPreproc
            },
            index: field.item,
        },
    }
}

fn add_handler<'t, 'a>(
    handlers: &mut Vec<Handler<'t, 'a>>,
    owner: Owner,
    is_after: bool,
    body: &'t Vec<Statement<'a>>,
) -> Result<(), AllocError>
    ensures { OnOk result (map spec.handler handlers.new.items ≡ map spec.handler handlers.old.items ++ spec.handler_of owner is_after (block body.now.items)) }
{
    if !is_idle(body) {
        handlers.push(Handler {
            event: event_of(owner, is_after),
            outline: Outline {
                sort: RoutineSort::Procedure(owner),
                body,
            },
        })?;
    }
    Ok(())
}

fn add_procedure<'t, 'a>(
    handlers: &mut Vec<Handler<'t, 'a>>,
    written: &'t Procedure<'a>,
) -> Result<(), AllocError>
    ensures { OnOk result (map spec.handler handlers.new.items ≡ map spec.handler handlers.old.items ++ spec.handlers_of (procedure written.now)) }
{
    let owner = written.owner;
    match &written.body {
        Body::Plain(body) | Body::Postproc(body) => add_handler(handlers, owner, true, body),
        Body::Preproc(body) => add_handler(handlers, owner, false, body),
        Body::Both(before, after) => {
            add_handler(handlers, owner, false, before)?;
            add_handler(handlers, owner, true, after)
        }
    }
}

/// The procedures' routines, in order; a part without a statement has none.
pub fn handlers_of<'t, 'a>(
    alloc: Global,
    procedures: &'t [Procedure<'a>],
) -> Result<Vec<Handler<'t, 'a>>, AllocError>
    ensures { IfOk result (λ v. map spec.handler v.items ≡ spec.handlers_in (map procedure procedures.now)) }
{
    let mut handlers = Vec::new(alloc);
    'all: for written in procedures {
        add_procedure(&mut handlers, written)?;
    }
    Ok(handlers)
}
