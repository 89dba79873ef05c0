//! Which items functions and procedures write.

ghost use Rattle.std.specs.Prelude.{◌≡◌, map};
ghost use Rattle.cse_logic_tree.specs.Typed as typed;
ghost use Rattle.cse_edit.specs.Items as spec;
ghost use Rattle.cse_edit.specs.Marks.{marked};

use crate::marks::block;
use cse_logic_tree::{Body, Declaration, Procedure, Tree};

#[tactic(auto, using(crate::proofs::Marking::marked_both))]
fn procedure<'t, 'a>(x: &'t Procedure<'a>, marks: &mut [bool])
    ensures { marks.new ≡ marked marks.old (spec.written_by_body (typed.procedure x.now).body) }
{
    match &x.body {
        Body::Plain(all) | Body::Preproc(all) | Body::Postproc(all) => block(all, marks),
        Body::Both(before, after) => {
            block(before, marks);
            block(after, marks);
        }
    }
}

fn procedures<'t, 'a>(all: &'t [Procedure<'a>], marks: &mut [bool])
    ensures { marks.new ≡ marked marks.old (spec.written_by_procedures (map typed.procedure all.now)) }
{
    'all: for x in all {
        procedure(x, marks);
    }
}

#[tactic(auto, unfolding(crate::specs::Marks::marked))]
fn declaration<'t, 'a>(x: &'t Declaration<'a>, marks: &mut [bool])
    ensures { marks.new ≡ marked marks.old (spec.written_by_declaration (typed.declaration x.now)) }
{
    match x {
        Declaration::Numeric(_) | Declaration::Alpha(_, _, _) | Declaration::Array(_) => {}
        Declaration::Function(function) => block(&function.body, marks),
    }
}

fn declarations<'t, 'a>(all: &'t [Declaration<'a>], marks: &mut [bool])
    ensures { marks.new ≡ marked marks.old (spec.written_by_functions (map typed.declaration all.now)) }
{
    'all: for x in all {
        declaration(x, marks);
    }
}

// ---- sources

fn declarations_of<'t, 'a>(x: &'t Tree<'a>) -> &'t [Declaration<'a>]
    ensures { spec.written_by_functions (map typed.declaration result.now) ≡ spec.written_by_globals (typed.tree x.now).globals }
{
    match &x.globals {
        None => &[],
        Some(all) => all.as_slice(),
    }
}

fn procedures_of<'t, 'a>(x: &'t Tree<'a>) -> &'t [Procedure<'a>]
    ensures { map typed.procedure result.now ≡ (typed.tree x.now).procedures }
{
    x.procedures.as_slice()
}

/// The items that a source writes, beside those that are marked.
pub fn source<'t, 'a>(x: &'t Tree<'a>, marks: &mut [bool])
    ensures { marks.new ≡ marked marks.old (spec.written_by_tree (typed.tree x.now)) }
{
    declarations(declarations_of(x), marks);
    procedures(procedures_of(x), marks);
}
