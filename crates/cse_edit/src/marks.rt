//! Which items statements write.

ghost use Rattle.std.specs.Prelude.{◌≡◌, map, slice_set, true};
ghost use Rattle.cse_logic_tree.specs.Typed.{arm_tree, arms, block, no_arm, number, statement};
ghost use Rattle.cse_edit.specs.Items as spec;
ghost use Rattle.cse_edit.specs.Marks.{marked};

use cse_logic_tree::{Arm, Statement, StatementKind};

/// One item is written; one that isn't in the dictionary has no mark.
fn mark(marks: &mut [bool], item: u16)
    ensures { marks.new ≡ slice_set marks.old item true }
{
    let place = item as usize;
    if place < marks.len() {
        marks[place] = true;
    }
}

#[cycle(statements)]
#[tactic(auto, unfolding(crate::specs::Marks::marked))]
fn statement(x: &Statement<'_>, marks: &mut [bool])
    ensures { marks.new ≡ marked marks.old (spec.written_by (statement x.now)) }
{
    match &*x.kind {
        StatementKind::Empty
        | StatementKind::Set(_, _, _)
        | StatementKind::SetText(_, _, _)
        | StatementKind::SetCell(_, _, _, _)
        | StatementKind::Call(_, _, _)
        | StatementKind::Jump(_, _)
        | StatementKind::PutDeck(_, _, _, _)
        | StatementKind::ErrMsg(_, _, _, _) => {}
        StatementKind::SetItem(_, field, _, _) | StatementKind::Impute(_, field, _, _) => {
            mark(marks, field.item)
        }
        StatementKind::SetTextItem(_, field, _, _) => mark(marks, field.item),
        StatementKind::If(first, others, otherwise) => {
            block(&first.body, marks);
            arms(others, marks);
            match otherwise {
                None => {}
                Some(body) => block(body, marks),
            }
        }
        StatementKind::For(_, _, _, _, body) => block(body, marks),
        StatementKind::Do(_, body) => block(body, marks),
    }
}

/// The items that statements write, beside those that are marked.
#[cycle(statements)]
pub fn block(all: &Vec<Statement<'_>>, marks: &mut [bool])
    ensures { marks.new ≡ marked marks.old (spec.written_by_all (block all.now.items)) }
{
    'all: for x in all {
        statement(x, marks);
    }
}

/// Each `elseif`, without the `else`.
#[cycle(statements)]
fn arms(all: &Vec<Arm<'_>>, marks: &mut [bool])
    ensures { marks.new ≡ marked marks.old (spec.written_by_arms (arms (map arm_tree all.now.items) no_arm)) }
{
    'all: for x in all {
        block(&x.body, marks);
    }
}
