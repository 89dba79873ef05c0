//! Whether a program was made for a dictionary of this shape.

ghost use Rattle.std.specs.Prelude.{◌≡◌};
ghost use Rattle.std.specs.Bool.{Decides};
ghost use Rattle.cse_value.specs.Shape.{shape_lists};
ghost use Rattle.cse_code_typing.specs.Shapes.{shape_of};

use cse_image::{Code, Program};
use cse_value::shape::{ItemShape, RecordShape, SetShape, Shape};

fn same_records(a: &[RecordShape], b: &[RecordShape]) -> bool
    ensures { Decides result (a.now ≡ b.now) }
{
    a == b
}

fn same_items(a: &[ItemShape], b: &[ItemShape]) -> bool
    ensures { Decides result (a.now ≡ b.now) }
{
    a == b
}

fn same_sets(a: &[SetShape], b: &[SetShape]) -> bool
    ensures { Decides result (a.now ≡ b.now) }
{
    a == b
}

/// Whether the program has this shape: the same records, items and value sets. Takes no memory.
pub fn same_shape<C: Code>(shape: &Shape, program: &Program<C>) -> bool
    ensures { Decides result (shape_lists shape.now ≡ shape_of program.now) }
{
    same_records(&shape.records, program.records())
        && same_items(&shape.items, program.items())
        && same_sets(&shape.sets, program.sets())
}
