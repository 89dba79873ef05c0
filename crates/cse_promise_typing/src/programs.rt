//! Programs, whether they are typed.

ghost use Rattle.std.specs.Prelude.{OnOk, IfErr, ◌⊎◌};
ghost use Rattle.cse_value.specs.Shape.{shape_lists};
ghost use Rattle.cse_code_typing.specs.Typed.{IsTyped, IsOutOfMemory, Refuses};

use cse_code_typing::Refusal;
use cse_image::{Code, Program};
use cse_value::shape::Shape;
use std::alloc::Global;

/// `typed`.
pub fn typed<C: Code>(alloc: Global, shape: &Shape, program: &Program<C>) -> Result<(), Refusal>
    ensures typed { OnOk result (IsTyped (shape_lists shape.now) program.now) }
    ensures refused { IfErr result (λ e. IsOutOfMemory e ⊎ Refuses (shape_lists shape.now) program.now e) }
    ensures never { IfErr result (λ e. IsOutOfMemory e ⊎ (IsTyped (shape_lists shape.now) program.now → ⊥)) }
{
    cse_code_typing::typed(alloc, shape, program)
}
