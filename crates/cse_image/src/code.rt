//! A list of instructions, in memory or elsewhere.

ghost use Rattle.std.specs.Prelude.{◌≡◌, ◌<◌, List, Some, length, slice_get};
ghost use Rattle.cse_image_parts.specs.declared.instruction.Instr.{Instr as AnInstr};

use cse_image_parts::instruction::Instr;

/// A list of instructions.
pub trait Code {
    ghost list: { Self → List AnInstr };

    /// How many instructions there are. Takes no memory.
    fn len(&self) -> usize
        ensures { result ≡ length (list self.now) };

    /// The instruction at a place, from 0. Takes no memory.
    fn at(&self, i: usize) -> Instr
        requires { i < length (list self.now) }
        ensures { slice_get (list self.now) i ≡ Some result };
}

/// Instructions in memory.
#[derive(Drop)]
pub struct Owned {
    pub(crate) instructions: Vec<Instr>,
}

impl Code for Owned {
    ghost list = { λ c. c.instructions.items };

    #[inline]
    fn len(&self) -> usize {
        self.instructions.len()
    }

    #[inline]
    fn at(&self, i: usize) -> Instr {
        self.instructions[i]
    }
}
