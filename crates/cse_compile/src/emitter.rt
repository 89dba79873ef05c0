//! Code that grows at its end.

ghost use Rattle.std.specs.Prelude.{◌≡◌, ◌+◌, ◌≤◌, List, [], ◌∷◌, ◌++◌, OnOk, IfOk};
ghost use Rattle.cse_compile.specs.Wide as spec;
ghost use Rattle.cse_compile.specs.Wide.{Wide as AnyWide, all_wide, wide};

use crate::wide::Wide;
use cse_image_parts::instruction::Op;
use std::alloc::{AllocError, Global};
use std::marker::Model;

/// The code of the routines so far.
#[derive(Drop)]
pub struct Emitter<'a> {
    code: Vec<Wide<'a>>,
}

impl<'a> Model for Emitter<'a> {
    ghost Value = { List AnyWide };

    ghost view = { λ e. all_wide e.code.items };
}

impl<'a> Emitter<'a> {
    /// No code yet.
    pub fn new(alloc: Global) -> Emitter<'a>
        ensures { result ≡ [] }
    {
        Emitter {
            code: Vec::new(alloc),
        }
    }

    /// The code so far.
    pub fn code(&self) -> &[Wide<'a>]
        ensures { all_wide result.now ≡ self.now }
    {
        &self.code
    }

    /// One more instruction.
    pub fn put(&mut self, instruction: Wide<'a>) -> Result<(), AllocError>
        ensures { OnOk result (self.new ≡ self.old ++ wide instruction.entry ∷ []) }
    {
        self.code.push(instruction)?;
        Ok(())
    }

    /// One more instruction, and the place behind it.
    pub(crate) fn one(&mut self, place: usize, instruction: Wide<'a>) -> Result<usize, AllocError>
        requires room { place + 1 ≤ 1000000 }
        ensures code { OnOk result (self.new ≡ self.old ++ wide instruction.entry ∷ []) }
        ensures behind { IfOk result (λ n. n ≡ place + 1) }
    {
        self.put(instruction)?;
        Ok(place + 1)
    }

    /// An instruction without fields.
    pub fn bare(&mut self, op: Op) -> Result<(), AllocError>
        ensures { OnOk result (self.new ≡ self.old ++ spec.bare op ∷ []) }
    {
        self.put(Wide::Plain(op, 0, 0, 0))
    }

    /// Appends an instruction that has the field a alone.
    pub fn with_a(&mut self, op: Op, a: u8) -> Result<(), AllocError>
        ensures { OnOk result (self.new ≡ self.old ++ spec.with_a op a ∷ []) }
    {
        self.put(Wide::Plain(op, a, 0, 0))
    }

    /// Appends an instruction that has the field b alone.
    pub fn with_b(&mut self, op: Op, b: u16) -> Result<(), AllocError>
        ensures { OnOk result (self.new ≡ self.old ++ spec.with_b op b ∷ []) }
    {
        self.put(Wide::Plain(op, 0, b, 0))
    }

    /// Appends an instruction that has the field c alone.
    pub fn with_c(&mut self, op: Op, c: usize) -> Result<(), AllocError>
        ensures { OnOk result (self.new ≡ self.old ++ spec.with_c op c ∷ []) }
    {
        self.put(Wide::Plain(op, 0, 0, c))
    }

    /// Indexes are dropped, so many.
    #[tactic(auto, using(crate::proofs::Lists::pops_less))]
    pub fn pops(&mut self, count: usize) -> Result<(), AllocError>
        ensures { OnOk result (self.new ≡ self.old ++ spec.pops count) }
    {
        let mut left = count;
        'all: while left > 0 {
            self.with_a(Op::Pop, 2)?;
            left -= 1;
        }
        Ok(())
    }

    /// A jump over so many instructions, none over nothing.
    pub fn jump_over(&mut self, end: usize, count: usize) -> Result<(), AllocError>
        ensures { OnOk result (self.new ≡ self.old ++ spec.jump_over end count) }
    {
        if count != 0 {
            self.with_c(Op::Jump, end)?;
        }
        Ok(())
    }
}
