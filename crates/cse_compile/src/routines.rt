//! The code of routines.

ghost use Rattle.std.specs.Prelude.{◌≡◌, ◌+◌, ◌≤◌, ◌++◌, min, OnOk, IfOk};
ghost use Rattle.cse_logic_tree.specs.Typed.{block};
ghost use Rattle.cse_compile.specs.Setting.{setting};
ghost use Rattle.cse_compile.specs.Routines as spec;

use crate::block_sizes::{block_size, exit_size};
use crate::emitter::Emitter;
use crate::items::UNDEFINED;
use crate::setting::{Loop, Setting};
use crate::sizes::plus;
use cse_image_parts::instruction::Op;
use cse_logic_tree::Statement;
use std::alloc::AllocError;

/// In a function the result begins as `default`.
pub fn entry_size(s: &Setting) -> usize
    ensures { result ≡ spec.entry_size_by (setting s.now).result_at }
{
    match s.result_at {
        None => 0,
        Some(_) => 2,
    }
}

/// The size of a procedure or of a function. What is above a million is told as a million and one.
#[tactic(auto, unfolding(crate::specs::Routines::routine_size))]
pub fn routine_size(s: &Setting, body: &Vec<Statement>) -> usize
    ensures { result ≡ min (spec.routine_size (setting s.now) (block body.now.items)) 1000001 }
{
    plus(entry_size(s), plus(block_size(s, body), exit_size(s)))
}

impl<'a> Emitter<'a> {
    fn entry(&mut self, s: &Setting) -> Result<(), AllocError>
        ensures { OnOk result (self.new ≡ self.old ++ spec.entry_code_by (setting s.now).result_at) }
    {
        if let Some(result) = s.result_at {
            self.put(UNDEFINED)?;
            self.with_c(Op::StoreLocal, result)?;
        }
        Ok(())
    }

    /// The code of a procedure or of a function, and how many instructions it has.
    #[tactic(auto, unfolding(crate::specs::Routines::routine_size, crate::specs::Routines::routine_code))]
    pub fn routine(&mut self, s: &Setting, body: &Vec<Statement<'a>>) -> Result<usize, AllocError>
        requires room { spec.routine_size (setting s.now) (block body.now.items) ≤ 1000000 }
        ensures code { OnOk result (self.new ≡ self.old ++ spec.routine_code (setting s.now) (block body.now.items)) }
        ensures size { IfOk result (λ n. n ≡ spec.routine_size (setting s.now) (block body.now.items)) }
    {
        self.entry(s)?;
        let outside = Loop {
            turn_end: 0,
            end: 0,
        };
        let at = self.block(s, outside, entry_size(s), body)?;
        self.exit(s, at)
    }
}
