//! The code of a program with the tables in which its constants, limits and texts stand.

ghost use Rattle.std.specs.Prelude.{◌≡◌, ◌++◌, map, drop, IfOk, IfErr};
ghost use Rattle.std.specs.String.{string_bytes};
ghost use Rattle.cse_compile.specs.Stands.{AllStand};
ghost use Rattle.cse_compile.specs.Pools.{PoolsFit, no_pools};
ghost use Rattle.cse_compile.specs.Pooled.{pools_in};
ghost use Rattle.cse_compile.specs.Room.{CannotHold};
ghost use Rattle.cse_compile.specs.Fault.{IsLimit};

use crate::error::{CompileError, WANT_OF_MEMORY};
use crate::resolve::resolve;
use crate::{Emitter, Pools};
use cse_image_parts::instruction::Instr;
use std::alloc::{AllocError, Global};

/// The code of a program, and the tables in which its entries stand.
#[derive(Drop)]
pub struct Pooled {
    pub constants: Vec<i64>,
    pub limits: Vec<u32>,
    pub texts: Vec<String>,
    pub instructions: Vec<Instr>,
}

/// The texts, in memory of their own.
fn texts_of(alloc: Global, texts: &[&str]) -> Result<Vec<String>, AllocError>
    ensures { IfOk result (λ v. map string_bytes v.items ≡ map (λ t. t.now) texts.now) }
{
    let mut owned = Vec::new(alloc);
    'all: for text in texts {
        owned.push(String::from_str(alloc, text)?)?;
    }
    Ok(owned)
}

/// The tables and the code.
fn with_pools(alloc: Global, pools: &Pools, instructions: Vec<Instr>) -> Result<Pooled, AllocError>
    ensures pools { IfOk result (λ x. pools_in x ≡ pools.now) }
    ensures fit { IfOk result (λ x. PoolsFit (pools_in x)) }
    ensures code { IfOk result (λ x. x.instructions.items ≡ instructions.items) }
{
    let constants = Vec::from_slice(alloc, pools.constants())?;
    let limits = Vec::from_slice(alloc, pools.limits())?;
    let texts = texts_of(alloc, pools.texts())?;
    Ok(Pooled {
        constants,
        limits,
        texts,
        instructions,
    })
}

/// The instructions that stand for the code, with the tables in which its entries stand.
pub fn resolved(alloc: Global, emitter: &Emitter) -> Result<Pooled, CompileError>
    ensures ok { IfOk result (λ x. AllStand (pools_in x) x.instructions.items emitter.now) }
    ensures fit { IfOk result (λ x. PoolsFit (pools_in x)) }
    ensures err { IfErr result IsLimit }
    ensures room { IfErr result (λ e. e.number ≡ 64 → CannotHold no_pools emitter.now) }
{
    let mut pools = Pools::new(alloc);
    let instructions = match resolve(alloc, &mut pools, emitter.code()) {
        Ok(instructions) => instructions,
        Err(error) => return Err(error),
    };
    match with_pools(alloc, &pools, instructions) {
        Ok(pooled) => Ok(pooled),
        Err(_) => Err(WANT_OF_MEMORY),
    }
}
