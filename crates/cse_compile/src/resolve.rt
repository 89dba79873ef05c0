//! From instructions with constants, texts and limits by value to those of an image.

ghost use Rattle.std.specs.Prelude.{◌≡◌, ◌≤◌, ◌^◌, length, MatchOption, true, IfOk, OnOk, IfErr};
ghost use Rattle.std.specs.Bool.{Decides};
ghost use Rattle.cse_syntax_tree.specs.Leaf.{text_of};
ghost use Rattle.cse_compile.specs.Wide as w;
ghost use Rattle.cse_compile.specs.Stands.{Stands, AllStand, IsMore};
ghost use Rattle.std.specs.Str.{IsUtf8};
ghost use Rattle.cse_compile.specs.declared.pools.PoolError.TheVariants.{Full};
ghost use Rattle.cse_compile.specs.Fault.{IsLimit};
ghost use Rattle.cse_compile.specs.Room.{CannotHold, LacksRoom, with_entry};

use crate::error::{BEYOND, CompileError, WANT_OF_MEMORY};
use crate::{PoolError, Pools, Wide};
use cse_image::text_fits;
use cse_image_parts::instruction::{Instr, Op};
use std::alloc::Global;

fn pool_error(error: PoolError) -> CompileError
    ensures limit { IsLimit result }
    ensures full { result.number ≡ 64 → error ≡ Full }
{
    match error {
        PoolError::Full => BEYOND,
        PoolError::Memory => WANT_OF_MEMORY,
    }
}

/// A place as a field of an instruction.
fn field_of(c: usize) -> Result<u32, CompileError>
    ensures ok { IfOk result (λ n. n ≡ c) }
    ensures err { IfErr result IsLimit }
    ensures room { IfErr result (λ _. 2 ^ 32 ≤ c) }
{
    match u32::try_from(c) {
        Ok(c) => Ok(c),
        Err(_) => Err(BEYOND),
    }
}

/// What stands between the quotes of a text.
fn inside(text: &str) -> Option<&str>
    ensures { MatchOption result (IsUtf8 (text_of text.now) → ⊥) (λ t. t.now ≡ text_of text.now) }
{
    match text.as_bytes() {
        [] => Some(""),
        [_, rest @ ..] => match str::from_utf8(&rest[..rest.len().saturating_sub(1)]) {
            Ok(text) => Some(text),
            Err(_) => None,
        },
    }
}

#[tactic(auto, using(crate::proofs::Stands::more_constant))]
fn constant(pools: &mut Pools, value: i64) -> Result<Instr, CompileError>
    ensures stands { IfOk result (λ i. Stands pools.new i (w.Constant value)) }
    ensures more { OnOk result (IsMore pools.old pools.new) }
    ensures grew { OnOk result (pools.new ≡ with_entry pools.old (w.Constant value)) }
    ensures err { IfErr result IsLimit }
    ensures room { IfErr result (λ e. e.number ≡ 64 → LacksRoom pools.old (w.Constant value)) }
{
    match pools.constant(value) {
        Ok(c) => Ok(Instr {
            op: Op::Number,
            a: 0,
            b: 0,
            c,
        }),
        Err(error) => Err(pool_error(error)),
    }
}

#[tactic(auto, using(crate::proofs::Stands::more_text))]
fn text<'a>(pools: &mut Pools<'a>, value: &'a str) -> Result<Instr, CompileError>
    ensures stands { IfOk result (λ i. Stands pools.new i (w.Chars value.now)) }
    ensures more { OnOk result (IsMore pools.old pools.new) }
    ensures grew { OnOk result (pools.new ≡ with_entry pools.old (w.Chars value.now)) }
    ensures err { IfErr result IsLimit }
    ensures room { IfErr result (λ e. e.number ≡ 64 → LacksRoom pools.old (w.Chars value.now)) }
{
    if !text_fits(value) {
        return Err(BEYOND);
    }
    match pools.text(value) {
        Ok(c) => Ok(Instr {
            op: Op::Text,
            a: 0,
            b: 0,
            c,
        }),
        Err(error) => Err(pool_error(error)),
    }
}

fn quoted<'a>(pools: &mut Pools<'a>, value: &'a str) -> Result<Instr, CompileError>
    ensures stands { IfOk result (λ i. Stands pools.new i (w.Chars (text_of value.now))) }
    ensures more { OnOk result (IsMore pools.old pools.new) }
    ensures grew { OnOk result (pools.new ≡ with_entry pools.old (w.Chars (text_of value.now))) }
    ensures err { IfErr result IsLimit }
    ensures room { IfErr result (λ e. e.number ≡ 64 → LacksRoom pools.old (w.Chars (text_of value.now))) }
{
    match inside(value) {
        Some(inner) => text(pools, inner),
        None => Err(BEYOND),
    }
}

#[tactic(auto, using(crate::proofs::Stands::more_limit))]
fn turns(pools: &mut Pools, limit: u32, end: usize) -> Result<Instr, CompileError>
    ensures stands { IfOk result (λ i. Stands pools.new i (w.Turns limit end)) }
    ensures more { OnOk result (IsMore pools.old pools.new) }
    ensures grew { OnOk result (pools.new ≡ with_entry pools.old (w.Turns limit end)) }
    ensures err { IfErr result IsLimit }
    ensures room { IfErr result (λ e. e.number ≡ 64 → LacksRoom pools.old (w.Turns limit end)) }
{
    if limit == 0 {
        return Err(BEYOND);
    }
    let c = field_of(end)?;
    match pools.limit(limit) {
        Ok(b) => Ok(Instr {
            op: Op::LoopCount,
            a: 0,
            b,
            c,
        }),
        Err(error) => Err(pool_error(error)),
    }
}

fn plain(op: Op, a: u8, b: u16, c: usize) -> Result<Instr, CompileError>
    ensures ok { IfOk result (λ i. i ≡ record { op = op; a = a; b = b; c = c }) }
    ensures err { IfErr result IsLimit }
    ensures room { IfErr result (λ _. 2 ^ 32 ≤ c) }
{
    let c = field_of(c)?;
    Ok(Instr { op, a, b, c })
}

/// The instruction that stands for a wide one; its entry is added to the tables where it isn't there.
#[tactic(auto, using(crate::proofs::Stands::more_none))]
pub fn instruction<'a>(pools: &mut Pools<'a>, written: Wide<'a>) -> Result<Instr, CompileError>
    ensures stands { IfOk result (λ i. Stands pools.new i (w.wide written.entry)) }
    ensures more { OnOk result (IsMore pools.old pools.new) }
    ensures grew { OnOk result (pools.new ≡ with_entry pools.old (w.wide written.entry)) }
    ensures err { IfErr result IsLimit }
    ensures room { IfErr result (λ e. e.number ≡ 64 → LacksRoom pools.old (w.wide written.entry)) }
{
    match written {
        Wide::Constant(value) => constant(pools, value),
        Wide::Quoted(value) => quoted(pools, value),
        Wide::Blank => text(pools, ""),
        Wide::Turns(limit, end) => turns(pools, limit, end),
        Wide::Plain(op, a, b, c) => plain(op, a, b, c),
    }
}

/// The instructions that stand for wide ones, by the tables.
pub fn resolve<'a>(
    alloc: Global,
    pools: &mut Pools<'a>,
    code: &[Wide<'a>],
) -> Result<Vec<Instr>, CompileError>
    ensures ok { IfOk result (λ v. AllStand pools.new v.items (w.all_wide code.now)) }
    ensures err { IfErr result IsLimit }
    ensures room { IfErr result (λ e. e.number ≡ 64 → CannotHold pools.old (w.all_wide code.now)) }
{
    let mut resolved = Vec::new(alloc);
    'all: for written in code {
        let instr = match instruction(pools, *written) {
            Ok(instr) => instr,
            Err(error) => return Err(error),
        };
        match resolved.push(instr) {
            Ok(()) => {}
            Err(_) => return Err(WANT_OF_MEMORY),
        }
    }
    Ok(resolved)
}
