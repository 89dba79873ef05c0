//! A program whose code is read in place, from bytes that are borrowed. Code of version 1 is upgraded as
//! it is read.

ghost use Rattle.std.specs.Prelude.{◌≡◌, ◌<◌, ◌≤◌, take, ◌-◌, List, Some, Ok, IfOk, OnOk, length, map, slice_get};
ghost use Rattle.cse_image_parts.specs.Reader.{Gives, GivesFault, each};
ghost use Rattle.cse_image_parts.specs.declared.instruction.Instr.{Instr as AnInstr};
ghost use Rattle.cse_image_parts.specs.declared.version.Version.TheVariants as versions;
ghost use Rattle.cse_image_parts.specs.Fields.{instructions_in};
ghost use Rattle.cse_image_parts.specs.Image.{Image, lists_of, image_with, routine_lists};
ghost use Rattle.cse_image_parts.specs.Upgrade.{greater, own_limit, greatest_limit, one_to};
ghost use Rattle.cse_image.specs.Place.{Answers, placed};
ghost use Rattle.cse_image.specs.Reading.{instr_at, edition, edition_at, whole_edition as spec_whole_edition, reading};
ghost use Rattle.cse_image.specs.Empty.{no_lists};
ghost use Rattle.cse_image.specs.Spelling.{program_in, StandFor};
ghost use Rattle.cse_image.specs.View.{code_in, IsCodeOf, program_instr, program_code};

use crate::code::Code;
use crate::error::{ImageError, error_within};
use crate::program::Program;
use crate::read_code::instr_of;
use crate::read_shape::header_of;
use crate::reading::{no_tables, tables_of, total_of};
use cse_image_parts::entries::{Routine, Tables};
use cse_image_parts::instruction::Instr;
use cse_image_parts::limits::MOST_INSTRUCTIONS;
use cse_image_parts::version::{Version, is_counting_loop};
use cse_image_parts::{FieldFault, ReadStop, Rule, broken};
use std::alloc::{AllocError, Global};
use std::marker::Model;

/// Instructions in the bytes of an image, eight bytes each, as those of version 2.
#[derive(Drop)]
pub struct CodeView<'a> {
    version: Version,
    bytes: &'a [u8],
}

impl<'a> Model for CodeView<'a> {
    ghost Value = { List AnInstr };

    ghost view = { λ v. program_code v.version (code_in v.version v.bytes.now) };

    ghost invariant = { λ v. IsCodeOf v.version (code_in v.version v.bytes.now) v.bytes.now };
}

impl<'a> Code for CodeView<'a> {
    ghost list = { λ v. v };

    #[inline]
    fn len(&self) -> usize {
        count_in(self.version, self.bytes)
    }

    #[inline]
    fn at(&self, i: usize) -> Instr {
        member_of(self.version, self.bytes, i)
    }
}

#[inline]
fn count_in(version: Version, bytes: &[u8]) -> usize
    requires { IsCodeOf version (code_in version bytes.now) bytes.now }
    ensures { result ≡ length (program_code version (code_in version bytes.now)) }
{
    stored_count(version, bytes)
}

#[inline]
fn member_of(version: Version, bytes: &[u8], i: usize) -> Instr
    requires code { IsCodeOf version (code_in version bytes.now) bytes.now }
    requires within { i < length (program_code version (code_in version bytes.now)) }
    ensures { slice_get (program_code version (code_in version bytes.now)) i ≡ Some result }
{
    as_program(version, stored_at(version, bytes, i))
}

/// How many instructions the bytes are.
#[inline]
fn stored_count(version: Version, bytes: &[u8]) -> usize
    requires { IsCodeOf version (code_in version bytes.now) bytes.now }
    ensures { result ≡ length (code_in version bytes.now) }
{
    let _version = version;
    bytes.len() / 8
}

/// The instruction as it stands in the bytes.
#[inline]
fn stored_at(version: Version, bytes: &[u8], i: usize) -> Instr
    requires code { IsCodeOf version (code_in version bytes.now) bytes.now }
    requires within { i < length (code_in version bytes.now) }
    ensures { slice_get (code_in version bytes.now) i ≡ Some result }
{
    let _len = bytes.len();
    let (_, from) = bytes.split_at(8 * i);
    match instr_of(version, from) {
        Ok((instr, _)) => instr,
        Err(_) => unreachable!(),
    }
}

/// The instruction of the program: a counting loop of version 1 names its limit, which is one less.
#[inline]
fn as_program(version: Version, instr: Instr) -> Instr
    ensures { result ≡ program_instr version instr }
{
    match version {
        Version::One => upgraded(instr),
        Version::Two => instr,
    }
}

#[inline]
fn upgraded(instr: Instr) -> Instr
    ensures { result ≡ program_instr versions.One instr }
{
    if is_counting_loop(instr.op) {
        Instr {
            b: instr.b.saturating_sub(1),
            ..instr
        }
    } else {
        instr
    }
}

/// The limit that an instruction of version 1 holds, and 0 where it holds none.
fn limit_held(instr: Instr) -> u16
    ensures { result ≡ own_limit instr }
{
    if is_counting_loop(instr.op) {
        instr.b
    } else {
        0
    }
}

fn greater_of(a: u16, b: u16) -> u16
    ensures { result ≡ greater a b }
{
    if a < b { b } else { a }
}

/// The greatest limit that code of version 1 holds, and 0 where it holds none.
#[tactic(auto, unfolding(cse_image_parts::specs::Upgrade::greatest_limit))]
fn greatest_in(bytes: &[u8]) -> u16
    requires { IsCodeOf versions.One (code_in versions.One bytes.now) bytes.now }
    ensures { result ≡ greatest_limit (code_in versions.One bytes.now) }
{
    let mut greatest = 0;
    for i in 0..stored_count(Version::One, bytes) {
        greatest = greater_of(greatest, limit_held(stored_at(Version::One, bytes, i)));
    }
    greatest
}

/// The limits 1, 2, .. up to n.
#[tactic(auto, unfolding(cse_image_parts::specs::Upgrade::one_to))]
fn limits_to(alloc: Global, n: u16) -> Result<Vec<u32>, AllocError>
    ensures { IfOk result (λ v. v.items ≡ one_to n) }
{
    let mut limits = Vec::new(alloc);
    for i in 0..n {
        limits.push(i as u32 + 1)?;
    }
    Ok(limits)
}

/// The tables of an image become those of its program, whose limits in version 1 are those that the code holds.
fn set_limits(
    alloc: Global,
    version: Version,
    tables: &mut Tables,
    code: &[u8],
) -> Result<(), AllocError>
    requires { IsCodeOf version (code_in version code.now) code.now }
    ensures { OnOk result (lists_of tables.new ≡ (program_in version (image_with tables.old (code_in version code.now))).lists) }
{
    match version {
        Version::One => {
            let limits = limits_to(alloc, greatest_in(code))?;
            tables.limits = limits;
            Ok(())
        }
        Version::Two => Ok(()),
    }
}

/// The bytes that stand before the rest.
fn bytes_before<'a>(bytes: &'a [u8], rest: &[u8]) -> &'a [u8]
    requires { length rest.now ≤ length bytes.now }
    ensures { result.now ≡ take (length bytes.now - length rest.now) bytes.now }
{
    &bytes[..bytes.len() - rest.len()]
}

/// So many instructions, read and not kept, and what follows them.
fn view_code(version: Version, count: u32, bytes: &[u8]) -> Result<(&[u8], &[u8]), FieldFault>
    ensures exact { GivesFault (λ x. (code_in version x.0.now, x.1.now)) result (each (instr_at version) count bytes.now) }
    ensures code { IfOk result (λ x. IsCodeOf version (code_in version x.0.now) x.0.now) }
{
    let mut rest = bytes;
    for _ in 0..count {
        let (_, after) = instr_of(version, rest)?;
        rest = after;
    }
    Ok((bytes_before(bytes, rest), rest))
}

fn view_code_of<'a>(
    version: Version,
    routines: &[Routine],
    bytes: &'a [u8],
) -> Result<(&'a [u8], &'a [u8]), FieldFault>
    requires { instructions_in (map routine_lists routines.now) ≤ MOST_INSTRUCTIONS }
    ensures exact { GivesFault (λ x. (code_in version x.0.now, x.1.now)) result
        (each (instr_at version) (instructions_in (map routine_lists routines.now)) bytes.now) }
    ensures code { IfOk result (λ x. IsCodeOf version (code_in version x.0.now) x.0.now) }
{
    let count = total_of(routines);
    view_code(version, count, bytes)
}

/// The version and the code of what the bytes begin with, and what follows it. Its tables are read into those that are lent.
#[tactic(auto, unfolding(cse_image_parts::specs::Reader::then_at, cse_image_parts::specs::Reader::done, crate::specs::Reading::edition_at))]
fn parts_of<'a>(
    alloc: Global,
    tables: &mut Tables,
    bytes: &'a [u8],
) -> Result<((Version, &'a [u8]), &'a [u8]), ReadStop>
    requires { lists_of tables.old ≡ no_lists }
    ensures exact { Gives (λ x. (edition x.0.0 (image_with tables.new (code_in x.0.0 x.0.1.now)), x.1.now)) result (edition_at bytes.now) }
    ensures code { IfOk result (λ x. IsCodeOf x.0.0 (code_in x.0.0 x.0.1.now) x.0.1.now) }
{
    let (version, rest) = header_of(bytes)?;
    let rest = tables_of(alloc, version, tables, rest)?;
    let (code, rest) = view_code_of(version, &tables.routines, rest)?;
    Ok(((version, code), rest))
}

/// All of the bytes are one image.
#[tactic(auto, unfolding(crate::specs::Reading::whole_edition))]
fn whole_edition<'a>(
    alloc: Global,
    tables: &mut Tables,
    bytes: &'a [u8],
) -> Result<(Version, &'a [u8]), ReadStop>
    requires { lists_of tables.old ≡ no_lists }
    ensures exact { Gives (λ x. edition x.0 (image_with tables.new (code_in x.0 x.1.now))) result (spec_whole_edition bytes.now) }
    ensures code { IfOk result (λ x. IsCodeOf x.0 (code_in x.0 x.1.now) x.1.now) }
{
    let (parts, rest) = parts_of(alloc, tables, bytes)?;
    if !rest.is_empty() {
        return Err(ReadStop::from(broken(Rule::LeftOver, rest)));
    }
    Ok(parts)
}

/// The code of the program, whose tables are read into those that are lent.
#[tactic(auto, unfolding(crate::specs::Reading::reading))]
fn code_of<'a>(
    alloc: Global,
    tables: &mut Tables,
    bytes: &'a [u8],
) -> Result<CodeView<'a>, ReadStop>
    requires { lists_of tables.old ≡ no_lists }
    ensures { Gives (λ x. image_with tables.new x) result (reading bytes.now) }
{
    let (version, code) = whole_edition(alloc, tables, bytes)?;
    set_limits(alloc, version, tables, code)?;
    Ok(CodeView {
        version,
        bytes: code,
    })
}

fn whole_view(alloc: Global, bytes: &[u8]) -> Result<(Tables, CodeView), ReadStop>
    ensures { Gives (λ x. image_with x.0 x.1) result (reading bytes.now) }
{
    let mut tables = no_tables(alloc);
    match code_of(alloc, &mut tables, bytes) {
        Ok(code) => Ok((tables, code)),
        Err(stop) => Err(stop),
    }
}

/// The program that the bytes spell, with its code read in place: what `read_image` gives. The bytes
/// are lent for as long as the program lives; each instruction is decoded when it is asked for.
pub fn view_image(alloc: Global, bytes: &[u8]) -> Result<Program<CodeView>, ImageError>
    // What is read is what the bytes stand for: they are its spelling in version 2, or that of a
    // version 1 program whose upgrade it is.
    ensures found { IfOk result (λ p. StandFor p bytes.now) }
    // What they stand for is read, unless memory runs out.
    ensures only { (x : Image) → StandFor x bytes.now → Answers (λ p. p) result (Ok x) }
    // Which rule is broken first, and where, by the rules of the version that stands in the header.
    ensures exact { Answers (λ p. p) result (placed (length bytes.now) (reading bytes.now)) }
{
    match whole_view(alloc, bytes) {
        Ok((tables, code)) => Ok(Program::with(tables, code)),
        Err(stop) => Err(error_within(stop, bytes.len())),
    }
}
