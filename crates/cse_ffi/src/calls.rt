//! What each call does, before C sees it.

ghost use Rattle.std.specs.Prelude.{◌≡◌, Ok, IfOk, IfErr};
ghost use Rattle.cse_decks.specs.Store.{StoreFits};
ghost use Rattle.cse_batch_parts.specs.RunClauses.{contents, failures};
ghost use Rattle.cse_ffi.specs.Calls.{HasNoStart, IsDictionaryFault, IsImageFault, IsImageOf, IsNoImage, IsRead, MayRun, RunsData, RunsFrom, RunsImage, StopsData, StopsFrom, StopsImage, begun, in_memory};

use crate::fault::{CsbFault, fault_at, of_check};
use cse_batch::{Totals, run};
use cse_decks::{Store, load};
use cse_dict::Dictionary;
use cse_image::{Code, Program};
use cse_meaning::build;
use cse_value::{FromSlice, Gathered, Input, Output};
use cse_verify::{Verified, check_image};
use std::alloc::Global;

/// The number of an output that failed, and that of a want of memory.
const WRITE: u32 = 71;

const MEMORY: u8 = cse_fault_numbers::WANT_OF_MEMORY;

/// The dictionary of a text.
fn dictionary_of(alloc: Global, text: &[u8]) -> Result<Dictionary, CsbFault>
    ensures read { IfOk result (λ d. IsRead text.now d) }
    ensures fault { IfErr result (IsDictionaryFault text.now) }
{
    match Dictionary::read(alloc, text) {
        Ok(dictionary) => Ok(dictionary),
        Err(error) => Err(fault_at(error.number, error.line, 0)),
    }
}

/// The image of logic for a dictionary's text.
pub(crate) fn image_of(
    alloc: Global,
    dictionary: &[u8],
    logic: &[u8],
    messages: &[u8],
    order: &[u8],
) -> Result<Vec<u8>, CsbFault>
    ensures image { IfOk result (λ v. IsImageOf dictionary.now logic.now messages.now order.now v.items) }
    ensures fault { IfErr result (IsNoImage dictionary.now logic.now messages.now order.now) }
{
    let dictionary = dictionary_of(alloc, dictionary)?;
    match build(alloc, &dictionary, logic, messages, order) {
        Ok(image) => Ok(image),
        Err(error) => Err(fault_at(error.number, error.line, error.column)),
    }
}

/// The steps that a case and a run may take, of an image that may run with a dictionary's text.
pub(crate) fn bounds_of(
    alloc: Global,
    dictionary: &[u8],
    image: &[u8],
) -> Result<(u64, u64), CsbFault>
    ensures bounds { IfOk result (λ b. MayRun dictionary.now image.now b.0 b.1) }
    ensures fault { IfErr result (IsImageFault dictionary.now image.now) }
{
    let dictionary = dictionary_of(alloc, dictionary)?;
    match check_image(alloc, &dictionary, image) {
        Ok(verified) => Ok((verified.case_steps(), verified.run_steps())),
        Err(error) => Err(of_check(error)),
    }
}

/// Runs an image that may run, over a device, from hot decks of an earlier run (empty: none).
pub(crate) fn run_image<R: Input, O: Output, L: Output, F: Output, D: Output>(
    alloc: Global,
    dictionary: &[u8],
    image: &[u8],
    decks: &[u8],
    input: &mut R,
    out: &mut O,
    listing: &mut L,
    frequencies: &mut F,
    saved: &mut D,
) -> Result<Totals, CsbFault>
    ensures whole { IfOk result (RunsImage dictionary.now image.now decks.now
        (R.given input.old) (R.given input.new)
        (contents (O.taken out.old) (L.taken listing.old) (F.taken frequencies.old) (D.taken saved.old))
        (contents (O.taken out.new) (L.taken listing.new) (F.taken frequencies.new) (D.taken saved.new))) }
    ensures stops { IfErr result (StopsImage dictionary.now image.now decks.now
        (R.given input.old) (R.given input.new)
        (contents (O.taken out.old) (L.taken listing.old) (F.taken frequencies.old) (D.taken saved.old))
        (contents (O.taken out.new) (L.taken listing.new) (F.taken frequencies.new) (D.taken saved.new))
        (failures (O.has_failed out.new) (L.has_failed listing.new) (F.has_failed frequencies.new) (D.has_failed saved.new))) }
{
    let dictionary = dictionary_of(alloc, dictionary)?;
    match check_image(alloc, &dictionary, image) {
        Ok(verified) => run_verified(
            alloc,
            &verified,
            decks,
            input,
            out,
            listing,
            frequencies,
            saved,
        ),
        Err(error) => Err(of_check(error)),
    }
}

/// The store of a program at the start.
fn begun<C: Code>(alloc: Global, program: &Program<C>, decks: &[u8]) -> Result<Store, CsbFault>
    ensures fits { IfOk result (λ s. StoreFits program.now s) }
    ensures starts { IfOk result (λ s. begun program.now decks.now ≡ Ok s) }
    ensures fault { IfErr result (HasNoStart program.now decks.now) }
{
    if decks.is_empty() {
        return match Store::new(alloc, program) {
            Ok(store) => Ok(store),
            Err(_) => Err(fault_at(MEMORY, 0, 0)),
        };
    }
    match load(alloc, program, decks) {
        Ok(store) => Ok(store),
        Err(error) if error.number == MEMORY => Err(fault_at(MEMORY, 0, 0)),
        Err(error) => Err(fault_at(error.number, error.line, 0)),
    }
}

/// The same of a verified program.
fn run_verified<C: Code, R: Input, O: Output, L: Output, F: Output, D: Output>(
    alloc: Global,
    verified: &Verified<'_, C>,
    decks: &[u8],
    input: &mut R,
    out: &mut O,
    listing: &mut L,
    frequencies: &mut F,
    saved: &mut D,
) -> Result<Totals, CsbFault>
    ensures whole { IfOk result (RunsFrom verified.now decks.now
        (R.given input.old) (R.given input.new)
        (contents (O.taken out.old) (L.taken listing.old) (F.taken frequencies.old) (D.taken saved.old))
        (contents (O.taken out.new) (L.taken listing.new) (F.taken frequencies.new) (D.taken saved.new))) }
    ensures stops { IfErr result (StopsFrom verified.now decks.now
        (R.given input.old) (R.given input.new)
        (contents (O.taken out.old) (L.taken listing.old) (F.taken frequencies.old) (D.taken saved.old))
        (contents (O.taken out.new) (L.taken listing.new) (F.taken frequencies.new) (D.taken saved.new))
        (failures (O.has_failed out.new) (L.has_failed listing.new) (F.has_failed frequencies.new) (D.has_failed saved.new))) }
{
    let store = match begun(alloc, verified.program(), decks) {
        Ok(store) => store,
        Err(why) => return Err(why),
    };
    match run(
        alloc,
        verified,
        store,
        input,
        out,
        listing,
        frequencies,
        saved,
    ) {
        Ok(totals) => Ok(totals),
        Err(error) => Err(fault_at(error.number, error.line, 0)),
    }
}

/// The texts of a run, in memory.
#[derive(Drop)]
pub(crate) struct Texts {
    pub(crate) totals: Totals,
    pub(crate) out: Vec<u8>,
    pub(crate) listing: Vec<u8>,
    pub(crate) frequencies: Vec<u8>,
    pub(crate) decks: Vec<u8>,
}

/// What is told of a fault where all outputs are in memory.
fn in_memory(why: CsbFault) -> CsbFault
    ensures { result ≡ in_memory why }
{
    if why.number == WRITE {
        fault_at(MEMORY, 0, 0)
    } else {
        why
    }
}

/// Runs an image over data in memory. An output fails there by want of memory alone, and is told as that.
pub(crate) fn texts_of(
    alloc: Global,
    dictionary: &[u8],
    image: &[u8],
    decks: &[u8],
    input: &[u8],
) -> Result<Texts, CsbFault>
    ensures whole { IfOk result (λ t. RunsData dictionary.now image.now decks.now input.now t.totals
        (contents t.out.items t.listing.items t.frequencies.items t.decks.items)) }
    ensures stops { IfErr result (StopsData dictionary.now image.now decks.now input.now) }
{
    let mut read = FromSlice::new(input);
    let mut out = Gathered::new(alloc);
    let mut listing = Gathered::new(alloc);
    let mut frequencies = Gathered::new(alloc);
    let mut saved = Gathered::new(alloc);
    let ran = run_image(
        alloc,
        dictionary,
        image,
        decks,
        &mut read,
        &mut out,
        &mut listing,
        &mut frequencies,
        &mut saved,
    );
    read.gives();
    match ran {
        Ok(totals) => Ok(Texts {
            totals,
            out: out.into_bytes(),
            listing: listing.into_bytes(),
            frequencies: frequencies.into_bytes(),
            decks: saved.into_bytes(),
        }),
        Err(why) => Err(in_memory(why)),
    }
}
