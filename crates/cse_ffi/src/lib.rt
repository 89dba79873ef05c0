//! The calls of C: logic is built, images are verified, and data are edited, from buffers to buffers or over descriptors.
//!
//! - `fault`: why there is nothing, and what a run counted, as C sees them. `buffers`: bytes in a buffer of C.
//! - `calls`: what each call does, before C sees it. `descriptors`: the system's files by their numbers.
//!
//! `specs/Calls.antt` says what each call comes to, `specs/Buffers.antt` what C finds then. `examples/embed/c` has the header, and
//! a program in C.
#![tactic(auto)]

ghost use Rattle.std.specs.Prelude.{◌≡◌};
ghost use Rattle.cse_ffi.specs.Buffers.{FindsBounds, FindsCounts, FindsImage, FindsTexts, buffers};

mod buffers;
mod calls;
mod descriptors;
mod fault;

use buffers::{is_put, length};
use calls::{bounds_of, image_of, run_image, texts_of};
use cse_value::{Reads, Writes};
use descriptors::{FromDescriptor, ToDescriptor};
pub use fault::{CsbCounts, CsbFault, CsbTotals};
use fault::{counts_of, status_of, status_of_all, totals_of};
use std::alloc::Global;

/// Makes an image of logic; an empty text stands for no messages or no order.
///
/// It answers 0 where the image is in its buffer, 1 where the buffer is too small, and else the number of the fault. Of an image
/// the length is told in any case; of a fault the buffer and the length stay as they were.
#[unsafe(no_mangle)]
pub extern "C" fn csb_build(
    alloc: Global,
    dictionary: &[u8],
    logic: &[u8],
    messages: &[u8],
    order: &[u8],
    image: &mut [u8],
    image_length: &mut u64,
    fault: &mut CsbFault,
) -> u32
    ensures { FindsImage dictionary.now logic.now messages.now order.now image.old image.new image_length.old image_length.new fault.old fault.new result }
{
    match image_of(alloc, dictionary, logic, messages, order) {
        Ok(bytes) => {
            *image_length = length(&bytes);
            status_of(is_put(&bytes, image))
        }
        Err(why) => {
            *fault = why;
            why.number
        }
    }
}

/// Whether an image may run with a dictionary, and the most steps of a case and of the application's own events.
///
/// It answers 0, or the number of the fault; then no number of steps is told.
#[unsafe(no_mangle)]
pub extern "C" fn csb_verify(
    alloc: Global,
    dictionary: &[u8],
    image: &[u8],
    case_steps: &mut u64,
    run_steps: &mut u64,
    fault: &mut CsbFault,
) -> u32
    ensures { FindsBounds dictionary.now image.now case_steps.old case_steps.new run_steps.old run_steps.new fault.old fault.new result }
{
    match bounds_of(alloc, dictionary, image) {
        Ok((case, run)) => {
            *case_steps = case;
            *run_steps = run;
            0
        }
        Err(why) => {
            *fault = why;
            why.number
        }
    }
}

/// Edits data by an image, from buffers to buffers; empty decks stand for none.
///
/// It answers 0 where each output is in its buffer, 1 where a buffer is too small, and else the number of the fault. Of a whole run
/// the totals are told, with the length of each output, and each output that fits is put; of a fault all stays as it was.
#[unsafe(no_mangle)]
pub extern "C" fn csb_run(
    alloc: Global,
    dictionary: &[u8],
    image: &[u8],
    decks: &[u8],
    input: &[u8],
    out: &mut [u8],
    listing: &mut [u8],
    frequencies: &mut [u8],
    saved: &mut [u8],
    totals: &mut CsbTotals,
    fault: &mut CsbFault,
) -> u32
    ensures { FindsTexts dictionary.now image.now decks.now input.now (buffers out.old listing.old frequencies.old saved.old)
        (buffers out.new listing.new frequencies.new saved.new) totals.old totals.new fault.old fault.new result }
{
    match texts_of(alloc, dictionary, image, decks, input) {
        Ok(texts) => {
            *totals = totals_of(&texts);
            let lines = is_put(&texts.out, out);
            let listed = is_put(&texts.listing, listing);
            let counted = is_put(&texts.frequencies, frequencies);
            let kept = is_put(&texts.decks, saved);
            status_of_all(lines, listed, counted, kept)
        }
        Err(why) => {
            *fault = why;
            why.number
        }
    }
}

/// Edits the first bytes of a descriptor, so many, to four descriptors, by an image; empty decks stand for none.
///
/// It answers 0 after a whole run, with its counts, and else the number of the fault: 70 where the descriptor gives fewer bytes,
/// 71 where an output takes less than all.
#[unsafe(no_mangle)]
pub extern "C" fn csb_run_descriptors(
    alloc: Global,
    dictionary: &[u8],
    image: &[u8],
    decks: &[u8],
    input: i32,
    input_length: u64,
    out: i32,
    listing: i32,
    frequencies: i32,
    saved: i32,
    counts: &mut CsbCounts,
    fault: &mut CsbFault,
) -> u32
    ensures { FindsCounts dictionary.now image.now decks.now counts.old counts.new fault.old fault.new result }
{
    let ran = run_image(
        alloc,
        dictionary,
        image,
        decks,
        &mut Reads::new(FromDescriptor::new(input, input_length)),
        &mut Writes::new(ToDescriptor::new(out)),
        &mut Writes::new(ToDescriptor::new(listing)),
        &mut Writes::new(ToDescriptor::new(frequencies)),
        &mut Writes::new(ToDescriptor::new(saved)),
    );
    match ran {
        Ok(totals) => {
            *counts = counts_of(totals);
            0
        }
        Err(why) => {
            *fault = why;
            why.number
        }
    }
}
