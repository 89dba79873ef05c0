//! An image that is read and written, jumps alone, and what an error shows. For each rule of the format bytes that break it, images
//! that are cut, and images of both versions are laws of `image_laws` and rows of cse_test_files.

use cse_code_typing::check_jumps_and_brackets;
use cse_image::{ImageError, Program, read_image, write_image};
use cse_verify::check_jumps;
use std::alloc::Global;

/// Lists "Hi" in the application's preproc: one message, one routine of two instructions, one event.
static HELLO: [u8; 98] = [
    67, 83, 69, 66, 2, 0, 0, 0, // header
    0, 0, 0, 0, 0, 0, 0, 0, 0, 0, 0, 0, 0, 0, 0, 0, // records, items, sets, order
    0, 0, 0, 0, 0, 0, 0, 0, 0, 0, 0, 0, 0, 0, 0, 0, // constants, limits, texts, globals
    0, 0, 0, 0, // arrays
    1, 0, 0, 0, 0, 0, 0, 0, 0, 0, 2, 0, 72, 105, // messages
    1, 0, 0, 0, 0, 0, 0, 0, 2, 0, 0, 0, // routines
    1, 0, 0, 0, 0, 0, 0, 0, 0, 0, 0, 0, // events
    37, 0, 0, 0, 0, 0, 0, 0, // Message 0
    40, 0, 0, 0, 0, 0, 0, 0, // Return
];

/// Whether a program is written as these bytes.
fn is_written(alloc: Global, program: &Program, wanted: &[u8]) -> bool {
    match write_image(alloc, program) {
        Ok(bytes) => bytes.as_slice() == wanted,
        Err(_) => false,
    }
}

/// Whether the calls that look at jumps and brackets alone pass a program.
fn jumps_pass(program: &Program) -> bool {
    check_jumps(program).is_ok() & check_jumps_and_brackets(program).is_ok()
}

/// Whether these bytes are read as a program that is written so again, and passes.
fn is_read(alloc: Global, image: &[u8]) -> bool {
    match read_image(alloc, image) {
        Ok(program) => is_written(alloc, &program, image) & jumps_pass(&program),
        Err(_) => false,
    }
}

/// Whether an error is shown so.
fn is_shown(alloc: Global, error: &ImageError, wanted: &str) -> bool {
    match error.to_string(alloc) {
        Ok(text) => text.as_str() == wanted,
        Err(_) => false,
    }
}

/// Whether an image is read as it was written, and its fault is shown.
pub(crate) fn are_right(alloc: Global) -> bool {
    let error = ImageError { number: 61, at: 93 };
    is_read(alloc, &HELLO) & is_shown(alloc, &error, "fault 61 at byte 93")
}
