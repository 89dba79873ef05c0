//! Images in which one bit was turned. Each byte with each other value: `examples/fuzz`.

use crate::hello::{HELLO, put_hello};
use cse_command_images::try_image::try_to;
use cse_dict::Dictionary;
use cse_value::Writes;
use cse_verify::check_image;
use std::alloc::Global;

/// The dictionary with neither records nor items.
const EMPTY: &str = "[Dictionary]\nName=T\n[Level]\nName=L\n";

/// The steps that the program of an image may take, where it may run.
fn most_steps(alloc: Global, dictionary: &Dictionary, image: &[u8]) -> Option<u64> {
    match check_image(alloc, dictionary, image) {
        Ok(verified) => Some(verified.run_steps()),
        Err(_) => None,
    }
}

/// The steps that its preproc takes, where it is run.
fn steps(alloc: Global, image: &[u8]) -> Option<u64> {
    let mut out = Writes::new(Vec::new(alloc));
    try_to(alloc, image, &mut out).ok()
}

/// An image is refused, or its preproc ends within the steps that it may take.
fn keeps_to_its_steps(alloc: Global, dictionary: &Dictionary, image: &[u8]) -> bool {
    match (most_steps(alloc, dictionary, image), steps(alloc, image)) {
        (None, None) => true,
        (Some(most), Some(taken)) => taken <= most,
        _ => false,
    }
}

/// So does one in which a bit was turned.
fn keeps_turned(alloc: Global, dictionary: &Dictionary, image: &[u8], at: usize, bit: u8) -> bool {
    let mut bytes = Vec::new(alloc);
    if bytes.extend_from_slice(image).is_ok() && at < bytes.len() {
        bytes[at] ^= bit;
        keeps_to_its_steps(alloc, dictionary, &bytes)
    } else {
        false
    }
}

/// So do those in which a bit of one byte was turned.
fn keep_turned(alloc: Global, dictionary: &Dictionary, image: &[u8], at: usize) -> bool {
    for bit in [1, 2, 4, 8, 16, 32, 64, 128] {
        if !keeps_turned(alloc, dictionary, image, at, bit) {
            return false;
        }
    }
    true
}

/// The first byte of which a bit may not be turned, or how many bytes there are.
fn first_turned(alloc: Global, image: &[u8]) -> Option<usize> {
    let dictionary = Dictionary::read(alloc, EMPTY.as_bytes()).ok()?;
    for at in 0..image.len() {
        if !keep_turned(alloc, &dictionary, image, at) {
            return Some(at);
        }
    }
    Some(image.len())
}

/// The same of `HELLO` in version 2.
fn first_turned_of_hello(alloc: Global) -> Option<usize> {
    let mut image = Vec::new(alloc);
    match put_hello(&mut image) {
        Ok(()) => first_turned(alloc, &image),
        Err(_) => None,
    }
}

/// Whether each byte of both images could be turned.
pub(crate) fn are_right(alloc: Global) -> bool {
    (first_turned(alloc, &HELLO) == Some(94)) & (first_turned_of_hello(alloc) == Some(98))
}
