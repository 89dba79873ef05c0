//! An image, and its bytes in version 2.

use std::alloc::AllocError;

/// Lists "Hi" in the application's preproc: one message, one routine of two instructions, one event.
pub(crate) static HELLO: [u8; 94] = [
    67, 83, 69, 66, 1, 0, 0, 0, // header
    0, 0, 0, 0, 0, 0, 0, 0, 0, 0, 0, 0, 0, 0, 0, 0, // records, items, sets, order
    0, 0, 0, 0, 0, 0, 0, 0, 0, 0, 0, 0, 0, 0, 0, 0, // constants, texts, globals, arrays
    1, 0, 0, 0, 0, 0, 0, 0, 0, 0, 2, 0, 72, 105, // messages
    1, 0, 0, 0, 0, 0, 0, 0, 2, 0, 0, 0, // routines
    1, 0, 0, 0, 0, 0, 0, 0, 0, 0, 0, 0, // events
    37, 0, 0, 0, 0, 0, 0, 0, // Message 0
    40, 0, 0, 0, 0, 0, 0, 0, // Return
];

/// Puts `HELLO` in version 2 of the format, which has a table of limits.
pub(crate) fn put_hello(image: &mut Vec<u8>) -> Result<(), AllocError> {
    image.extend_from_slice(&[67, 83, 69, 66, 2, 0, 0, 0])?;
    image.extend_from_slice(&[0; 36])?;
    image.extend_from_slice(&HELLO[40..])
}
