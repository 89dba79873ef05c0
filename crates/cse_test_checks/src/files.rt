//! Files of persons: how soon their first run is given, which no clause says. What the runs of other files are is a law of
//! `file_laws`.

use crate::persons::persons;
use cse_case::RunReader;
use cse_dict::Dictionary;
use cse_value::Reads;
use std::alloc::Global;
use std::io;

/// A mark, lines with ends of each kind, and letters beyond ASCII. Its first run ends with byte 22, and the line behind it with
/// byte 31.
const FILE: &[u8] =
    b"\xef\xbb\xbfP00111\r\nP0012\nX001\nP002  b \n\nP00\xc3\xa9\nP00\xc3\xa9z\nP003\rx";

/// A reader that gives at most so many bytes in a call.
#[derive(Drop)]
struct Slow<'a> {
    bytes: &'a [u8],
    at_most: usize,
}

impl io::Read for Slow<'_> {
    fn read(&mut self, buf: &mut [u8]) -> io::Result<usize> {
        let n = self.at_most.min(buf.len()).min(self.bytes.len());
        let (front, rest) = self.bytes.split_at(n);
        buf[..n].copy_from_slice(front);
        self.bytes = rest;
        Ok(n)
    }
}

/// How many lines the first run has, and how many reads give it: its end is known with the whole of the next line.
fn first_run(alloc: Global, dictionary: &Dictionary, at_most: usize) -> (usize, u64) {
    let bytes = FILE;
    let mut input = Reads::new(Slow { bytes, at_most });
    let mut reader = RunReader::new(alloc, dictionary);
    let lines = match reader.next(&mut input) {
        Ok(Some(run)) => run.len(),
        _ => 0,
    };
    (lines + reader.kept().lines, reader.reads())
}

fn runs_are_given(alloc: Global, dictionary: &Dictionary) -> bool {
    (first_run(alloc, dictionary, 1) == (4, 31))
        & (first_run(alloc, dictionary, 2) == (4, 16))
        & (first_run(alloc, dictionary, 7) == (4, 5))
        & (first_run(alloc, dictionary, 65536) == (4, 1))
}

/// Whether the rows come out as they should.
pub(crate) fn are_right(alloc: Global) -> bool {
    match persons(alloc) {
        Ok(dictionary) => runs_are_given(alloc, &dictionary),
        Err(_) => false,
    }
}
