//! Files that are read whole.

ghost use Rattle.std.specs.Prelude.{◌≡◌, ◌≤◌, ◌⊎◌, ◌<◌, [], false, IfErr, IfOk, IfSome, OnOk, length, take};
ghost use Rattle.cse_value.specs.Device.{Consumes, IsAtEnd, IsUnfailing};
ghost use Rattle.cse_value.specs.Sound.{are_given};
ghost use Rattle.cse_files.specs.Whole.{IsUnread, IsWhole, StopsReading};

use crate::fault::ReadFault;
use crate::opened::{OpenedInput, open_input};
use cse_value::{Failed, Input, Reads};
use std::alloc::Global;
use std::io::{ErrorKind, Read};
use std::rt::Files;

/// How many bytes are asked for at once.
const PIECE: usize = 16_384;

/// A file that was read, and the bytes that it gave: all of them, or one more than were allowed.
pub struct WholeFile<'a, F> {
    input: OpenedInput<'a, F>,
    bytes: Vec<u8>,
}

// Written out, so that a crate that owns a file calls this drop and does not prove one for each part.
impl<'a, F: Drop> Drop for WholeFile<'a, F> {
    fn drop(self) {
        let WholeFile {
            input: _input,
            bytes: _bytes,
        } = self;
    }
}

impl<'a, F: Drop> WholeFile<'a, F> {
    /// The bytes that it gave.
    pub fn bytes(&self) -> &[u8]
        ensures { result.now ≡ self.now.bytes.items }
    {
        &self.bytes
    }
}

/// Reads a file: all of it, or one byte more than these at most.
pub fn read_whole<'a, R: Files + AllocGlobal>(
    rt: &R,
    path: &'a str,
    most: u64,
) -> Result<WholeFile<'a, R::File>, ReadFault>
    ensures path { IfOk result (λ f. f.input.path.now ≡ path.now) }
    ensures whole { IfOk result (λ f. IsWhole (⟦<Reads<R::File> as Input>⟧.given f.input.device) f.bytes.items most) }
    ensures unread { IfErr result (IsUnread (⟦<Reads<R::File> as Input>⟧.given) path.now) }
{
    match open_input(rt, path) {
        Ok(input) => read_opened(rt.alloc(), input, most),
        Err(error) => Err(ReadFault::of_open(error.kind())),
    }
}

/// The same where the file is there.
pub fn read_where_there<'a, R: Files + AllocGlobal>(
    rt: &R,
    path: &'a str,
    most: u64,
) -> Result<Option<WholeFile<'a, R::File>>, ReadFault>
    ensures path { IfOk result (λ read. IfSome read (λ f. f.input.path.now ≡ path.now)) }
    ensures whole { IfOk result (λ read. IfSome read (λ f. IsWhole (⟦<Reads<R::File> as Input>⟧.given f.input.device) f.bytes.items most)) }
    ensures unread { IfErr result (IsUnread (⟦<Reads<R::File> as Input>⟧.given) path.now) }
{
    match open_input(rt, path) {
        Ok(input) => Ok(Some(read_opened(rt.alloc(), input, most)?)),
        Err(error) if error.kind() == ErrorKind::NotFound => Ok(None),
        Err(error) => Err(ReadFault::of_open(error.kind())),
    }
}

/// Reads a file that was opened.
fn read_opened<'a, F: Read + Drop>(
    alloc: Global,
    mut input: OpenedInput<'a, F>,
    most: u64,
) -> Result<WholeFile<'a, F>, ReadFault>
    requires unread { ⟦<Reads<F> as Input>⟧.given input.device ≡ are_given [] false 0 }
    ensures path { IfOk result (λ f. f.input.path ≡ input.entry.path) }
    ensures whole { IfOk result (λ f. IsWhole (⟦<Reads<F> as Input>⟧.given f.input.device) f.bytes.items most) }
    ensures unread { IfErr result (IsUnread (⟦<Reads<F> as Input>⟧.given) input.entry.path.now) }
{
    let bytes = read_all(alloc, &mut input.device, most)?;
    Ok(WholeFile { input, bytes })
}

/// What a device gives: all of it, or one byte more than these at most.
pub fn read_all<I: Input>(alloc: Global, input: &mut I, most: u64) -> Result<Vec<u8>, ReadFault>
    ensures bytes { IfOk result (λ bytes. Consumes (I.given input.old) (I.given input.new) bytes.items) }
    ensures sound { OnOk result (IsUnfailing (I.given input.old) (I.given input.new)) }
    ensures end { IfOk result (λ bytes. IsAtEnd (I.given input.new) ⊎ (most < length bytes.items)) }
    ensures stops { IfErr result (StopsReading (I.given input.old) (I.given input.new)) }
{
    let mut bytes = Vec::new(alloc);
    let mut piece = [0u8; PIECE];
    'pieces: while bytes.len() as u64 <= most {
        let count = read_piece(input, &mut piece, most - bytes.len() as u64)?;
        if count == 0 {
            return Ok(bytes);
        }
        bytes.extend_from_slice(&piece[..count])?;
    }
    Ok(bytes)
}

/// Reads as many bytes as there is room for, and at most one more than these.
fn read_piece<I: Input>(
    input: &mut I,
    piece: &mut [u8; PIECE],
    more: u64,
) -> Result<usize, ReadFault>
    ensures within { IfOk result (λ n. n ≤ 16384) }
    ensures bytes { IfOk result (λ n. Consumes (I.given input.old) (I.given input.new) (take n piece.new)) }
    ensures sound { OnOk result (IsUnfailing (I.given input.old) (I.given input.new)) }
    ensures end { IfOk result (λ n. n ≡ 0 → IsAtEnd (I.given input.new)) }
    ensures stops { IfErr result (StopsReading (I.given input.old) (I.given input.new)) }
{
    let room = if more < PIECE as u64 {
        more as usize + 1
    } else {
        PIECE
    };
    match input.read(&mut piece[..room]) {
        Ok(count) => Ok(count),
        Err(Failed) => Err(ReadFault::NotRead),
    }
}
