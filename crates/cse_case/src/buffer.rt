//! The bytes that were read and aren't cut into lines yet.

ghost use Rattle.std.specs.Prelude.{◌≡◌, ◌≤◌, ◌+◌, ◌++◌, ℕ, List, [], drop, length, take, IfOk, OnOk, OnErr, true, IsErrOf, vec_capacity, vec_len};
ghost use Rattle.cse_value.specs.Device.{Keeps, IsUnfailing, FailsOnce};
ghost use Rattle.cse_case.specs.RunReading.{ReadsMore};

use cse_value::Input;
use std::alloc::{AllocError, Global};
use std::marker::Model;

/// The most bytes that one read asks for.
pub const CHUNK: usize = 65_536;

/// Why no bytes could be read.
#[derive(Clone, Copy)]
pub enum ReadFault {
    Device,
    Memory,
}

/// A copy of bytes, with room for what one read gives.
fn copy_of(alloc: Global, held: &[u8]) -> Result<Vec<u8>, AllocError>
    ensures items { IfOk result (λ bytes. bytes.items ≡ held.now) }
    ensures room { IfOk result (λ bytes. vec_len bytes + 65536 ≤ vec_capacity bytes) }
{
    let mut bytes = Vec::from_slice(alloc, held)?;
    match bytes.reserve(CHUNK) {
        Ok(()) => Ok(bytes),
        Err(refused) => Err(refused),
    }
}

/// Reads once, into the front of a chunk.
fn read_chunk<R: Input>(chunk: &mut Vec<u8>, input: &mut R) -> Result<usize, ReadFault>
    ensures fits { IfOk result (λ n. n ≤ length chunk.new.items) }
    ensures more { IfOk result (λ n. (held : List ℕ) → ReadsMore (R.given input.old) (R.given input.new) held (held ++ take n chunk.new.items) n) }
    ensures kept { OnErr result (Keeps (R.given input.old) (R.given input.new)) }
    ensures works { OnOk result (IsUnfailing (R.given input.old) (R.given input.new)) }
    ensures failed { IsErrOf result ReadFault.Device → FailsOnce (R.given input.old) (R.given input.new) }
    ensures sound { IsErrOf result ReadFault.Memory → IsUnfailing (R.given input.old) (R.given input.new) }
{
    let Ok(()) = chunk.resize(CHUNK, 0) else {
        return Err(ReadFault::Memory);
    };
    match input.read(chunk) {
        Ok(n) => Ok(n),
        Err(_) => Err(ReadFault::Device),
    }
}

/// A queue of bytes.
#[derive(Drop)]
pub struct Buffer {
    bytes: Vec<u8>,
    at: usize,
    /// What one read fills.
    chunk: Vec<u8>,
}

impl Model for Buffer {
    ghost use Rattle.std.specs.Prelude.{ℕ, List, ◌≤◌, drop, vec_len};

    ghost Value = { List ℕ };

    ghost view = { λ b. drop b.at b.bytes.items };

    ghost invariant = { λ b. b.at ≤ vec_len b.bytes };
}

impl Buffer {
    /// No bytes.
    pub fn new(alloc: Global) -> Buffer
        ensures { result ≡ [] }
    {
        Buffer {
            bytes: Vec::new(alloc),
            at: 0,
            chunk: Vec::new(alloc),
        }
    }

    /// How many bytes it holds.
    pub fn len(&self) -> usize
        ensures { result ≡ length self.now }
    {
        self.bytes.len() - self.at
    }

    /// The bytes that it holds.
    pub fn as_slice(&self) -> &[u8]
        ensures { result.now ≡ self.now }
    {
        &self.bytes[self.at..]
    }

    /// Gives up the first bytes.
    pub fn drop_front(&mut self, n: usize)
        requires { n ≤ length self.old }
        ensures { self.new ≡ drop n self.old }
    {
        self.at += n;
    }

    /// Reads once, behind what is held.
    pub fn read_from<R: Input>(&mut self, alloc: Global, input: &mut R) -> Result<usize, ReadFault>
        ensures more { IfOk result (λ n. ReadsMore (R.given input.old) (R.given input.new) self.old self.new n) }
        ensures same { OnErr result (self.new ≡ self.old) }
        ensures kept { OnErr result (Keeps (R.given input.old) (R.given input.new)) }
        ensures works { OnOk result (IsUnfailing (R.given input.old) (R.given input.new)) }
        ensures failed { IsErrOf result ReadFault.Device → FailsOnce (R.given input.old) (R.given input.new) }
        ensures sound { IsErrOf result ReadFault.Memory → IsUnfailing (R.given input.old) (R.given input.new) }
    {
        let Ok(mut bytes) = copy_of(alloc, self.as_slice()) else {
            return Err(ReadFault::Memory);
        };
        let n = match read_chunk(&mut self.chunk, input) {
            Ok(n) => n,
            Err(fault) => return Err(fault),
        };
        let Ok(()) = bytes.extend_from_slice(&self.chunk[..n]) else {
            unreachable!();
        };
        self.bytes = bytes;
        self.at = 0;
        Ok(n)
    }
}
