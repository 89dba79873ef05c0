//! Columns as bytes: a byte of ASCII is its column, and a column beyond ASCII stands beside the bytes.

ghost use Rattle.std.specs.Prelude.{◌≡◌, ◌<◌, ◌≤◌, ◌+◌, ◌++◌, ◌∷◌, ℕ, [], length, get_or, set, take, drop, true, false, vec_capacity};
ghost use Rattle.std.specs.Str.{IsAscii};
ghost use Rattle.std.specs.Int.{to_le_bytes, w32};
ghost use Rattle.cse_case.specs.Bytes.{AreBytesOf, HasRoom, columns_by, columns_in, columns_lent};

use std::alloc::Global;

/// The byte that stands for a column beyond ASCII.
const MARK: u8 = 255;

/// Columns that are lent: their bytes, and what stands beside these from a place on. So columns are cut without a look at what
/// stands beside them.
#[derive(Clone, Copy)]
pub struct Columns<'a> {
    pub bytes: &'a [u8],
    pub beside: &'a [char],
    pub first: usize,
}

/// The character beside a byte, where these stand beside bytes from `first` on, and this one where nothing stands there.
#[inline(always)]
fn beside_at(beside: &[char], first: usize, i: usize, otherwise: char) -> char
    ensures { result ≡ get_or (drop first beside.now) i otherwise }
{
    match beside.get(first.saturating_add(i)) {
        Some(column) => *column,
        None => otherwise,
    }
}

/// So many bytes from a place on.
#[inline(always)]
pub fn piece(bytes: &[u8], at: usize, len: usize) -> &[u8]
    requires { at + len ≤ length bytes.now }
    ensures { result.now ≡ take len (drop at bytes.now) }
{
    &bytes[at..at + len]
}

/// Four bytes as one number.
#[inline(always)]
pub(crate) fn number_of_four(bytes: &[u8]) -> u32
    requires { length bytes.now ≡ 4 }
    ensures { to_le_bytes w32 result ≡ bytes.now }
{
    u32::from_le_bytes([bytes[0], bytes[1], bytes[2], bytes[3]])
}

impl<'a> Columns<'a> {
    /// Columns by their bytes, and the characters beside them.
    #[inline(always)]
    pub(crate) fn new(bytes: &'a [u8], beside: &'a [char]) -> Columns<'a>
        ensures { columns_lent result ≡ columns_by bytes.now beside.now }
    {
        Columns {
            bytes,
            beside,
            first: 0,
        }
    }

    /// How many there are.
    #[inline(always)]
    pub fn len(self) -> usize
        ensures { result ≡ length (columns_lent self.entry) }
    {
        self.bytes.len()
    }

    /// The bytes: those of ASCII are the columns there.
    #[inline(always)]
    pub(crate) fn bytes(self) -> &'a [u8]
        ensures { AreBytesOf (columns_lent self.entry) result.now }
    {
        self.bytes
    }

    /// A column, by its place from 0.
    #[inline(always)]
    pub fn at(self, i: usize) -> char
        requires { i < length (columns_lent self) }
        ensures { result ≡ get_or (columns_lent self.entry) i 0 }
    {
        let byte = self.bytes[i];
        if byte < 128 {
            byte as char
        } else {
            beside_at(self.beside, self.first, i, byte as char)
        }
    }

    /// So many columns from a place on.
    #[inline(always)]
    pub fn part(self, first: usize, len: usize) -> Columns<'a>
        requires { first + len ≤ length (columns_lent self) }
        ensures { columns_lent result ≡ take len (drop first (columns_lent self.entry)) }
    {
        Columns {
            bytes: piece(self.bytes, first, len),
            beside: self.beside,
            first: self.first.saturating_add(first),
        }
    }
}

/// Writes bytes as characters, and tells whether all are ASCII.
#[inline(always)]
pub fn put_bytes(characters: &mut [char], bytes: &[u8]) -> bool
    requires { length characters.old ≡ length bytes.now }
    ensures characters { characters.new ≡ bytes.now }
    ensures ascii { result ≡ true → IsAscii bytes.now }
    ensures beyond { result ≡ false → IsAscii bytes.now → ⊥ }
{
    let mut bits = 0u8;
    'bytes: for (i, byte) in bytes.iter().enumerate() {
        characters[i] = *byte as char;
        bits |= *byte;
    }
    bits < 128
}

/// Writes columns as characters.
#[inline(never)]
pub fn put_columns(characters: &mut [char], columns: Columns<'_>)
    requires { length characters.old ≡ length (columns_lent columns) }
    ensures { characters.new ≡ columns_lent columns.entry }
{
    'columns: for i in 0..characters.len() {
        characters[i] = columns.at(i);
    }
}

/// Writes a character as a column. One beyond ASCII stands beside its byte.
#[inline(always)]
pub(crate) fn put_at(bytes: &mut [u8], beside: &mut [char], i: usize, column: char)
    requires bytes { i < length bytes.old }
    requires beside { 128 ≤ column → i < length beside.old }
    ensures len { length bytes.new ≡ length bytes.old }
    ensures room { length beside.new ≡ length beside.old }
    ensures columns { columns_by bytes.new beside.new ≡ set (columns_by bytes.old beside.old) i column }
{
    let code = column as u32;
    if code < 128 {
        bytes[i] = code as u8;
    } else {
        bytes[i] = MARK;
        beside[i] = column;
    }
}

/// Appends a character, for which there is memory.
#[inline(always)]
fn push_within(characters: &mut Vec<char>, character: char)
    requires { length characters.old.items < vec_capacity characters.old }
    ensures items { characters.new.items ≡ characters.old.items ++ character ∷ [] }
    ensures capacity { vec_capacity characters.old ≤ vec_capacity characters.new }
{
    let Ok(()) = characters.push(character) else {
        unreachable!();
    };
}

/// Appends bytes as characters, for which there is memory.
#[inline(never)]
fn push_bytes(characters: &mut Vec<char>, bytes: &[u8])
    requires { length characters.old.items + length bytes.now ≤ vec_capacity characters.old }
    ensures items { characters.new.items ≡ characters.old.items ++ bytes.now }
    ensures capacity { vec_capacity characters.old ≤ vec_capacity characters.new }
{
    'bytes: for byte in bytes {
        push_within(characters, *byte as char);
    }
}

/// Columns one after the other. There is memory for a character beside each byte. What stands there grows only where a column
/// beyond ASCII is put, so columns of ASCII write none of it.
#[derive(Drop)]
pub(crate) struct OwnColumns {
    pub bytes: Vec<u8>,
    pub beside: Vec<char>,
}

impl OwnColumns {
    /// No columns, which take no memory.
    pub(crate) fn new(alloc: Global) -> OwnColumns
        ensures columns { columns_in result ≡ [] }
        ensures room { HasRoom result }
    {
        OwnColumns {
            bytes: Vec::new(alloc),
            beside: Vec::new(alloc),
        }
    }

    /// The columns, lent.
    #[inline(always)]
    pub(crate) fn lent(&self) -> Columns<'_>
        ensures { columns_lent result ≡ columns_in self.now }
    {
        Columns::new(&self.bytes, &self.beside)
    }

    /// Lets what stands beside the bytes reach so far: where nothing stands there, it is the byte itself.
    #[inline(always)]
    pub(crate) fn reach(&mut self, len: usize)
        requires there { len ≤ length self.old.bytes.items }
        requires room { HasRoom self.old }
        ensures bytes { self.new.bytes ≡ self.old.bytes }
        ensures beside { len ≤ length self.new.beside.items }
        ensures columns { columns_in self.new ≡ columns_in self.old }
        ensures room { HasRoom self.new }
    {
        let first = self.beside.len();
        if first < len {
            push_bytes(&mut self.beside, piece(&self.bytes, first, len - first));
        }
    }

    /// Writes a character as a column, at a place.
    #[inline(always)]
    pub(crate) fn put(&mut self, i: usize, column: char)
        requires there { i < length self.old.bytes.items }
        requires room { HasRoom self.old }
        ensures columns { columns_in self.new ≡ set (columns_in self.old) i column }
        ensures len { length self.new.bytes.items ≡ length self.old.bytes.items }
        ensures room { HasRoom self.new }
    {
        if column as u32 >= 128 {
            self.reach(i + 1);
        }
        put_at(&mut self.bytes, &mut self.beside, i, column);
    }
}
