//! The constants, the loop limits and the texts of a program, each once.

ghost use Rattle.std.specs.Prelude.{◌≡◌, ◌≤◌, ◌<◌, [], map, length, slice_get, nat_eq, Some, FitsSigned, IfOk, IfErr, OnOk, OnErr};
ghost use Rattle.std.specs.Ordering.{int_eq};
ghost use Rattle.std.specs.Str.{bytes_eq};
ghost use Rattle.indexmap.specs.IndexSet.{insert_key};
ghost use Rattle.cse_image_parts.specs.Limits.{most_constants, most_limits, most_texts};
ghost use Rattle.std.specs.Int.{w64};
ghost use Rattle.cse_image_parts.specs.Spelling.{SectionFits};
ghost use Rattle.cse_image.specs.Spelling.{LimitFits, TextFits};
ghost use Rattle.cse_compile.specs.Pools.{PoolLists, PoolsFit, no_pools, with_constant, with_limit, with_text};
ghost use Rattle.cse_compile.specs.declared.pools.PoolError.TheVariants.{Full};

use cse_image_parts::limits::{MOST_CONSTANTS, MOST_LIMITS, MOST_TEXTS};
use indexmap::IndexSet;
use std::alloc::Global;
use std::marker::Model;

/// Why an entry is not in its table.
#[derive(Clone, Copy)]
pub enum PoolError {
    /// The table would have more entries with it than an image may have.
    Full,
    Memory,
}

/// The tables.
pub struct Pools<'a> {
    constants: IndexSet<i64>,
    limits: IndexSet<u32>,
    texts: IndexSet<&'a str>,
}

impl Drop for Pools<'_> {
    fn drop(self) {
        let Pools {
            constants: _constants,
            limits: _limits,
            texts: _texts,
        } = self;
    }
}

impl<'a> Model for Pools<'a> {
    ghost Value = { PoolLists };

    ghost view = { λ p. record { constants = p.constants.keys; limits = p.limits.keys; texts = map (λ t. t.now) p.texts.keys } };

    ghost invariant = { λ p. PoolsFit (record { constants = p.constants.keys; limits = p.limits.keys; texts = map (λ t. t.now) p.texts.keys }) };
}

impl<'a> Pools<'a> {
    /// No entries.
    pub fn new(alloc: Global) -> Pools<'a>
        ensures { result ≡ no_pools }
    {
        Pools {
            constants: IndexSet::new(alloc),
            limits: IndexSet::new(alloc),
            texts: IndexSet::new(alloc),
        }
    }

    /// The place of a constant, which is added where it isn't there. An error changes nothing.
    pub fn constant(&mut self, value: i64) -> Result<u32, PoolError>
        ensures at { IfOk result (λ c. slice_get self.new.constants c ≡ Some value) }
        ensures added { OnOk result (self.new ≡ with_constant self.old value) }
        ensures err { OnErr result (self.new ≡ self.old) }
        ensures full { IfErr result (λ e. e ≡ Full → most_constants < length (with_constant self.old value).constants) }
    {
        constant_place(&mut self.constants, value)
    }

    /// The place of a loop's limit, which is added where it isn't there. An error changes nothing.
    pub fn limit(&mut self, value: u32) -> Result<u16, PoolError>
        requires { 0 < value }
        ensures at { IfOk result (λ c. slice_get self.new.limits c ≡ Some value) }
        ensures added { OnOk result (self.new ≡ with_limit self.old value) }
        ensures err { OnErr result (self.new ≡ self.old) }
        ensures full { IfErr result (λ e. e ≡ Full → most_limits < length (with_limit self.old value).limits) }
    {
        limit_place(&mut self.limits, value)
    }

    /// The place of a text, which is added where it isn't there. An error changes nothing.
    pub fn text(&mut self, value: &'a str) -> Result<u32, PoolError>
        requires { TextFits value.now }
        ensures at { IfOk result (λ c. slice_get self.new.texts c ≡ Some value.now) }
        ensures added { OnOk result (self.new ≡ with_text self.old value.now) }
        ensures err { OnErr result (self.new ≡ self.old) }
        ensures full { IfErr result (λ e. e ≡ Full → most_texts < length (with_text self.old value.now).texts) }
    {
        text_place(&mut self.texts, value)
    }

    /// The constants, by their places.
    pub fn constants(&self) -> &[i64]
        ensures value { result.now ≡ self.now.constants }
        ensures fit { PoolsFit self.now }
    {
        self.constants.as_slice()
    }

    /// The limits of counting loops, by their places.
    pub fn limits(&self) -> &[u32]
        ensures value { result.now ≡ self.now.limits }
        ensures fit { PoolsFit self.now }
    {
        self.limits.as_slice()
    }

    /// The texts, by their places.
    pub fn texts(&self) -> &[&'a str]
        ensures value { map (λ t. t.now) result.now ≡ self.now.texts }
        ensures fit { PoolsFit self.now }
    {
        self.texts.as_slice()
    }
}

/// The place of a constant, which is added where it isn't there.
fn constant_place(table: &mut IndexSet<i64>, value: i64) -> Result<u32, PoolError>
    requires fit { SectionFits most_constants (λ _. FitsSigned w64) table.old.keys }
    ensures at { IfOk result (λ c. slice_get table.new.keys c ≡ Some value) }
    ensures keys { OnOk result (table.new.keys ≡ insert_key int_eq table.old.keys value) }
    ensures err { OnErr result (table.new.keys ≡ table.old.keys) }
    ensures full { IfErr result (λ e. e ≡ Full → most_constants < length (insert_key int_eq table.old.keys value)) }
    ensures small { IfOk result (λ c. c < most_constants) }
    ensures fit { SectionFits most_constants (λ _. FitsSigned w64) table.new.keys }
{
    if table.len() >= MOST_CONSTANTS && !table.contains(&value) {
        return Err(PoolError::Full);
    }
    match table.insert_full(value) {
        Ok((at, _)) => Ok(at as u32),
        Err(_) => Err(PoolError::Memory),
    }
}

/// The place of a limit, which is added where it isn't there.
fn limit_place(table: &mut IndexSet<u32>, value: u32) -> Result<u16, PoolError>
    requires fit { SectionFits most_limits (λ _. LimitFits) table.old.keys }
    requires entry { 0 < value }
    ensures at { IfOk result (λ c. slice_get table.new.keys c ≡ Some value) }
    ensures keys { OnOk result (table.new.keys ≡ insert_key nat_eq table.old.keys value) }
    ensures err { OnErr result (table.new.keys ≡ table.old.keys) }
    ensures full { IfErr result (λ e. e ≡ Full → most_limits < length (insert_key nat_eq table.old.keys value)) }
    ensures small { IfOk result (λ c. c < most_limits) }
    ensures fit { SectionFits most_limits (λ _. LimitFits) table.new.keys }
{
    if table.len() >= MOST_LIMITS && !table.contains(&value) {
        return Err(PoolError::Full);
    }
    match table.insert_full(value) {
        Ok((at, _)) => Ok(at as u16),
        Err(_) => Err(PoolError::Memory),
    }
}

/// The place of a text, which is added where it isn't there.
fn text_place<'a>(table: &mut IndexSet<&'a str>, value: &'a str) -> Result<u32, PoolError>
    requires fit { SectionFits most_texts (λ _. TextFits) (map (λ t. t.now) table.old.keys) }
    requires entry { TextFits value.now }
    ensures at { IfOk result (λ c. slice_get (map (λ t. t.now) table.new.keys) c ≡ Some value.now) }
    ensures keys { OnOk result (map (λ t. t.now) table.new.keys ≡ insert_key bytes_eq (map (λ t. t.now) table.old.keys) value.now) }
    ensures err { OnErr result (table.new.keys ≡ table.old.keys) }
    ensures full { IfErr result (λ e. e ≡ Full → most_texts < length (insert_key bytes_eq (map (λ t. t.now) table.old.keys) value.now)) }
    ensures small { IfOk result (λ c. c < most_texts) }
    ensures fit { SectionFits most_texts (λ _. TextFits) (map (λ t. t.now) table.new.keys) }
{
    if table.len() >= MOST_TEXTS && !table.contains(&value) {
        return Err(PoolError::Full);
    }
    match table.insert_full(value) {
        Ok((at, _)) => Ok(at as u32),
        Err(_) => Err(PoolError::Memory),
    }
}
