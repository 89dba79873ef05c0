//! How often which values were imputed to one item.

ghost use Rattle.std.specs.Prelude.{◌≡◌, ◌<◌, [], Some, OnOk, OnErr, length, slice_get};
ghost use Rattle.std.specs.List.{flat_map};
ghost use Rattle.cse_value.specs.Gathering.{behind, Puts};
ghost use Rattle.cse_report.specs.Frequency.{tallied, total, value_line, item_line, item_lines};
ghost use Rattle.cse_report.specs.Values.{num_of, key_of};

use cse_ordered::keyed::Keyed;
use cse_value::{Gatherer, Num, OutOfMemory, Output, show_num};
use itoa::Buffer;
use std::alloc::Global;
use std::marker::Model;

/// A value, as what is looked up.
#[derive(Clone, Copy, PartialEq, Eq, Hash)]
pub enum Value {
    Whole(i64),
    NotAppl,
    Missing,
    Undef,
}

/// The value as it is looked up.
fn key_of(value: Num) -> Value
    ensures { result ≡ key_of value }
{
    match value {
        Num::Whole(number) => Value::Whole(number),
        Num::NotAppl => Value::NotAppl,
        Num::Missing => Value::Missing,
        Num::Undef => Value::Undef,
    }
}

/// The values imputed to one item, in order of first imputation, and how often each was.
#[derive(Drop)]
pub struct ValueCounts {
    counts: Keyed<Value, u64>,
}

impl Model for ValueCounts {
    ghost use Rattle.cse_report.specs.Values.{table_of};
    ghost use Rattle.cse_report.specs.Frequency.{Table};

    ghost Value = { Table };

    ghost view = { λ s. table_of s.counts };
}

impl ValueCounts {
    /// No value was imputed.
    pub fn new(alloc: Global) -> ValueCounts
        ensures { result ≡ [] }
    {
        ValueCounts {
            counts: Keyed::new(alloc),
        }
    }

    /// A value was imputed once more.
    pub fn tally(&mut self, value: Num) -> Result<(), OutOfMemory>
        ensures ok { OnOk result (self.new ≡ tallied value self.old) }
        ensures err { OnErr result (self.new ≡ self.old) }
    {
        let key = key_of(value);
        match self.counts.place_of(key) {
            Some(place) => {
                let count = self.counts.at(place).1.saturating_add(1);
                self.counts.set(place, count);
            }
            None => self.counts.push(key, 1)?,
        }
        Ok(())
    }
}

impl ValueCounts {
    /// How many different values were imputed.
    pub fn len(&self) -> usize
        ensures { result ≡ length self.now }
    {
        self.counts.len()
    }

    /// A value and its count, in order of first imputation.
    pub fn get(&self, i: usize) -> (Num, u64)
        requires { i < length self.now }
        ensures { slice_get self.now i ≡ Some result }
    {
        let (value, count) = self.counts.at(i);
        (num_of(*value), *count)
    }
}

/// The value that is looked up so.
fn num_of(value: Value) -> Num
    ensures { result ≡ num_of value }
{
    match value {
        Value::Whole(number) => Num::Whole(number),
        Value::NotAppl => Num::NotAppl,
        Value::Missing => Num::Missing,
        Value::Undef => Num::Undef,
    }
}

/// How often values were imputed in all. A total stays at 2^64 - 1.
fn total_of(counts: &ValueCounts) -> u64
    ensures { result ≡ total counts.now }
{
    let mut total = 0u64;
    'values: for i in 0..counts.len() {
        let (_, count) = counts.get(i);
        total = total.saturating_add(count);
    }
    total
}

/// Puts the line of a value.
fn put_value<W: Output>(gatherer: &mut Gatherer, out: &mut W, value: Num, count: u64)
    ensures { Puts (behind W.taken W.has_failed out.old gatherer.old) (behind W.taken W.has_failed out.new gatherer.new) (value_line (value, count)) }
{
    gatherer.put(out, show_num(value).as_str().as_bytes());
    gatherer.put(out, b" ");
    gatherer.put_line(out, Buffer::new().format(count).as_bytes());
}

/// Puts the lines of all values.
fn put_values<W: Output>(gatherer: &mut Gatherer, out: &mut W, counts: &ValueCounts)
    ensures { Puts (behind W.taken W.has_failed out.old gatherer.old) (behind W.taken W.has_failed out.new gatherer.new) (flat_map value_line counts.now) }
{
    'values: for i in 0..counts.len() {
        let (value, count) = counts.get(i);
        put_value(gatherer, out, value, count);
    }
}

/// Puts the line before the values of an item.
fn put_item_line<W: Output>(gatherer: &mut Gatherer, out: &mut W, name: &str, counts: &ValueCounts)
    ensures { Puts (behind W.taken W.has_failed out.old gatherer.old) (behind W.taken W.has_failed out.new gatherer.new) (item_line name.now counts.now) }
{
    gatherer.put(out, b"ITEM ");
    gatherer.put(out, name.as_bytes());
    gatherer.put(out, b" ");
    gatherer.put_line(out, Buffer::new().format(total_of(counts)).as_bytes());
}

/// Puts the lines of an item, if a value was imputed to it.
pub fn put_item<W: Output>(gatherer: &mut Gatherer, out: &mut W, name: &str, counts: &ValueCounts)
    ensures { Puts (behind W.taken W.has_failed out.old gatherer.old) (behind W.taken W.has_failed out.new gatherer.new) (item_lines name.now counts.now) }
{
    if counts.len() == 0 {
        return;
    }
    put_item_line(gatherer, out, name, counts);
    put_values(gatherer, out, counts);
}
