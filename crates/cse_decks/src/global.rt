//! The value of a global.

ghost use Rattle.std.specs.Prelude.{◌≡◌, ◌≤◌, IfOk, Some, IsSome, length, slice_get, slice_set, option_and_then, is_some};
ghost use Rattle.std.specs.List.{slice_index_or};
ghost use Rattle.cse_value.specs.Field.{put_text as text_put};
ghost use Rattle.cse_decks.specs.Store.{number_in, text_in, rewritten};

use cse_value::{Num, Text, put_text, read_text};
use std::alloc::{AllocError, Global};
use std::marker::Model;

/// A text in memory of its own, so that a global that is a number takes 16 bytes and not a text's kilobyte.
/// Callers see the text.
#[derive(Drop)]
pub struct KeptText {
    text: Box<Text>,
}

impl Model for KeptText {
    ghost use Rattle.std.specs.Prelude.{ℕ};
    ghost use Rattle.arrayvec.specs.ArrayVec.{ArrayVec};

    ghost Value = { ArrayVec ℕ };

    ghost view = { λ kept. kept.text.value };
}

impl KeptText {
    pub(crate) fn new(alloc: Global, text: Text) -> Result<KeptText, AllocError>
        ensures { IfOk result (λ kept. kept ≡ text) }
    {
        Ok(KeptText {
            text: Box::new(alloc, text)?,
        })
    }

    fn text(&self) -> &Text
        ensures { result.now ≡ self.now }
    {
        &self.text
    }

    fn put(&mut self, text: Text)
        ensures { self.new ≡ text }
    {
        *self.text = text;
    }
}

/// The value of a global: a number, or a text of its declared length.
#[derive(Drop)]
pub enum GlobalValue {
    Number(Num),
    Words(KeptText),
}

/// Whether there is such a global and it is a number.
pub fn is_number(globals: &[GlobalValue], g: usize) -> bool
    ensures { result ≡ is_some (option_and_then number_in (slice_get globals.now g)) }
{
    match globals.get(g) {
        Some(GlobalValue::Number(_)) => true,
        _ => false,
    }
}

/// Whether there is such a global and it is a text.
pub fn is_text(globals: &[GlobalValue], g: usize) -> bool
    ensures { result ≡ is_some (option_and_then text_in (slice_get globals.now g)) }
{
    match globals.get(g) {
        Some(GlobalValue::Words(_)) => true,
        _ => false,
    }
}

/// The number of a global.
pub fn number_of(globals: &[GlobalValue], g: usize) -> Num
    requires { IsSome (option_and_then number_in (slice_get globals.now g)) }
    ensures { option_and_then number_in (slice_get globals.now g) ≡ Some result }
{
    match &globals[g] {
        GlobalValue::Number(x) => *x,
        GlobalValue::Words(_) => unreachable!(),
    }
}

/// The text of a global.
pub fn text_of(globals: &[GlobalValue], g: usize) -> &Text
    requires { IsSome (option_and_then text_in (slice_get globals.now g)) }
    ensures { option_and_then text_in (slice_get globals.now g) ≡ Some result.now.items }
{
    match &globals[g] {
        GlobalValue::Words(kept) => kept.text(),
        GlobalValue::Number(_) => unreachable!(),
    }
}

/// Puts a number into a global of numbers.
pub fn put_number(globals: &mut Vec<GlobalValue>, g: usize, value: Num)
    requires { IsSome (option_and_then number_in (slice_get globals.old.items g)) }
    ensures { globals.new.items ≡ slice_set globals.old.items g (GlobalValue.Number value) }
{
    match &mut globals[g] {
        GlobalValue::Number(kept) => *kept = value,
        GlobalValue::Words(_) => unreachable!(),
    }
}

/// Puts a text into a global of texts.
pub fn put_words(globals: &mut Vec<GlobalValue>, g: usize, text: &Text)
    requires { IsSome (option_and_then text_in (slice_get globals.old.items g)) }
    ensures { (d : GlobalValue) → globals.new.items ≡ slice_set globals.old.items g (rewritten text.now.items (slice_index_or globals.old.items g d)) }
{
    let words = rewritten_text(text_of(globals, g), text);
    if let GlobalValue::Words(kept) = &mut globals[g] {
        kept.put(words);
    }
}

/// The text, cut or padded to the length of the one before.
fn rewritten_text(before: &Text, text: &Text) -> Text
    ensures { result.items ≡ text_put (length before.now.items) text.now.items }
{
    let mut columns = [' '; 255];
    let length = before.len();
    put_text(&mut columns[..length], text);
    read_text(&columns[..length])
}
