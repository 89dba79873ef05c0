//! A dictionary, and which numbers are no codes of its items.

ghost use Rattle.std.specs.Prelude.{◌≡◌, ◌≤◌};
ghost use Rattle.cse_case.specs.Limits.{AreKept, IsKept};

use cse_dict::Dictionary;
use std::marker::Model;

/// A dictionary with two limits: no number below the first is the code of an item of one column, and none
/// below the second that of an item of two or three. So the code of an item is looked up for few numbers.
#[derive(Drop)]
pub struct Items<'a> {
    dictionary: &'a Dictionary,
    digit_limit: u32,
    limit: u32,
}

impl<'a> Model for Items<'a> {
    ghost use Rattle.cse_dict.specs.Dictionary.{DictionaryText};
    ghost use Rattle.cse_case.specs.Limits.{AreLimits};

    ghost Value = { DictionaryText };

    ghost view = { λ i. i.dictionary.now };

    ghost invariant = { λ i. AreLimits i.dictionary.now i.digit_limit i.limit };
}

/// The limit, or the code, where that is lower.
fn limit_by(limit: u32, code: Option<i64>) -> u32
    ensures low { result ≤ limit }
    ensures kept { IsKept result code }
{
    match code {
        Some(code) if 0 <= code && code < i64::from(limit) => code as u32,
        _ => limit,
    }
}

/// A limit for the items of so many columns, this one at most.
fn limit_of(dictionary: &Dictionary, len: u16, most: u32) -> u32
    ensures low { result ≤ most }
    ensures kept { AreKept dictionary.now len result }
{
    let items = &dictionary.shape().items;
    let mut limit = most;
    'items: for i in 0..items.len() {
        if items[i].len == len {
            limit = limit_by(limit, dictionary.code(i as u16));
        }
    }
    limit
}

impl<'a> Items<'a> {
    /// The items of a dictionary, which are gone through.
    #[inline(never)]
    pub fn new(dictionary: &'a Dictionary) -> Items<'a>
        ensures { result ≡ dictionary.now }
    {
        let digit_limit = limit_of(dictionary, 1, 10);
        let limit = limit_of(dictionary, 2, 1000);
        Items {
            dictionary,
            digit_limit,
            limit: limit_of(dictionary, 3, limit),
        }
    }

    /// The same once more.
    #[inline(always)]
    pub fn again(&self) -> Items<'a>
        ensures { result ≡ self.now }
    {
        Items {
            dictionary: self.dictionary,
            digit_limit: self.digit_limit,
            limit: self.limit,
        }
    }

    /// The dictionary.
    #[inline(always)]
    pub fn dictionary(&self) -> &'a Dictionary
        ensures { result.now ≡ self.now }
    {
        self.dictionary
    }

    /// The limit for items of one column.
    #[inline(always)]
    pub fn digit_limit(&self) -> u32
        ensures low { result ≤ 10 }
        ensures kept { AreKept self.now 1 result }
    {
        self.digit_limit
    }

    /// The limit for items of two or three columns.
    #[inline(always)]
    pub fn limit(&self) -> u32
        ensures two { AreKept self.now 2 result }
        ensures three { AreKept self.now 3 result }
    {
        self.limit
    }
}
