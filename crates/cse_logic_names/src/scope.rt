//! What is known at a place of logic.

ghost use Rattle.std.specs.Prelude.{◌≡◌, ◌<◌, ℕ, List, map, length, nat_eq, slice_get, Option, Some, None, OnOk};
ghost use Rattle.std.specs.Option.{option_map, option_map_or, option_and_then};
ghost use Rattle.std.specs.Str.{bytes_eq};
ghost use Rattle.cse_dict.specs.Keys.{kept_name};
ghost use Rattle.cse_syntax_tree.specs.Tree.{written};
ghost use Rattle.cse_logic_tree.specs.Typed.{dimension};
ghost use Rattle.cse_logic_tree.specs.declared.tree.Variable.{Variable};
ghost use Rattle.cse_logic_names.specs.Scope as spec;
ghost use Rattle.cse_logic_names.specs.Scope.{in_dictionary, is_looped, kind_and_owner, meant, most_of, found, has_case, own_result, is_event_of, within};
ghost use Rattle.cse_logic_names.specs.WellTyped.{whole_set, set_kind, set_meant, dimensions_of, may_call};

use crate::meaning::{Meaning, Routine};
use crate::messages::Messages;
use crate::names::{Globals, Names, Parameters};
use cse_dict::Dictionary;
use cse_logic_tree::{Dimension, Found, Owner, Variable};
use cse_syntax_tree::Lexeme;
use cse_value::shape::ItemKind;
use std::alloc::{AllocError, Global};
use std::marker::Model;

/// What is known of a function that has ended.
#[derive(Drop)]
pub struct Facts {
    /// How many parameters it has.
    pub parameters: usize,
    /// Whether it names a record or an item, or uses a hot deck.
    pub needs_case: bool,
    /// The globals that a call of it may assign.
    pub assigned: Globals,
}

impl Model for Facts {
    ghost Value = { spec.Facts };

    ghost view = { λ f. record { parameters = f.parameters; needs_case = f.needs_case; assigned = f.assigned } };
}

/// What is known at a place of logic.
#[derive(Drop)]
pub struct Scope<'a> {
    /// The dictionary that the logic is written for.
    pub dictionary: &'a Dictionary,
    /// The messages of the message file.
    pub messages: &'a Messages,
    /// The names of all declarations.
    pub declared: Names,
    /// The dimensions of each array, if they are sound.
    pub arrays: Vec<Option<Vec<Dimension<'a>>>>,
    /// Each function that has ended, if it is sound.
    pub functions: Vec<Option<Facts>>,
    /// The parameters of the routine.
    pub parameters: Parameters,
    /// The routine.
    pub routine: Routine,
    /// The loops that are open, from the outermost: the record, where it is a `for`, and the variable.
    pub loops: Vec<(Option<u16>, Variable)>,
}

impl<'a> Model for Scope<'a> {
    ghost Value = { spec.Scope };

    ghost view = { λ s. record {
      dictionary = s.dictionary.now;
      messages = s.messages.now;
      declared = s.declared;
      arrays = map (option_map (λ v. map dimension v.items)) s.arrays.items;
      functions = s.functions.items;
      parameters = s.parameters;
      routine = s.routine;
      loops = s.loops.items;
    } };
}

/// What a name means in the dictionary; it stands here in upper case too.
pub fn in_dictionary(dictionary: &Dictionary, name: &str, kept: &[u8]) -> Option<Meaning>
    requires { kept.now ≡ kept_name name.now }
    ensures { result ≡ in_dictionary dictionary.now name.now }
{
    if let Some(record) = dictionary.find_record(name) {
        return Some(Meaning::Record(record_number(dictionary, record)));
    }
    if let Some(item) = dictionary.find_item(name) {
        return Some(Meaning::Item(item));
    }
    if let Some(set) = dictionary.find_set(name) {
        return Some(Meaning::Set(set));
    }
    if is_same(kept, dictionary.name()) {
        return Some(Meaning::Application);
    }
    if is_same(kept, dictionary.level_name()) {
        return Some(Meaning::Level);
    }
    None
}

/// The number of a record in fewer bits: there are at most 200.
fn record_number(dictionary: &Dictionary, number: u16) -> u8
    requires { number < length dictionary.now.records }
    ensures { result ≡ number }
{
    let _shape = dictionary.shape();
    number as u8
}

fn is_same(kept: &[u8], name: &str) -> bool
    ensures { result ≡ bytes_eq kept.now name.now }
{
    kept == name.as_bytes()
}

/// The kind of an item, and the number of its record, 255 for an id item.
#[tactic(auto, unfolding(crate::specs::Scope::kind_and_owner))]
pub fn kind_and_owner(dictionary: &Dictionary, item: u16) -> Option<(ItemKind, u8)>
    ensures { result ≡ kind_and_owner dictionary.now item }
{
    match dictionary.shape().items.get(item as usize) {
        None => None,
        Some(item) => Some((item.kind, item.owner)),
    }
}

/// The most occurrences of a record.
fn most_of(dictionary: &Dictionary, record_number: u16) -> u16
    ensures { result ≡ most_of dictionary.now record_number }
{
    match dictionary.shape().records.get(record_number as usize) {
        None => 0,
        Some(record) => record.max_records,
    }
}

/// Whether a routine runs with a case: each but the application's procedure.
pub fn has_case(routine: Routine) -> bool
    ensures { result ≡ has_case routine }
{
    match routine {
        Routine::Procedure(owner) => match owner {
            Owner::Application => false,
            Owner::Level => true,
            Owner::Record(_) => true,
            Owner::Item(_) => true,
        },
        Routine::Function(_) => true,
    }
}

/// The variable of the result of a function, in its own body alone.
pub fn own_result(routine: Routine, function: usize) -> Option<Variable>
    ensures { result ≡ own_result routine function }
{
    match routine {
        Routine::Procedure(_) => None,
        Routine::Function(own) => {
            if own == function {
                Some(Variable::Result)
            } else {
                None
            }
        }
    }
}

fn is_event_of(routine: Routine, record_number: u16) -> bool
    ensures { result ≡ is_event_of routine record_number }
{
    match routine {
        Routine::Procedure(owner) => match owner {
            Owner::Application => false,
            Owner::Level => false,
            Owner::Record(_) => false,
            Owner::Item(field) => u16::from(field.owner) == record_number,
        },
        Routine::Function(_) => false,
    }
}

fn is_over(over: Option<u16>, record_number: u16) -> bool
    ensures { result ≡ spec.is_over over record_number }
{
    match over {
        None => false,
        Some(over) => over == record_number,
    }
}

fn is_looped(loops: &[(Option<u16>, Variable)], record_number: u16) -> bool
    ensures { result ≡ is_looped loops.now record_number }
{
    loops.iter().any(|open| is_over(open.0, record_number))
}

impl<'a> Scope<'a> {
    /// What a name means.
    #[tactic(auto, unfolding(crate::specs::Scope::meant))]
    pub fn meant(&self, name: Lexeme<'_>) -> Option<Meaning>
        ensures { result ≡ meant self.now (written name.entry) }
    {
        if name.text.len() > 32 {
            return None;
        }
        let mut kept = [0u8; 32];
        let part = &mut kept[..name.text.len()];
        part.copy_from_slice(name.text.as_bytes());
        part.make_ascii_uppercase();
        self.meant_in(name.text, part)
    }

    fn meant_in(&self, name: &str, kept: &[u8]) -> Option<Meaning>
        requires { kept.now ≡ kept_name name.now }
        ensures { result ≡ spec.meant_in self.now name.now }
    {
        if let Some(place) = self.parameters.find(kept) {
            return Some(Meaning::Variable(Variable::Parameter(place)));
        }
        if let Some(meaning) = self.declared.get(kept) {
            return Some(meaning);
        }
        in_dictionary(self.dictionary, name, kept)
    }

    /// Which occurrence an item of a record means without a subscript.
    #[tactic(auto, unfolding(crate::specs::Scope::found))]
    pub fn found(&self, record_number: u16) -> Option<Found>
        ensures { result ≡ found self.now record_number }
    {
        if is_looped(&self.loops, record_number) {
            return Some(Found::Loop);
        }
        if is_event_of(self.routine, record_number) {
            return Some(Found::Event);
        }
        if most_of(self.dictionary, record_number) == 1 {
            return Some(Found::First);
        }
        None
    }

    /// A loop begins: the record, where it is a `for`, and the variable.
    pub fn begin(&mut self, turns: (Option<u16>, Variable)) -> Result<(), AllocError>
        ensures { OnOk result (self.new ≡ within self.old turns.0 turns.1) }
    {
        self.loops.push(turns)?;
        Ok(())
    }

    /// The innermost loop ends.
    pub fn end(&mut self)
        ensures { (s : spec.Scope) (l : Option ℕ × Variable) → self.old ≡ within s l.0 l.1 → self.new ≡ s }
    {
        self.loops.pop();
    }
}
