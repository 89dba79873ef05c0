//! What procedures belong to, by their names.

ghost use Rattle.std.specs.Prelude.{◌≡◌, ◌==◌, Some, None, IfOk};
ghost use Rattle.cse_logic_names.specs.Scope as scopes;
ghost use Rattle.cse_logic_names.specs.WellTyped as well;

use cse_dict::Dictionary;
use cse_logic_names::meaning::Meaning;
use cse_logic_names::names::kept;
use cse_logic_names::scope::{in_dictionary, kind_and_owner};
use cse_logic_tree::{Field, Owner};
use cse_syntax_tree::Lexeme;
use cse_value::shape::ItemKind;
use std::alloc::{AllocError, Global};

/// What a procedure of an item of a record belongs to.
fn in_record(item: u16, owner: u8) -> Option<Owner>
    ensures { result ≡ well.owner_in item owner }
{
    if owner == 255 {
        None
    } else {
        Some(Owner::Item(Field { owner, item }))
    }
}

/// What the procedure of an item belongs to.
fn item_owner(dictionary: &Dictionary, item: u16) -> Option<Owner>
    ensures { result ≡ well.item_owner item (scopes.kind_and_owner dictionary.now item) }
{
    match kind_and_owner(dictionary, item) {
        None => None,
        Some((kind, owner)) => match kind {
            ItemKind::Opaque => None,
            ItemKind::Number => in_record(item, owner),
            ItemKind::Text => in_record(item, owner),
        },
    }
}

/// What a procedure of a name belongs to.
pub fn owner_meant(dictionary: &Dictionary, meaning: Option<Meaning>) -> Option<Owner>
    ensures { result ≡ well.owner_meant dictionary.now meaning }
{
    match meaning {
        Some(Meaning::Application) => Some(Owner::Application),
        Some(Meaning::Level) => Some(Owner::Level),
        Some(Meaning::Record(record)) => Some(Owner::Record(record)),
        Some(Meaning::Item(item)) => item_owner(dictionary, item),
        _ => None,
    }
}

/// What a name means in the dictionary.
#[tactic(auto, using(crate::proofs::FreshLaws::kept_there))]
pub fn meant_by(
    alloc: Global,
    dictionary: &Dictionary,
    name: Lexeme<'_>,
) -> Result<Option<Meaning>, AllocError>
    ensures { IfOk result (λ r. r ≡ scopes.in_dictionary dictionary.now name.entry.text.now) }
{
    let kept = kept(alloc, name.text)?;
    Ok(in_dictionary(dictionary, name.text, &kept))
}

/// What a procedure belongs to, by its name.
pub fn owner_named(
    alloc: Global,
    dictionary: &Dictionary,
    name: Lexeme<'_>,
) -> Result<Option<Owner>, AllocError>
    ensures { IfOk result (λ r. r ≡ well.owner_meant dictionary.now (scopes.in_dictionary dictionary.now name.entry.text.now)) }
{
    let meaning = meant_by(alloc, dictionary, name)?;
    Ok(owner_meant(dictionary, meaning))
}
