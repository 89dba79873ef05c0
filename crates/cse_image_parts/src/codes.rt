//! The codes of one byte: a number from 0 for each kind, flag, gift and so on (own).

ghost use Rattle.std.specs.Prelude.{◌≡◌};
ghost use Rattle.cse_image_parts.specs.Versions.{version_code, version_of};
ghost use Rattle.cse_image_parts.specs.Codes.{HasOneCode, flag_code, flag_of, item_kind_code, item_kind_of, global_kind_code, global_kind_of, local_kind_code, local_kind_of, ambient_code, ambient_of, gift_code, gift_of, event_code, event_code_of};

use crate::entries::{Ambient, EventCode, Gift, GlobalKind, LocalKind};
use crate::version::Version;
use cse_value::shape::ItemKind;

/// The flag of a code: 0 for no, 1 for yes.
pub fn flag_named(code: u8) -> Option<bool>
    ensures { result ≡ flag_of code }
{
    match code {
        0 => Some(false),
        1 => Some(true),
        _ => None,
    }
}

/// The code of a flag: 0 for no, 1 for yes.
pub fn flag_number(flag: bool) -> u8
    ensures { result ≡ flag_code flag }
{
    flag as u8
}

/// The kind of item of a code: 0 for one that no logic names, 1 for a number, 2 for a text.
pub fn item_kind_named(code: u8) -> Option<ItemKind>
    ensures { result ≡ item_kind_of code }
{
    match code {
        0 => Some(ItemKind::Opaque),
        1 => Some(ItemKind::Number),
        2 => Some(ItemKind::Text),
        _ => None,
    }
}

/// The code of a kind of item.
pub fn item_kind_number(kind: ItemKind) -> u8
    ensures { result ≡ item_kind_code kind }
{
    kind as u8
}

/// The kind of global of a code: 1 for a number, 2 for a text.
pub fn global_kind_named(code: u8) -> Option<GlobalKind>
    ensures { result ≡ global_kind_of code }
{
    match code {
        1 => Some(GlobalKind::Number),
        2 => Some(GlobalKind::Text),
        _ => None,
    }
}

/// The code of a kind of global.
pub fn global_kind_number(kind: GlobalKind) -> u8
    ensures { result ≡ global_kind_code kind }
{
    kind as u8
}

/// The kind of local of a code: 1 for a number, 2 for a text, 3 for an occurrence.
pub fn local_kind_named(code: u8) -> Option<LocalKind>
    ensures { result ≡ local_kind_of code }
{
    match code {
        1 => Some(LocalKind::Number),
        2 => Some(LocalKind::Text),
        3 => Some(LocalKind::Occurrence),
        _ => None,
    }
}

/// The code of a kind of local.
pub fn local_kind_number(kind: LocalKind) -> u8
    ensures { result ≡ local_kind_code kind }
{
    kind as u8
}

/// What a routine may speak of, by its code: 0 for the run alone, 1 for a case too.
pub fn ambient_named(code: u8) -> Option<Ambient>
    ensures { result ≡ ambient_of code }
{
    match code {
        0 => Some(Ambient::Run),
        1 => Some(Ambient::Case),
        _ => None,
    }
}

/// The code of what a routine may speak of.
pub fn ambient_number(ambient: Ambient) -> u8
    ensures { result ≡ ambient_code ambient }
{
    ambient as u8
}

/// What a routine gives, by its code: 0 for nothing, 1 for a number, 2 for a text.
pub fn gift_named(code: u8) -> Option<Gift>
    ensures { result ≡ gift_of code }
{
    match code {
        0 => Some(Gift::Nothing),
        1 => Some(Gift::Number),
        2 => Some(Gift::Text),
        _ => None,
    }
}

/// The code of what a routine gives.
pub fn gift_number(gift: Gift) -> u8
    ensures { result ≡ gift_code gift }
{
    gift as u8
}

/// The event of a code from 0 to 7: of the application, the level, a record, an item, each with its preproc before its
/// postproc.
pub fn event_code_named(code: u8) -> Option<EventCode>
    ensures { result ≡ event_code_of code }
{
    match code {
        0 => Some(EventCode::ApplicationPreproc),
        1 => Some(EventCode::ApplicationPostproc),
        2 => Some(EventCode::LevelPreproc),
        3 => Some(EventCode::LevelPostproc),
        4 => Some(EventCode::RecordPreproc),
        5 => Some(EventCode::RecordPostproc),
        6 => Some(EventCode::ItemPreproc),
        7 => Some(EventCode::ItemPostproc),
        _ => None,
    }
}

/// The code of an event.
pub fn event_code_number(code: EventCode) -> u8
    ensures { result ≡ event_code code }
{
    code as u8
}

/// Law: a value is the one that its code stands for, and no other number stands for it.
#[tactic(auto, using(crate::proofs::CodeLaws::flag_code_is_one, crate::proofs::CodeLaws::item_kind_code_is_one, crate::proofs::CodeLaws::global_kind_code_is_one, crate::proofs::CodeLaws::local_kind_code_is_one, crate::proofs::CodeLaws::ambient_code_is_one, crate::proofs::CodeLaws::gift_code_is_one, crate::proofs::CodeLaws::event_code_is_one, crate::proofs::CodeLaws::version_code_is_one))]
pub fn each_value_has_one_code(
    flag: bool,
    item: ItemKind,
    global: GlobalKind,
    local: LocalKind,
    ambient: Ambient,
    gift: Gift,
    event: EventCode,
    version: Version,
)
    ensures flags { HasOneCode flag_code flag_of flag }
    ensures items { HasOneCode item_kind_code item_kind_of item }
    ensures globals { HasOneCode global_kind_code global_kind_of global }
    ensures locals { HasOneCode local_kind_code local_kind_of local }
    ensures ambients { HasOneCode ambient_code ambient_of ambient }
    ensures gifts { HasOneCode gift_code gift_of gift }
    ensures events { HasOneCode event_code event_code_of event }
    ensures versions { HasOneCode version_code version_of version }
{}
