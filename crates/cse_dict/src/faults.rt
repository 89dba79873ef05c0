//! The rules that several kinds of section share: names, numbers, record types.
ghost use Rattle.std.specs.Prelude.{◌≡◌, OnOk};
ghost use Rattle.std.specs.Option.{option_copied};
ghost use Rattle.cse_dict.specs.Faults.{columns_faults, field_faults, form_faults, lacking, name_faults, names_after, note_all, number_faults, optional_faults, twice_faults, type_faults, types_after};
ghost use Rattle.cse_dict.specs.Keys.{entry_of};

use crate::fault::{DictError, note_if};
use crate::keys::{entry_of, is_name};
use crate::names::{Names, Types};
use crate::record_type::{is_too_long, type_of};
use cse_fault_numbers::{KEY_LACKS, NAME_TWICE, NUMBER_UNREADABLE, RECORD_TYPE_TWICE, TOO_MANY};
use cse_sections::number::number_between;
use cse_sections::sections::{Entry, Section};
use std::alloc::{AllocError, Global};

/// The entry at a key, a fault where there is none.
fn needed<'s, 'a>(
    section: &'s Section<'a>,
    key: &[u8],
    found: &mut Option<DictError>,
) -> Option<&'s Entry<'a>>
    ensures entry { option_copied result ≡ entry_of key.now section.now }
    ensures found { found.new ≡ note_all found.old (lacking section.now (entry_of key.now section.now)) }
{
    let entry = entry_of(section, key);
    note_if(found, entry.is_none(), section.line, KEY_LACKS);
    entry
}

/// A number that must stand at its key.
#[tactic(auto, unfolding(crate::specs::Faults::number_faults))]
pub fn check_number(
    section: &Section<'_>,
    key: &[u8],
    low: u32,
    high: u32,
    found: &mut Option<DictError>,
)
    ensures { found.new ≡ note_all found.old (number_faults section.now key.now low high) }
{
    let Some(entry) = needed(section, key, found) else {
        return;
    };
    let number = number_between(low, high, entry.value);
    note_if(found, number.is_none(), entry.line, NUMBER_UNREADABLE);
}

/// A number that may stand at its key.
#[tactic(auto, unfolding(crate::specs::Faults::optional_faults))]
pub fn check_optional(
    section: &Section<'_>,
    key: &[u8],
    low: u32,
    high: u32,
    found: &mut Option<DictError>,
)
    ensures { found.new ≡ note_all found.old (optional_faults section.now key.now low high) }
{
    let Some(entry) = entry_of(section, key) else {
        return;
    };
    let number = number_between(low, high, entry.value);
    note_if(found, number.is_none(), entry.line, NUMBER_UNREADABLE);
}

/// The columns of an item.
#[tactic(auto, unfolding(crate::specs::Faults::columns_faults))]
fn check_columns(section: &Section<'_>, found: &mut Option<DictError>)
    ensures { found.new ≡ note_all found.old (columns_faults section.now) }
{
    check_number(section, b"Start", 1, 65535, found);
    check_number(section, b"Len", 1, 65535, found);
}

/// The occurrences and decimals of an item.
fn check_form(section: &Section<'_>, found: &mut Option<DictError>)
    ensures { found.new ≡ note_all found.old (form_faults section.now) }
{
    check_optional(section, b"Occurrences", 1, 65535, found);
    check_optional(section, b"Decimal", 0, 255, found);
}

/// The numbers of an item.
#[tactic(auto, unfolding(crate::specs::Faults::field_faults))]
pub fn check_field(section: &Section<'_>, found: &mut Option<DictError>)
    ensures { found.new ≡ note_all found.old (field_faults section.now) }
{
    check_columns(section, found);
    check_form(section, found);
}

/// Takes the name of a section.
#[tactic(auto, unfolding(crate::specs::Faults::name_faults, crate::specs::Faults::names_after))]
pub fn check_name(
    alloc: Global,
    section: &Section<'_>,
    names: &mut Names,
    found: &mut Option<DictError>,
) -> Result<(), AllocError>
    ensures found { OnOk result (found.new ≡ note_all found.old (name_faults names.old section.now)) }
    ensures names { OnOk result (names.new ≡ names_after names.old section.now) }
{
    let Some(entry) = needed(section, b"Name", found) else {
        return Ok(());
    };
    note_if(found, !is_name(entry.value), entry.line, TOO_MANY);
    let is_new = names.add(entry.value.to_ascii_uppercase(alloc)?)?;
    note_if(found, !is_new, section.line, NAME_TWICE);
    Ok(())
}

/// The type of a record lacks or is too long.
#[tactic(auto, unfolding(crate::specs::Faults::type_faults))]
pub fn check_type(
    alloc: Global,
    len: Option<u32>,
    section: &Section<'_>,
    found: &mut Option<DictError>,
) -> Result<(), AllocError>
    ensures { OnOk result (found.new ≡ note_all found.old (type_faults len section.now)) }
{
    let Some(len) = len else {
        return Ok(());
    };
    let Some(entry) = entry_of(section, b"RecordTypeValue") else {
        note_if(found, 0 < len, section.line, KEY_LACKS);
        return Ok(());
    };
    let is_too_long = is_too_long(alloc, len, entry.value)?;
    note_if(found, is_too_long, entry.line, NUMBER_UNREADABLE);
    Ok(())
}

/// Takes the type of a record.
#[tactic(auto, unfolding(crate::specs::Faults::twice_faults, crate::specs::Faults::types_after))]
pub fn check_twice(
    alloc: Global,
    len: Option<u32>,
    section: &Section<'_>,
    types: &mut Types,
    found: &mut Option<DictError>,
) -> Result<(), AllocError>
    ensures found { OnOk result (found.new ≡ note_all found.old (twice_faults types.old len section.now)) }
    ensures types { OnOk result (types.new ≡ types_after types.old len section.now) }
{
    let Some(record_type) = type_of(alloc, len, section)? else {
        return Ok(());
    };
    let is_new = types.add(record_type)?;
    note_if(found, !is_new, section.line, RECORD_TYPE_TWICE);
    Ok(())
}
