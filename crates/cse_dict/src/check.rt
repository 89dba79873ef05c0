//! The faults of each kind of section.
ghost use Rattle.std.specs.Prelude.{◌≡◌, ◌<◌, ◌≤◌, OnOk, IfSome, fold};
ghost use Rattle.cse_dict.specs.Fields.{is_bad_code};
ghost use Rattle.cse_dict.specs.Faults.{code_faults, ends_past, faults_at, filled_after, has_bad_code, is_homeless, is_too_far, item_faults, item_head_faults, item_limit_faults, item_place_faults, name_faults, names_after, note_all, record_faults, record_head_faults, record_number_faults, seen_after, set_faults, set_head_faults, types_after, value_faults, value_faults_at};

use crate::context::{Context, Owner, context_after, is_ids, is_in_record};
use crate::fault::{DictError, note_if};
use crate::faults::{
    check_field, check_name, check_number, check_optional, check_twice, check_type,
};
use crate::field::{Columns, Field, columns_of, field_of, is_number, item_kind};
use crate::keys::{DataType, Kind, entry_of, kind_of};
use crate::names::Names;
use crate::pairs::{is_value, pairs_after};
use crate::seen::{Filled, Seen};
use cse_fault_numbers::{ITEM_PAST_RECORD, KEY_LACKS, NUMBER_UNREADABLE, TOO_MANY};
use cse_sections::number::{fits_columns, whole_of};
use cse_sections::sections::{Entry, Section};
use std::alloc::{AllocError, Global};

/// The numbers of a record.
#[tactic(auto, unfolding(crate::specs::Faults::record_number_faults))]
fn check_record_numbers(section: &Section<'_>, found: &mut Option<DictError>)
    ensures { found.new ≡ note_all found.old (record_number_faults section.now) }
{
    check_number(section, b"RecordLen", 1, 65535, found);
    check_optional(section, b"MaxRecords", 1, 9999, found);
}

/// The limit, the name and the numbers of a record.
#[tactic(auto, unfolding(crate::specs::Faults::record_head_faults))]
fn check_record_head(
    alloc: Global,
    section: &Section<'_>,
    seen: &mut Seen,
    found: &mut Option<DictError>,
) -> Result<(), AllocError>
    ensures found { OnOk result (found.new ≡ note_all found.old (record_head_faults seen.old section.now)) }
    ensures seen { OnOk result (seen.new ≡ record seen.old { names = names_after seen.old.names section.now }) }
{
    note_if(found, seen.context.records >= 200, section.line, TOO_MANY);
    check_name(alloc, section, &mut seen.names, found)?;
    check_record_numbers(section, found);
    Ok(())
}

/// A record.
#[tactic(auto, unfolding(crate::specs::Faults::record_faults))]
fn check_record(
    alloc: Global,
    len: Option<u32>,
    section: &Section<'_>,
    seen: &mut Seen,
    found: &mut Option<DictError>,
) -> Result<(), AllocError>
    ensures found { OnOk result (found.new ≡ note_all found.old (record_faults len seen.old section.now)) }
    ensures seen { OnOk result (seen.new
        ≡ record seen.old { names = names_after seen.old.names section.now; types = types_after seen.old.types len section.now }) }
{
    check_record_head(alloc, section, seen, found)?;
    check_type(alloc, len, section, found)?;
    check_twice(alloc, len, section, &mut seen.types, found)?;
    Ok(())
}

/// The limits on items.
#[tactic(auto, unfolding(crate::specs::Faults::item_limit_faults))]
fn check_item_limits(context: Context, section: &Section<'_>, found: &mut Option<DictError>)
    ensures { found.new ≡ note_all found.old (item_limit_faults context section.now) }
{
    note_if(found, context.items >= 10000, section.line, TOO_MANY);
    note_if(
        found,
        is_ids(context.owner) && context.ids >= 50,
        section.line,
        TOO_MANY,
    );
}

/// The limits, the name and the numbers of an item.
#[tactic(auto, unfolding(crate::specs::Faults::item_head_faults))]
fn check_item_head(
    alloc: Global,
    section: &Section<'_>,
    seen: &mut Seen,
    found: &mut Option<DictError>,
) -> Result<(), AllocError>
    ensures found { OnOk result (found.new ≡ note_all found.old (item_head_faults seen.old section.now)) }
    ensures seen { OnOk result (seen.new ≡ record seen.old { names = names_after seen.old.names section.now }) }
{
    check_item_limits(seen.context, section, found);
    check_name(alloc, section, &mut seen.names, found)?;
    check_field(section, found);
    Ok(())
}

/// Whether items here belong to nothing.
fn is_homeless(owner: Owner) -> bool
    ensures { result ≡ is_homeless owner }
{
    match owner {
        Owner::Nobody => true,
        Owner::Ids | Owner::OfRecord(_) => false,
    }
}

/// Whether columns end past a record.
fn ends_past(room: Option<u32>, columns: Option<Columns>) -> bool
    ensures { result ≡ ends_past room columns }
{
    match (room, columns) {
        (Some(room), Some(columns)) => {
            u64::from(room) < (u64::from(columns.start) + u64::from(columns.len)).saturating_sub(1)
        }
        _ => false,
    }
}

/// Whether an item ends past its record.
#[tactic(auto, unfolding(crate::specs::Faults::is_too_far))]
fn is_too_far(owner: Owner, columns: Option<Columns>) -> bool
    ensures { result ≡ is_too_far owner columns }
{
    match owner {
        Owner::Nobody | Owner::Ids => false,
        Owner::OfRecord(room) => ends_past(room, columns),
    }
}

/// Where an item stands.
#[tactic(auto, unfolding(crate::specs::Faults::item_place_faults))]
fn check_item_place(owner: Owner, section: &Section<'_>, found: &mut Option<DictError>)
    ensures { found.new ≡ note_all found.old (item_place_faults owner section.now) }
{
    note_if(found, is_homeless(owner), section.line, KEY_LACKS);
    let columns = columns_of(section);
    note_if(
        found,
        is_too_far(owner, columns),
        section.line,
        ITEM_PAST_RECORD,
    );
}

/// Whether a code isn't readable or is too long for its item.
fn is_bad_code(len: u32, code: Option<i64>) -> bool
    ensures { result ≡ is_bad_code len code }
{
    match code {
        Some(number) => !fits_columns(len, number),
        None => true,
    }
}

/// Whether a code of an item counts and doesn't fit.
#[tactic(auto, unfolding(crate::specs::Faults::has_bad_code))]
fn has_bad_code(covered: &[Columns], owner: Owner, field: Field, value: &[u8]) -> bool
    ensures { result ≡ has_bad_code covered.now owner field value.now }
{
    if !is_number(item_kind(covered, is_in_record(owner), field)) {
        return false;
    }
    is_bad_code(field.columns.len, whole_of(value))
}

/// The code of an item.
#[tactic(auto, unfolding(crate::specs::Faults::code_faults))]
fn check_code(
    covered: &[Columns],
    owner: Owner,
    section: &Section<'_>,
    found: &mut Option<DictError>,
)
    ensures { found.new ≡ note_all found.old (code_faults covered.now owner section.now) }
{
    let Some(entry) = entry_of(section, b"EditMissing") else {
        return;
    };
    let Some(field) = field_of(section) else {
        return;
    };
    let is_bad = has_bad_code(covered, owner, field, entry.value);
    note_if(found, is_bad, entry.line, NUMBER_UNREADABLE);
}

/// An item.
#[tactic(auto, unfolding(crate::specs::Faults::item_faults))]
fn check_item(
    alloc: Global,
    covered: &[Columns],
    section: &Section<'_>,
    seen: &mut Seen,
    found: &mut Option<DictError>,
) -> Result<(), AllocError>
    ensures found { OnOk result (found.new ≡ note_all found.old (item_faults covered.now seen.old section.now)) }
    ensures seen { OnOk result (seen.new ≡ record seen.old { names = names_after seen.old.names section.now }) }
{
    check_item_head(alloc, section, seen, found)?;
    check_item_place(seen.context.owner, section, found);
    check_code(covered, seen.context.owner, section, found);
    Ok(())
}

/// The rows and pairs with those of a line.
#[tactic(auto, unfolding(crate::specs::Faults::filled_after))]
fn filled_after(data_type: DataType, filled: Filled, entry: &Entry<'_>) -> Filled
    ensures { result ≡ filled_after data_type filled entry.now }
{
    if !is_value(entry) {
        return filled;
    }
    Filled {
        rows: filled.rows.saturating_add(1).min(65535),
        pairs: pairs_after(data_type, filled.pairs, entry.value),
    }
}

/// A line of a value set.
#[tactic(auto, unfolding(crate::specs::Faults::value_faults_at))]
fn check_value(
    data_type: DataType,
    filled: Filled,
    entry: &Entry<'_>,
    found: &mut Option<DictError>,
) -> Filled
    ensures filled { result ≡ filled_after data_type filled entry.now }
    ensures found { found.new ≡ note_all found.old (value_faults_at data_type filled entry.now) }
{
    let after = filled_after(data_type, filled, entry);
    let is_value = is_value(entry);
    note_if(found, is_value && after.rows > 65534, entry.line, TOO_MANY);
    note_if(
        found,
        is_value && after.pairs > 100_000,
        entry.line,
        TOO_MANY,
    );
    after
}

/// All lines of a value set.
fn check_values(
    data_type: DataType,
    pairs: u32,
    entries: &[Entry<'_>],
    found: &mut Option<DictError>,
) -> Filled
    ensures filled { result ≡ fold (filled_after data_type) (record { rows = 0; pairs = pairs }) entries.now }
    ensures found { found.new ≡ note_all found.old (value_faults data_type (record { rows = 0; pairs = pairs }) entries.now) }
{
    let mut filled = Filled { rows: 0, pairs };
    'entries: for entry in entries {
        filled = check_value(data_type, filled, entry, found);
    }
    filled
}

/// The limits and the name of a value set.
#[tactic(auto, unfolding(crate::specs::Faults::set_head_faults))]
fn check_set_head(
    alloc: Global,
    section: &Section<'_>,
    seen: &mut Seen,
    found: &mut Option<DictError>,
) -> Result<(), AllocError>
    ensures found { OnOk result (found.new ≡ note_all found.old (set_head_faults seen.old section.now)) }
    ensures seen { OnOk result (seen.new ≡ record seen.old { names = names_after seen.old.names section.now }) }
{
    note_if(found, seen.context.items == 0, section.line, KEY_LACKS);
    note_if(found, seen.context.sets >= 10000, section.line, TOO_MANY);
    check_name(alloc, section, &mut seen.names, found)?;
    Ok(())
}

/// A value set.
#[tactic(auto, unfolding(crate::specs::Faults::set_faults))]
fn check_set(
    alloc: Global,
    section: &Section<'_>,
    seen: &mut Seen,
    found: &mut Option<DictError>,
) -> Result<(), AllocError>
    ensures found { OnOk result (found.new ≡ note_all found.old (set_faults seen.old section.now)) }
    ensures seen { OnOk result (seen.new ≡ record seen.old {
      names = names_after seen.old.names section.now;
      pairs = (fold (filled_after seen.old.context.data_type) (record { rows = 0; pairs = seen.old.pairs }) section.now.entries).pairs;
    }) }
{
    check_set_head(alloc, section, seen, found)?;
    let filled = check_values(seen.context.data_type, seen.pairs, &section.entries, found);
    seen.pairs = filled.pairs;
    Ok(())
}

/// The faults that a section behind the first one has by its kind.
#[tactic(auto, unfolding(crate::specs::Faults::faults_at, crate::specs::Faults::seen_after))]
fn check_kind(
    alloc: Global,
    covered: &[Columns],
    len: Option<u32>,
    section: &Section<'_>,
    seen: &mut Seen,
    found: &mut Option<DictError>,
) -> Result<(), AllocError>
    ensures found { OnOk result (found.new ≡ note_all found.old (faults_at covered.now len seen.old section.now)) }
    ensures seen { OnOk result (seen.new ≡ record (seen_after len seen.old section.now) { context = seen.old.context }) }
{
    match kind_of(section.heading) {
        Kind::Level => check_name(alloc, section, &mut seen.names, found),
        Kind::Record => check_record(alloc, len, section, seen, found),
        Kind::Item => check_item(alloc, covered, section, seen, found),
        Kind::ValueSet => check_set(alloc, section, seen, found),
        Kind::Dictionary | Kind::IdItems | Kind::Other => Ok(()),
    }
}

/// A section behind the first one.
#[tactic(auto, unfolding(crate::specs::Faults::seen_after))]
pub fn check_section(
    alloc: Global,
    covered: &[Columns],
    len: Option<u32>,
    section: &Section<'_>,
    seen: &mut Seen,
    found: &mut Option<DictError>,
) -> Result<(), AllocError>
    ensures found { OnOk result (found.new ≡ note_all found.old (faults_at covered.now len seen.old section.now)) }
    ensures seen { OnOk result (seen.new ≡ seen_after len seen.old section.now) }
{
    check_kind(alloc, covered, len, section, seen, found)?;
    seen.context = context_after(seen.context, section);
    Ok(())
}
