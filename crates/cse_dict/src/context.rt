//! What stands before a section.
ghost use Rattle.std.specs.Prelude.{◌≡◌, ◌++◌, if◌then◌else◌, IfOk, OnOk};
ghost use Rattle.cse_dict.specs.Pairs.{one_more};
ghost use Rattle.cse_dict.specs.Context.{context_after, covered_by, id_columns_at, id_columns_from, is_ids, is_in_record, no_context, owner_after};

use crate::field::{Columns, columns_of, type_columns_of};
use crate::keys::{DataType, Kind, data_type_of, kind_of, number_in};
use cse_sections::sections::Section;
use std::alloc::{AllocError, Global};

/// What the items behind a section belong to.
#[derive(Clone, Copy)]
pub enum Owner {
    Nobody,
    Ids,
    /// A record, with its RecordLen if that is readable.
    OfRecord(Option<u32>),
}

/// The owner of items, the type of the last item, and counts up to one past their limits.
#[derive(Clone, Copy)]
pub struct Context {
    pub owner: Owner,
    pub data_type: DataType,
    pub records: u8,
    pub ids: u8,
    pub items: u16,
    pub sets: u16,
}

/// The owner behind a section.
#[tactic(auto, unfolding(crate::specs::Context::owner_after))]
fn owner_after(owner: Owner, section: &Section<'_>) -> Owner
    ensures { result ≡ owner_after owner section.now }
{
    match kind_of(section.heading) {
        Kind::IdItems => Owner::Ids,
        Kind::Record => Owner::OfRecord(number_in(section, b"RecordLen", 1, 65535)),
        Kind::Dictionary | Kind::Level | Kind::Item | Kind::ValueSet | Kind::Other => owner,
    }
}

/// Whether items identify the case.
pub fn is_ids(owner: Owner) -> bool
    ensures { result ≡ is_ids owner }
{
    match owner {
        Owner::Ids => true,
        Owner::Nobody | Owner::OfRecord(_) => false,
    }
}

/// Whether items belong to a record.
pub fn is_in_record(owner: Owner) -> bool
    ensures { result ≡ is_in_record owner }
{
    match owner {
        Owner::OfRecord(_) => true,
        Owner::Nobody | Owner::Ids => false,
    }
}

/// One id item more, if the item is one.
fn ids_after(context: Context) -> u8
    ensures { result ≡ (if is_ids context.owner then one_more 50 context.ids else context.ids) }
{
    if is_ids(context.owner) {
        return context.ids.saturating_add(1).min(51);
    }
    context.ids
}

/// What stands before the section behind.
#[tactic(auto, unfolding(crate::specs::Context::context_after))]
pub fn context_after(context: Context, section: &Section<'_>) -> Context
    ensures { result ≡ context_after context section.now }
{
    let owner = owner_after(context.owner, section);
    match kind_of(section.heading) {
        Kind::IdItems => Context { owner, ..context },
        Kind::Record => Context {
            owner,
            records: context.records.saturating_add(1).min(201),
            ..context
        },
        Kind::Item => Context {
            ids: ids_after(context),
            items: context.items.saturating_add(1).min(10001),
            data_type: data_type_of(section),
            ..context
        },
        Kind::ValueSet => Context {
            sets: context.sets.saturating_add(1).min(10001),
            ..context
        },
        Kind::Dictionary | Kind::Level | Kind::Other => context,
    }
}

/// What stands before the first section behind `[Dictionary]`.
pub fn no_context() -> Context
    ensures { result ≡ no_context }
{
    Context {
        owner: Owner::Nobody,
        data_type: DataType::Numeric,
        records: 0,
        ids: 0,
        items: 0,
        sets: 0,
    }
}

/// The columns of an id item join the others.
#[tactic(auto, unfolding(crate::specs::Context::id_columns_at))]
fn add_id_columns(
    ids: &mut Vec<Columns>,
    owner: Owner,
    section: &Section<'_>,
) -> Result<(), AllocError>
    ensures { OnOk result (ids.new.items ≡ ids.old.items ++ id_columns_at owner section.now) }
{
    match kind_of(section.heading) {
        Kind::Item => {
            if !is_ids(owner) {
                return Ok(());
            }
            let Some(columns) = columns_of(section) else {
                return Ok(());
            };
            ids.push(columns)?;
            Ok(())
        }
        Kind::Dictionary
        | Kind::Level
        | Kind::IdItems
        | Kind::Record
        | Kind::ValueSet
        | Kind::Other => Ok(()),
    }
}

/// The columns of all id items join the others.
fn add_all_id_columns(ids: &mut Vec<Columns>, rest: &[Section<'_>]) -> Result<(), AllocError>
    ensures { OnOk result (ids.new.items ≡ ids.old.items ++ id_columns_from Owner.Nobody rest.now) }
{
    let mut owner = Owner::Nobody;
    'sections: for section in rest {
        add_id_columns(ids, owner, section)?;
        owner = owner_after(owner, section);
    }
    Ok(())
}

/// The columns of the record type and of all id items, which make items of records opaque.
#[tactic(auto, unfolding(crate::specs::Context::covered_by))]
pub fn covered_by(
    alloc: Global,
    first: &Section<'_>,
    rest: &[Section<'_>],
) -> Result<Vec<Columns>, AllocError>
    ensures { IfOk result (λ v. v.items ≡ covered_by first.now rest.now) }
{
    let mut covered = Vec::new(alloc);
    if let Some(columns) = type_columns_of(first) {
        covered.push(columns)?;
    }
    add_all_id_columns(&mut covered, rest)?;
    Ok(covered)
}
