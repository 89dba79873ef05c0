//! The faults of all sections, and the least of them.
ghost use Rattle.std.specs.Prelude.{◌≡◌, ◌≤◌, ◌++◌, [], false, codes, None, OnOk, IfOk, length};
ghost use Rattle.std.specs.List.{list_any};
ghost use Rattle.cse_dict.specs.Context.{no_context};
ghost use Rattle.cse_dict.specs.Types.{type_len_of};
ghost use Rattle.cse_dict.specs.Faults.{faults_behind, faults_from, faults_of, first_faults, is_level, level_lacks, name_faults, names_after, note_all, optional_faults, read_len, read_part, rest_faults, second_level, seen_first, start_faults, unread_part};

use crate::check::check_section;
use crate::context::{covered_by, no_context};
use crate::fault::{DictError, note_if};
use crate::faults::{check_name, check_number, check_optional};
use crate::field::Columns;
use crate::keys::{Kind, kind_of};
use crate::names::{Names, Types};
use crate::record_type::type_len_of;
use crate::seen::Seen;
use cse_fault_numbers::{KEY_LACKS, SECOND_LEVEL};
use cse_sections::sections::Section;
use std::alloc::{AllocError, Global};

/// Whether the section is a level.
#[tactic(auto, unfolding(crate::specs::Faults::is_level))]
pub fn is_level(section: &Section<'_>) -> bool
    ensures { result ≡ is_level section.now }
{
    match kind_of(section.heading) {
        Kind::Level => true,
        Kind::Dictionary
        | Kind::IdItems
        | Kind::Record
        | Kind::Item
        | Kind::ValueSet
        | Kind::Other => false,
    }
}

/// How many of the sections behind the first one are read: those before the second level.
pub fn read_len(rest: &[Section<'_>]) -> usize
    ensures len { result ≡ read_len false rest.now }
    ensures within { result ≤ length rest.now }
{
    let mut has_level = false;
    let mut len = 0;
    'sections: for section in rest {
        let is_level = is_level(section);
        if has_level && is_level {
            return len;
        }
        has_level = has_level || is_level;
        len += 1;
    }
    len
}

/// Where the record type starts.
#[tactic(auto, unfolding(crate::specs::Faults::start_faults))]
fn check_start(len: Option<u32>, first: &Section<'_>, found: &mut Option<DictError>)
    ensures { found.new ≡ note_all found.old (start_faults len first.now) }
{
    let Some(len) = len else {
        check_optional(first, b"RecordTypeStart", 1, 65535, found);
        return;
    };
    if len > 0 {
        check_number(first, b"RecordTypeStart", 1, 65535, found);
    }
}

/// The first section.
fn check_first(
    alloc: Global,
    first: &Section<'_>,
    names: &mut Names,
    found: &mut Option<DictError>,
) -> Result<(), AllocError>
    ensures found { OnOk result (found.new ≡ note_all found.old
        (name_faults names.old first.now ++ optional_faults first.now (codes "RecordTypeLen") 0 16 ++ start_faults (type_len_of first.now) first.now)) }
    ensures names { OnOk result (names.new ≡ names_after names.old first.now) }
{
    check_name(alloc, first, names, found)?;
    check_optional(first, b"RecordTypeLen", 0, 16, found);
    check_start(type_len_of(first), first, found);
    Ok(())
}

/// Whether there is a level.
fn has_level(read: &[Section<'_>]) -> bool
    ensures { result ≡ list_any is_level read.now }
{
    read.iter().any(|section| is_level(section))
}

/// The sections behind the first one.
#[tactic(auto, unfolding(crate::specs::Faults::rest_faults))]
fn check_rest(
    alloc: Global,
    first: &Section<'_>,
    read: &[Section<'_>],
    seen: &mut Seen,
    found: &mut Option<DictError>,
) -> Result<(), AllocError>
    requires { seen.old ≡ seen_first first.now }
    ensures { OnOk result (found.new ≡ note_all found.old (rest_faults first.now read.now)) }
{
    let covered = covered_by(alloc, first, read)?;
    let len = type_len_of(first);
    check_from(alloc, &covered, len, read, seen, found)
}

/// The sections behind the first one, by what was seen before them.
fn check_from(
    alloc: Global,
    covered: &[Columns],
    len: Option<u32>,
    read: &[Section<'_>],
    seen: &mut Seen,
    found: &mut Option<DictError>,
) -> Result<(), AllocError>
    ensures { OnOk result (found.new ≡ note_all found.old (faults_from covered.now len seen.old read.now)) }
{
    'sections: for section in read {
        check_section(alloc, covered, len, section, seen, found)?;
    }
    Ok(())
}

/// A second level.
fn check_second(unread: &[Section<'_>], found: &mut Option<DictError>)
    ensures { found.new ≡ note_all found.old (second_level unread.now) }
{
    if let [second, ..] = unread {
        note_if(found, true, second.line, SECOND_LEVEL);
    }
}

/// The first section and those that are read, by nothing that was seen before.
fn check_read(
    alloc: Global,
    first: &Section<'_>,
    read: &[Section<'_>],
    seen: &mut Seen,
    found: &mut Option<DictError>,
) -> Result<(), AllocError>
    requires { seen.old ≡ record { names = []; types = []; context = no_context; pairs = 0 } }
    ensures { OnOk result (found.new ≡ note_all found.old
        (first_faults first.now ++ (level_lacks first.now read.now ++ rest_faults first.now read.now))) }
{
    check_first(alloc, first, &mut seen.names, found)?;
    note_if(found, !has_level(read), first.line, KEY_LACKS);
    check_rest(alloc, first, read, seen, found)
}

/// The first section and those that are read.
fn check_all_read(
    alloc: Global,
    first: &Section<'_>,
    read: &[Section<'_>],
    found: &mut Option<DictError>,
) -> Result<(), AllocError>
    ensures { OnOk result (found.new ≡ note_all found.old
        (first_faults first.now ++ (level_lacks first.now read.now ++ rest_faults first.now read.now))) }
{
    let mut seen = Seen {
        names: Names::new(alloc),
        types: Types::new(alloc),
        context: no_context(),
        pairs: 0,
    };
    check_read(alloc, first, read, &mut seen, found)
}

/// The first section and those behind it.
#[tactic(auto, unfolding(crate::specs::Faults::faults_behind, crate::specs::Faults::read_part, crate::specs::Faults::unread_part))]
fn check_behind(
    alloc: Global,
    first: &Section<'_>,
    rest: &[Section<'_>],
    found: &mut Option<DictError>,
) -> Result<(), AllocError>
    ensures { OnOk result (found.new ≡ note_all found.old (faults_behind first.now rest.now)) }
{
    let len = read_len(rest);
    check_all_read(alloc, first, &rest[..len], found)?;
    check_second(&rest[len..], found);
    Ok(())
}

/// No dictionary at all.
const NO_DICTIONARY: DictError = DictError {
    number: cse_fault_numbers::NO_DICTIONARY,
    line: 0,
};

/// The least fault of the sections.
#[tactic(auto, unfolding(crate::specs::Faults::faults_of))]
pub fn least_fault(alloc: Global, sections: &[Section<'_>]) -> Result<Option<DictError>, AllocError>
    ensures { IfOk result (λ found. found ≡ note_all None (faults_of sections.now)) }
{
    let mut found = None;
    let [first, rest @ ..] = sections else {
        return Ok(Some(NO_DICTIONARY));
    };
    match kind_of(first.heading) {
        Kind::Dictionary => {
            check_behind(alloc, first, rest, &mut found)?;
            Ok(found)
        }
        Kind::Level | Kind::IdItems | Kind::Record | Kind::Item | Kind::ValueSet | Kind::Other =>
            Ok(Some(NO_DICTIONARY)),
    }
}
