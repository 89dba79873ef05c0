//! What a run changed, on a terminal.

use crate::all_changes::Diff;
use crate::areas::Area;
use crate::names::Names;
use crate::rows::Rows;
use crate::spelled::text_of;
use crate::text::{Cell, Text, share};

/// How many of the most frequent changes of an item are told.
pub const MOST_TOLD: u64 = 5;

/// A value as it is told: without the blanks around it, and blanks alone by a word.
pub fn told_value(value: &str) -> &str {
    let told = value.trim_ascii();
    if told.is_empty() { "blank" } else { told }
}

/// The values of a kind of change: before, and after.
pub fn values_of(values: &[u8]) -> (&str, &str) {
    text_of(values).split_once('\n').unwrap_or(("", ""))
}

/// Writes the items that were changed.
fn put_items(out: &mut Text, names: &Names<'_>, diff: &Diff<'_>) {
    let mut rows = Rows::new();
    for pass in 0..2 {
        rows.are_measured = pass > 0;
        rows.row(
            out,
            &[
                Cell::Text("item"),
                Cell::Right("occurrences"),
                Cell::Right("changed"),
                Cell::Right("percent"),
                Cell::Text("label"),
            ],
        );
        for item in 0..diff.shape.items.len() {
            let count = diff.count_of(item);
            if count.changed > 0 {
                rows.row(
                    out,
                    &[
                        Cell::Text(names.item_name(item)),
                        Cell::Number(count.occurrences),
                        Cell::Number(count.changed),
                        Cell::Percent(share(count.changed, count.occurrences)),
                        Cell::Text(names.item_label(item)),
                    ],
                );
            }
        }
    }
}

/// Writes the row of a kind of change.
fn put_kind<'v>(
    out: &mut Text,
    rows: &mut Rows,
    names: &Names<'v>,
    diff: &Diff<'_>,
    item: usize,
    times: u64,
    values: &'v [u8],
) {
    let (before, after) = values_of(values);
    rows.row(
        out,
        &[
            Cell::Text(names.item_name(item)),
            Cell::Right(told_value(before)),
            Cell::Right(told_value(after)),
            Cell::Number(times),
            Cell::Percent(share(times, diff.count_of(item).changed)),
            Cell::Text(names.value(item, before)),
            Cell::Text(names.value(item, after)),
        ],
    );
}

/// Writes the most frequent changes of each item. Those of an item stand together, the most frequent first.
fn put_kinds<'v>(
    out: &mut Text,
    names: &Names<'v>,
    diff: &Diff<'_>,
    kinds: &[(u64, u64, &'v [u8])],
) {
    let mut rows = Rows::new();
    for pass in 0..2 {
        rows.are_measured = pass > 0;
        rows.row(
            out,
            &[
                Cell::Text("item"),
                Cell::Right("before"),
                Cell::Right("after"),
                Cell::Right("times"),
                Cell::Right("percent"),
                Cell::Text("label before"),
                Cell::Text("label after"),
            ],
        );
        let mut last = u64::MAX;
        let mut told = 0u64;
        for (item, rarity, values) in kinds {
            told = if *item == last {
                told.saturating_add(1)
            } else {
                1
            };
            last = *item;
            if told <= MOST_TOLD {
                put_kind(
                    out,
                    &mut rows,
                    names,
                    diff,
                    *item as usize,
                    u64::MAX - *rarity,
                    values,
                );
            }
        }
    }
}

/// Writes the areas.
fn put_areas(out: &mut Text, areas: &[Area]) {
    let mut rows = Rows::new();
    for pass in 0..2 {
        rows.are_measured = pass > 0;
        rows.row(
            out,
            &[
                Cell::Text("area"),
                Cell::Right("lines"),
                Cell::Right("changed"),
                Cell::Right("percent"),
                Cell::Right("items changed"),
            ],
        );
        for area in areas {
            rows.row(
                out,
                &[
                    Cell::Text(area.name.as_str()),
                    Cell::Number(area.lines),
                    Cell::Number(area.changed),
                    Cell::Percent(share(area.changed, area.lines)),
                    Cell::Number(area.changes),
                ],
            );
        }
    }
}

/// Writes what was changed: totals, the items that were changed, their most frequent changes, and the areas.
pub fn put_diff<'v>(
    out: &mut Text,
    names: &Names<'v>,
    diff: &Diff<'_>,
    kinds: &[(u64, u64, &'v [u8])],
    areas: &[Area],
) {
    let counts = &diff.counts;
    out.put_counted("cases ", counts.cases);
    out.put_counted(" changed ", counts.changed_cases);
    out.put_counted("\nlines ", counts.lines);
    out.put_counted(" changed ", counts.changed_lines);
    out.put("\n");
    if counts.changed_lines > 0 {
        out.put("\n");
        put_items(out, names, diff);
        out.put("\n");
        put_kinds(out, names, diff, kinds);
    }
    if diff.has_areas() {
        out.put("\n");
        put_areas(out, areas);
    }
}
