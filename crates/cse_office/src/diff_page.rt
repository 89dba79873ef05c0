//! What a run changed, as a page: the shares by item and by area, and the changes of each item.

use crate::all_changes::Diff;
use crate::areas::Area;
use crate::changed_items::put_changes;
use crate::names::Names;
use crate::text::{Cell, Text, share};
use std::alloc::Global;

/// The share of an item's occurrences that was changed.
fn share_of(diff: &Diff<'_>, item: usize) -> u64 {
    let count = diff.count_of(item);
    share(count.changed, count.occurrences)
}

/// Writes the table of items.
fn put_items(out: &mut Text, names: &Names<'_>, diff: &Diff<'_>) {
    out.put(
        "<h2>Changed, by item</h2>\n<table><tr><th>item<th>label<th class=n>occurrences<th class=n>changed<th class=n>share<th></tr>\n",
    );
    let mut greatest = 0u64;
    for item in 0..diff.shape.items.len() {
        greatest = greatest.max(share_of(diff, item));
    }
    for item in 0..diff.shape.items.len() {
        let count = diff.count_of(item);
        if count.changed > 0 {
            let percent = share_of(diff, item);
            out.put_row(&[
                Cell::Text(names.item_name(item)),
                Cell::Text(names.item_label(item)),
                Cell::Number(count.occurrences),
                Cell::Number(count.changed),
                Cell::Percent(percent),
                Cell::Bar(share(percent, greatest)),
            ]);
        }
    }
    out.put("</table>\n");
}

/// Writes the table of areas.
fn put_areas(out: &mut Text, areas: &[Area]) {
    out.put(
        "<h2>Changed, by area</h2>\n<table><tr><th>area<th class=n>lines<th class=n>changed<th class=n>items changed<th class=n>share of lines<th></tr>\n",
    );
    let mut greatest = 0u64;
    for area in areas {
        greatest = greatest.max(share(area.changed, area.lines));
    }
    for area in areas {
        let percent = share(area.changed, area.lines);
        out.put_row(&[
            Cell::Text(area.name.as_str()),
            Cell::Number(area.lines),
            Cell::Number(area.changed),
            Cell::Number(area.changes),
            Cell::Percent(percent),
            Cell::Bar(share(percent, greatest)),
        ]);
    }
    out.put("</table>\n");
}

/// Writes the page.
pub fn put_page(
    out: &mut Text,
    alloc: Global,
    names: &Names<'_>,
    diff: &Diff<'_>,
    kinds: &[(u64, u64, &[u8])],
    areas: &[Area],
) {
    let counts = &diff.counts;
    out.put_head("What the run changed");
    out.put_counted("<p>Cases ", counts.cases);
    out.put_counted(", changed ", counts.changed_cases);
    out.put_counted(". Lines ", counts.lines);
    out.put_counted(", changed ", counts.changed_lines);
    out.put(".</p>\n");
    put_items(out, names, diff);
    if diff.has_areas() {
        put_areas(out, areas);
    }
    let mut scratch = Text::new(alloc);
    put_changes(out, &mut scratch, names, diff, kinds);
    if scratch.has_given_up() {
        out.give_up();
    }
    out.put("</body></html>\n");
}
