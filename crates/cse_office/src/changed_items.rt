//! The most frequent changes of each item on a page, and of each item of few columns the values that changes wrote beside
//! those that stand where nothing was changed.

ghost use Rattle.std.specs.Prelude.{◌≤◌, length};

use crate::all_changes::Diff;
use crate::diff_text::{MOST_TOLD, told_value, values_of};
use crate::names::Names;
use crate::shares::{BLANK, CELLS, OTHER};
use crate::text::{Cell, Text, share};

/// How many kinds of an item stand first.
fn kinds_of(kinds: &[(u64, u64, &[u8])], item: usize) -> usize
    ensures { result ≤ length kinds.now }
{
    let mut count = 0usize;
    for kind in kinds {
        if kind.0 != item as u64 {
            break;
        }
        count = count.saturating_add(1);
    }
    count.min(kinds.len())
}

/// Writes the most frequent changes of an item.
fn put_kinds(
    out: &mut Text,
    names: &Names<'_>,
    diff: &Diff<'_>,
    item: usize,
    kinds: &[(u64, u64, &[u8])],
) {
    out.put("<div><table><tr><th>before<th>after<th class=n>times<th class=n>share</tr>\n");
    let mut told = 0u64;
    for (_, rarity, values) in kinds {
        if told < MOST_TOLD {
            told = told.saturating_add(1);
            let times = u64::MAX - *rarity;
            let (before, after) = values_of(values);
            out.put("<tr>");
            out.put_labelled(told_value(before), names.value(item, before));
            out.put_labelled(told_value(after), names.value(item, after));
            out.put_cells(&[
                Cell::Number(times),
                Cell::Percent(share(times, diff.count_of(item).changed)),
            ]);
            out.put("</tr>\n");
        }
    }
    out.put("</table></div>\n");
}

/// Writes the value of a cell: a number, the tens of one of three columns, or a word.
fn put_value(out: &mut Text, len: u16, cell: usize) {
    let number = cell as u64;
    if cell == OTHER {
        out.put("other");
    } else if cell != BLANK && len < 3 {
        out.put_number(number);
    } else if cell != BLANK {
        let low = number.saturating_mul(10);
        out.put_number(low);
        out.put("-");
        out.put_number(low.saturating_add(9));
    }
}

/// Writes the values that changes wrote beside those that stand unchanged.
fn put_shares(out: &mut Text, scratch: &mut Text, names: &Names<'_>, diff: &Diff<'_>, item: usize) {
    let sum = diff.shares.sum(item);
    let (Some(shape), true) = (diff.shape.items.get(item), sum.imputed > 0) else {
        return;
    };
    out.put("<div><table><tr><th>value<th class=n>imputed<th class=n>observed<th></tr>\n");
    for cell in 0..CELLS {
        let found = diff.shares.cell(item, cell);
        if found.imputed > 0 || found.observed > 0 {
            scratch.clear();
            put_value(scratch, shape.len, cell);
            let value = scratch.as_str();
            let imputed = share(found.imputed, sum.imputed);
            let observed = share(found.observed, sum.observed);
            out.put("<tr>");
            out.put_labelled(told_value(value), names.value(item, value));
            out.put_cells(&[
                Cell::Percent(imputed),
                Cell::Percent(observed),
                Cell::Bars(imputed, observed),
            ]);
            out.put("</tr>\n");
        }
    }
    out.put("</table></div>\n");
}

/// Writes an item that was changed: its most frequent changes, and its values.
fn put_changed(
    out: &mut Text,
    scratch: &mut Text,
    names: &Names<'_>,
    diff: &Diff<'_>,
    item: usize,
    kinds: &[(u64, u64, &[u8])],
) {
    out.put("<details open><summary>");
    out.put_escaped(names.item_name(item));
    out.put(" <span class=t>");
    out.put_escaped(names.item_label(item));
    out.put("</span></summary>\n<div class=two>\n");
    put_kinds(out, names, diff, item, kinds);
    put_shares(out, scratch, names, diff, item);
    out.put("</div></details>\n");
}

/// Writes the changes of an item, whose kinds are the first behind so many. Answers how many are behind.
fn put_changes_of(
    out: &mut Text,
    scratch: &mut Text,
    names: &Names<'_>,
    diff: &Diff<'_>,
    item: usize,
    kinds: &[(u64, u64, &[u8])],
    first: usize,
) -> usize {
    let Some(rest) = kinds.get(first..) else {
        return first;
    };
    let count = kinds_of(rest, item);
    if diff.count_of(item).changed > 0 {
        put_changed(out, scratch, names, diff, item, &rest[..count]);
    }
    first.saturating_add(count)
}

/// Writes the changes of each item.
pub fn put_changes(
    out: &mut Text,
    scratch: &mut Text,
    names: &Names<'_>,
    diff: &Diff<'_>,
    kinds: &[(u64, u64, &[u8])],
) {
    out.put(
        "<h2>The changes of each item</h2>\n<p class=t>Bars: blue what changes wrote, grey what stands unchanged.</p>\n",
    );
    let mut first = 0usize;
    for item in 0..diff.shape.items.len() {
        first = put_changes_of(out, scratch, names, diff, item, kinds, first);
    }
}
