//! Messages and imputations as a page.

use crate::names::Names;
use crate::report::{Imputed, Report};
use crate::report_text::{item_of, label_of};
use crate::text::{Cell, Text, share};

/// Writes the messages.
fn put_messages(out: &mut Text, report: &Report) {
    out.put(
        "<h2>Messages</h2>\n<table><tr><th class=n>number<th>text<th class=n>times<th class=n>of cases<th class=n>of lines<th></tr>\n",
    );
    let mut greatest = 0u64;
    for given in &report.messages {
        greatest = greatest.max(given.times);
    }
    for given in &report.messages {
        out.put_row(&[
            Cell::Number(given.number),
            Cell::Text(given.text.as_str()),
            Cell::Number(given.times),
            Cell::Percent(share(given.times, report.cases)),
            Cell::Percent(share(given.times, report.lines)),
            Cell::Bar(share(given.times, greatest)),
        ]);
    }
    out.put("</table>\n");
}

/// Writes an imputed item with its values.
fn put_item<'v>(out: &mut Text, names: &Names<'v>, lines: u64, item: &'v Imputed) {
    let number = item_of(names, item.name.as_str());
    out.put("<details open><summary>");
    out.put_escaped(item.name.as_str());
    out.put(" <span class=t>");
    out.put_escaped(names.item_label(number));
    out.put_counted("</span> ", item.times);
    out.put(
        "</summary>\n<table><tr><th>value<th>label<th class=n>times<th class=n>share<th></tr>\n",
    );
    for (_, _, value, times) in &item.values {
        let percent = share(*times, item.times);
        out.put_row(&[
            Cell::Text(value.as_str()),
            Cell::Text(label_of(names, number, value.as_str())),
            Cell::Number(*times),
            Cell::Percent(percent),
            Cell::Bar(percent),
        ]);
    }
    out.put("</table>\n<p class=t>of lines ");
    out.put_percent(share(item.times, lines));
    out.put(" %</p></details>\n");
}

/// Writes the page.
pub fn put_report_page<'v>(out: &mut Text, names: &Names<'v>, report: &'v Report) {
    out.put_head("What the run told");
    out.put_counted("<p>Cases ", report.cases);
    out.put_counted(". Lines ", report.lines);
    out.put_counted(". Unseen: unknown ", report.unknown);
    out.put_counted(", extra ", report.extra);
    out.put(".</p>\n");
    put_messages(out, report);
    out.put("<h2>Imputed</h2>\n");
    for item in &report.items {
        put_item(out, names, report.lines, item);
    }
    out.put("</body></html>\n");
}
