//! A page of HTML: one file, with its style, without scripts, and with nothing from outside.

use crate::text::{Cell, Text};

/// How a page looks.
const STYLE: &str =
    "body{font:15px/1.4 system-ui,sans-serif;margin:1.5rem auto;max-width:72rem;padding:0 1rem;color:#1b1b1b}
h1{font-size:1.5rem;margin:0 0 .3rem}h2{font-size:1.15rem;margin:1.6rem 0 .4rem}
table{border-collapse:collapse;width:100%}th{text-align:left;border-bottom:2px solid #888;font-weight:600}
th,td{padding:.12rem .5rem;vertical-align:middle}td{border-bottom:1px solid #e3e3e3}
.n{text-align:right;font-variant-numeric:tabular-nums;white-space:nowrap}.b{width:34%}.b div{height:.8rem;background:#2f6fab}
.b .o{background:#b9b9b9}.b div+div{margin-top:1px}.t{color:#555}summary{cursor:pointer;font-weight:600;margin:.5rem 0}
.two{display:grid;grid-template-columns:repeat(auto-fill,minmax(min(26rem,100%),1fr));gap:1.5rem}";

/// How a cell of a table begins.
fn opening_of(cell: Cell<'_>) -> &'static str {
    match cell {
        Cell::Number(_) | Cell::Percent(_) => "<td class=n>",
        Cell::Bar(_) | Cell::Bars(..) => "<td class=b>",
        _ => "<td>",
    }
}

/// How it ends.
fn closing_of(cell: Cell<'_>) -> &'static str {
    match cell {
        Cell::Percent(_) => " %</td>",
        _ => "</td>",
    }
}

impl Text {
    /// Writes the head of a page.
    pub fn put_head(&mut self, title: &str) {
        let title = Cell::Escaped(title);
        self.put_all(&[
            Cell::Text("<!DOCTYPE html>\n<html lang=\"en\"><head><meta charset=\"utf-8\"><title>"),
            title,
            Cell::Text("</title>\n<style>"),
            Cell::Text(STYLE),
            Cell::Text("</style></head><body>\n<h1>"),
            title,
            Cell::Text("</h1>\n"),
        ]);
    }

    /// Writes a bar of a class.
    fn put_bar(&mut self, class: &str, hundredths: u64) {
        self.put_all(&[
            Cell::Text("<div"),
            Cell::Text(class),
            Cell::Text(" style=\"width:"),
            Cell::Percent(hundredths.min(10_000)),
            Cell::Text("%\"></div>"),
        ]);
    }

    /// Writes a cell of a table that has a value with its label.
    pub fn put_labelled(&mut self, value: &str, label: &str) {
        self.put("<td>");
        self.put_escaped(value);
        self.put(" <span class=t>");
        self.put_escaped(label);
        self.put("</span></td>");
    }

    /// Writes what stands in a cell of a table.
    fn put_inside(&mut self, cell: Cell<'_>) {
        match cell {
            Cell::Text(text) | Cell::Right(text) => self.put_escaped(text),
            Cell::Bar(hundredths) => self.put_bar("", hundredths),
            Cell::Bars(above, below) => {
                self.put_bar("", above);
                self.put_bar(" class=o", below);
            }
            _ => self.put_cell(cell),
        }
    }

    /// Writes cells of a table, side by side.
    pub fn put_cells(&mut self, cells: &[Cell<'_>]) {
        for cell in cells {
            let cell = *cell;
            self.put(opening_of(cell));
            self.put_inside(cell);
            self.put(closing_of(cell));
        }
    }

    /// Writes a row of a table.
    pub fn put_row(&mut self, cells: &[Cell<'_>]) {
        self.put("<tr>");
        self.put_cells(cells);
        self.put("</tr>\n");
    }
}
