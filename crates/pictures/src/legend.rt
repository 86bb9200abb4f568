// What the marks of a picture mean.

use crate::cells::{Grid, begin_cell, begin_key, begin_row, end_cell, end_row, next_in_cell};
use text_builder::Text;

/// A mark: the class of its cell, and its two lines of text.
type Mark = (&'static str, &'static str, &'static str);

/// The marks.
static MARKS: [Mark; 8] = [
    ("shared", "×2 shared", "2 references"),
    ("page", "C", "copy-on-write"),
    ("page", "D", "to write back"),
    ("guard", "guard", "no access"),
    ("page", "0: 0x1000", "page of slot 0"),
    ("table", "0: table 1", "table of slot 0"),
    ("kernel", "held", "by the kernel"),
    ("free", "free frame", "nobody has it"),
];

/// Puts what the marks mean, and returns the height below them.
pub fn put_legend(out: &mut Text, y: u64) -> u64 {
    begin_key(out, "head");
    begin_row(out, y);
    out.push_str("Marks");
    let mut grid = Grid::at(8, end_row(out, y));
    for mark in MARKS.as_slice() {
        let (class, first, second) = *mark;
        begin_key(out, class);
        begin_cell(out, grid);
        out.push_str(first);
        next_in_cell(out, grid);
        out.push_str(second);
        grid = end_cell(out, grid);
    }
    grid.end()
}
