// Cells of a picture: rectangles with two lines of text in rows (`Grid`), or with one line across the picture; and two lines of text
// beside a row of cells. Each is put piece by piece, and who puts it appends its key and its texts between the pieces.

use text_builder::Text;

/// The width of a picture, in the units of its view box.
pub const WIDTH: u64 = 940;
/// What is left free below a part of a picture.
pub const SPACE: u64 = 14;

const CELL_WIDTH: u64 = 112;

const CELL_HEIGHT: u64 = 34;

const GAP: u64 = 4;

const ROW_WIDTH: u64 = WIDTH - 2;

const ROW_HEIGHT: u64 = 22;

/// Where the next cell of some rows goes: cells are put from `left` to the right, and below each other where a row is full.
#[derive(Clone, Copy)]
pub struct Grid {
    left: u64,
    x: u64,
    y: u64,
}

impl Grid {
    /// Returns rows whose first cell has its upper left corner here.
    pub fn at(left: u64, y: u64) -> Grid {
        Grid { left, x: left, y }
    }

    /// Returns where the cell after the next goes.
    fn next(self) -> Grid {
        let x = self.x.saturating_add(CELL_WIDTH).saturating_add(GAP);
        if x.saturating_add(CELL_WIDTH) > WIDTH {
            return Grid {
                left: self.left,
                x: self.left,
                y: self.below(),
            };
        }
        Grid { x, ..self }
    }

    /// Returns the first height below the row of the next cell.
    pub fn below(self) -> u64 {
        self.y.saturating_add(CELL_HEIGHT).saturating_add(GAP)
    }

    /// Returns the first height below all cells.
    pub fn end(self) -> u64 {
        if self.x == self.left {
            self.y
        } else {
            self.below()
        }
    }
}

/// Puts what stands before the first of two lines of text, at the right of `x` and below `y`.
fn begin_first(out: &mut Text, x: u64, y: u64) {
    let y = y.saturating_add(14);
    write!(out, "<text x=\"{x}\" y=\"{y}\" class=\"first\">");
}

/// Puts what stands between the first and the second line of text.
fn begin_second(out: &mut Text, x: u64, y: u64) {
    let y = y.saturating_add(28);
    write!(out, "</text>\n<text x=\"{x}\" y=\"{y}\" class=\"second\">");
}

/// Puts what stands before the first line of text beside a row of cells.
pub fn begin_label(out: &mut Text, y: u64) {
    begin_first(out, 8, y);
}

/// Puts what stands between the lines of text beside a row of cells.
pub fn next_in_label(out: &mut Text, y: u64) {
    begin_second(out, 8, y);
}

/// Puts what stands after the second line of text beside a row of cells.
pub fn end_label(out: &mut Text) {
    out.push_str("</text>\n");
}

/// Puts what stands before the key of a cell or of a row; the key tells it from all others of the picture.
pub fn begin_key(out: &mut Text, class: &str) {
    write!(out, "<g class=\"cell {class}\" data-key=\"");
}

/// Puts what stands between the key of a cell and its first line of text.
pub fn begin_cell(out: &mut Text, grid: Grid) {
    let (x, y) = (grid.x, grid.y);
    write!(
        out,
        "\">\n<rect x=\"{x}\" y=\"{y}\" width=\"{CELL_WIDTH}\" height=\"{CELL_HEIGHT}\"/>\n"
    );
    begin_first(out, x.saturating_add(6), y);
}

/// Puts what stands between the lines of text of a cell.
pub fn next_in_cell(out: &mut Text, grid: Grid) {
    begin_second(out, grid.x.saturating_add(6), grid.y);
}

/// Puts what stands after the second line of text of a cell, and returns where the next cell goes.
pub fn end_cell(out: &mut Text, grid: Grid) -> Grid {
    out.push_str("</text>\n</g>\n");
    grid.next()
}

/// Puts a rectangle across the picture, from its key on to its line of text.
pub fn begin_row(out: &mut Text, y: u64) {
    let base = y.saturating_add(15);
    write!(
        out,
        "\">\n<rect x=\"1\" y=\"{y}\" width=\"{ROW_WIDTH}\" height=\"{ROW_HEIGHT}\"/>\n<text x=\"8\" y=\"{base}\" class=\"first\">"
    );
}

/// Puts what stands after the line of text of a row, and returns the height below it.
pub fn end_row(out: &mut Text, y: u64) -> u64 {
    out.push_str("</text>\n</g>\n");
    y.saturating_add(ROW_HEIGHT).saturating_add(GAP)
}
