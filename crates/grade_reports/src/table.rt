// `put_table`: a line for each graded file, in columns; `put_summary`: how many there were, and their mean.

use crate::file_grade::{BlankText, FileGrade, Standing};
use crate::joints::{put_joint, put_note, put_number};
use crate::line_notes::put_lines;
use crate::visible::put_visible;
use std::alloc::{AllocError, Global};
use text_builder::Text;

/// The blanks between two columns.
const GAP: usize = 2;

/// Returns the note on whether a file could be read to the handout's last line, if it needs no other text than its own; empty if there is none.
fn standing_note(grade: &FileGrade) -> Option<&str> {
    let why = grade.why.as_str();
    match grade.standing {
        Standing::Whole => Some(why),
        Standing::Wide => Some("UTF-16: save it as UTF-8"),
        Standing::Truncated if grade.other_lab.is_some() || grade.is_of_page => Some(""),
        standing if why.is_empty() => Some(standing.name()),
        _ => None,
    }
}

/// Appends that a file could not be read to the handout's last line, if so, and why, or what to do.
fn put_standing(notes: &mut Text, grade: &FileGrade) {
    match standing_note(grade) {
        Some("") => {}
        Some(note) => put_note(notes, note),
        None => {
            put_note(notes, grade.standing.name());
            notes.push_str(": ");
            notes.push_str(grade.why.as_str());
        }
    }
}

/// Appends which student and which lab a file is for, if these are others than the handout's.
fn put_others(notes: &mut Text, grade: &FileGrade) {
    if let Some(id) = &grade.other_id {
        put_note(notes, "made for \"");
        notes.push_str(id.as_str());
        notes.push_str("\"");
    }
    match grade.other_lab {
        Some(lab) => {
            put_note(notes, "made for lab ");
            put_number(notes, lab as usize);
        }
        None if grade.is_of_page => put_note(
            notes,
            "made from the page's script, whose numbers are others",
        ),
        None => {}
    }
}

/// Appends how many lines were added, if any were.
fn put_added(notes: &mut Text, added: usize) {
    match added {
        0 => {}
        1 => put_note(notes, "1 line added"),
        _ => {
            put_joint(notes);
            put_number(notes, added);
            notes.push_str(" lines added");
        }
    }
}

/// Appends where the first wrong blank is, and why it is wrong.
fn put_wrong(notes: &mut Text, grade: &FileGrade) {
    match grade.first_wrong() {
        Some(
            BlankText {
                line,
                reason: Some(reason),
                ..
            },
        ) => {
            put_note(notes, "line ");
            put_number(notes, *line);
            notes.push_str(", ");
            notes.push_str(reason.as_str());
        }
        _ => {}
    }
}

/// Appends what is to be said of a file.
pub(crate) fn put_notes(notes: &mut Text, grade: &FileGrade) {
    put_standing(notes, grade);
    put_others(notes, grade);
    put_added(notes, grade.added);
    if matches!(grade.standing, Standing::Whole | Standing::Truncated) {
        put_lines(notes, &grade.noted);
        put_wrong(notes, grade);
    }
}

/// Returns what is to be said of a file.
pub fn notes_of(alloc: Global, grade: &FileGrade) -> Result<String, AllocError> {
    let mut notes = Text::new(alloc);
    put_notes(&mut notes, grade);
    notes.finish()
}

/// Appends how many of some there are, as `3/4`, and a tab.
fn put_share(cells: &mut Text, some: usize, all: usize) {
    put_number(cells, some);
    cells.push_str("/");
    put_number(cells, all);
    cells.push_str("\t");
}

/// Appends the cells of a file, a tab between two, on a line of their own: students chose its name and what its head names, and `Visible` has
/// no tab and no line end.
fn put_cells(cells: &mut Text, grade: &FileGrade) {
    cells.push_str("\n");
    match &grade.id {
        Some(id) => put_visible(cells, id.as_str()),
        None => put_visible(cells, grade.file.as_str()),
    }
    cells.push_str("\t");
    put_share(cells, grade.kept, grade.lines());
    put_share(cells, grade.right, grade.blanks.len());
    match notes_of(cells.allocator(), grade) {
        Ok(notes) => put_visible(cells, notes.as_str()),
        Err(error) => cells.note(Err(error)),
    }
}

/// How wide the columns before the last are.
type Widths = [usize; 3];

/// Returns widths with room for each line of cells.
fn widths_of(cells: &str) -> Widths {
    let mut widths: Widths = [0; 3];
    let (mut column, mut width) = (0usize, 0usize);
    'characters: for character in cells.chars() {
        match character {
            '\n' => (column, width) = (0, 0),
            '\t' => (column, width) = (column.saturating_add(1), 0),
            _ => width = width.saturating_add(1),
        }
        if let Some(widest) = widths.get_mut(column) {
            *widest = (*widest).max(width);
        }
    }
    widths
}

/// Appends so many blanks.
fn put_blanks(out: &mut Text, count: usize) {
    for _ in 0..count {
        out.push_str(" ");
    }
}

/// Appends a line of cells in columns; one whose last cell is empty ends behind the cell before.
fn put_row(out: &mut Text, line: &str, widths: Widths) {
    let (mut blanks, mut column) = (0usize, 0usize);
    'cells: for cell in line.split('\t') {
        if !cell.is_empty() {
            put_blanks(out, blanks);
            out.push_str(cell);
            blanks = 0;
        }
        if let Some(width) = widths.get(column) {
            let room = width.saturating_add(GAP);
            blanks = blanks.saturating_add(room.saturating_sub(cell.chars().count()));
        }
        column = column.saturating_add(1);
    }
    out.push_str("\n");
}

/// Appends lines of cells in columns.
fn put_rows(out: &mut Text, cells: &str) {
    let widths = widths_of(cells);
    'lines: for line in cells.split('\n') {
        put_row(out, line, widths);
    }
}

/// Whether a file was graded for a student.
fn has_id(grades: &[FileGrade]) -> bool {
    'grades: for grade in grades {
        if grade.id.is_some() {
            return true;
        }
    }
    false
}

/// Appends a line for each file, below a head.
pub fn put_table(alloc: Global, out: &mut Text, grades: &[FileGrade]) {
    let mut cells = Text::new(alloc);
    cells.push_str(if has_id(grades) { "id" } else { "file" });
    cells.push_str("\tlines\tblanks\tfirst wrong blank");
    'grades: for grade in grades {
        put_cells(&mut cells, grade);
    }
    match cells.finish() {
        Ok(cells) => put_rows(out, cells.as_str()),
        Err(error) => out.note(Err(error)),
    }
}

/// What is counted of all files.
#[derive(Clone, Copy)]
struct Total {
    full: usize,
    right: usize,
    blanks: usize,
}

/// Returns what is counted of all files.
fn total_of(grades: &[FileGrade]) -> Total {
    let mut total = Total {
        full: 0,
        right: 0,
        blanks: 0,
    };
    'grades: for grade in grades {
        total.full = total.full.saturating_add(usize::from(grade.is_full()));
        total.right = total.right.saturating_add(grade.right);
        total.blanks = total.blanks.saturating_add(grade.blanks.len());
    }
    total
}

/// Appends a sum over a count, with two digits after the point, rounded down; without these if the quotient is whole and `is_short`.
fn put_mean(out: &mut Text, sum: usize, count: usize, is_short: bool) {
    let hundredths = sum.saturating_mul(100).checked_div(count).unwrap_or(0);
    put_number(out, hundredths / 100);
    let part = hundredths % 100;
    if !is_short || part != 0 {
        out.push_str(if part < 10 { ".0" } else { "." });
        put_number(out, part);
    }
}

/// Appends how many files there were, how many of them with full marks, and the mean.
pub fn put_summary(out: &mut Text, grades: &[FileGrade]) {
    let total = total_of(grades);
    let files = grades.len();
    put_number(out, files);
    out.push_str(if files == 1 { " file, " } else { " files, " });
    put_number(out, total.full);
    out.push_str(" with full marks");
    if files > 0 {
        out.push_str(", mean ");
        put_mean(out, total.right, files, false);
        out.push_str(" of ");
        put_mean(out, total.blanks, files, true);
    }
    out.push_str("\n");
}
