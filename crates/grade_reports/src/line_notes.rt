// `LineNotes`, a struct: which lines of a handout a student's file has changed, left out or answered more than once; `put_lines`: that in words.

use crate::joints::{joint, put_note, put_number};
use handouts::{Answer, Asked, Found, Line, is_kept};
use std::alloc::{AllocError, Global};
use text_builder::Text;

/// The most numbers of lines that are named; of more it is said how many there are.
const MOST_NUMBERS: usize = 8;

/// Numbers of lines of a handout, from 1, each list in the handout's order.
#[derive(Drop)]
pub struct LineNotes {
    /// The lines that are no blanks and have another line in their place.
    pub changed: Vec<usize>,
    /// The lines that are no blanks and are not there, up to the last line that the file has of the handout.
    pub missing: Vec<usize>,
    /// The blanks whose line the file has again further below, with an answer. The first counts, or of copies next to one another the first
    /// with an answer.
    pub again: Vec<usize>,
}

/// Returns how many lines there are of the handout up to the last one that is kept or changed.
fn end_of(found: &[Found]) -> usize {
    let mut end = 0usize;
    'found: for place in 0..found.len() {
        if !matches!(found[place], Found::Missing) {
            end = place.saturating_add(1);
        }
    }
    end
}

/// Whether a line of the file is a line of the handout, or in the place of one.
fn is_used(found: &[Found], written: usize) -> bool {
    'found: for one in found {
        match one {
            Found::Kept(place) | Found::Changed(place) if *place == written => return true,
            _ => {}
        }
    }
    false
}

/// Returns how many lines the file has up to the last that is a line of the handout, or in the place of one.
fn used_end(found: &[Found]) -> usize {
    let mut end = 0usize;
    'found: for one in found {
        match one {
            Found::Kept(place) | Found::Changed(place) => end = end.max(place.saturating_add(1)),
            Found::Missing => {}
        }
    }
    end
}

/// A line of the file with an answer that is none of the handout, nor in the place of one.
#[derive(Clone, Copy)]
struct Copied<'a> {
    answer: &'a [u8],
    line: &'a Line,
    /// Its number among the lines of the file, from 0.
    place: usize,
    /// Whether no line below it is one of the handout, or in the place of one.
    is_past: bool,
}

/// A blank of the handout that the file has.
#[derive(Clone, Copy)]
struct Kept<'a> {
    asked: &'a Asked,
    /// The line of the file that is it.
    line: &'a Line,
    /// The number of that among the lines of the file, from 0.
    place: usize,
}

/// Returns a blank of the handout with the line of the file that is it; `None` if it is no blank, or not there. `found`: where it is.
fn kept_blank<'a>(
    asked: &'a Asked,
    student: &'a [Line],
    found: Option<&Found>,
) -> Option<Kept<'a>> {
    let Some(Found::Kept(place)) = found else {
        return None;
    };
    match student.get(*place) {
        Some(line) if asked.is_blank() => Some(Kept {
            asked,
            line,
            place: *place,
        }),
        _ => None,
    }
}

impl Copied<'_> {
    /// Whether this line may be a copy of a blank above it.
    fn is_below(self, blank: Kept<'_>) -> bool {
        blank.place < self.place && is_kept(&blank.asked.line, self.line)
    }

    /// Whether this line is below all of the handout, and has the answer that a blank lacks.
    fn is_for(self, blank: Kept<'_>) -> bool {
        self.is_past && !matches!(blank.line.answer, Answer::Given(_))
    }

    /// Whether this line and a blank have one answer.
    fn is_same(self, blank: Kept<'_>) -> bool {
        match &blank.line.answer {
            Answer::Given(other) => self.answer == other.as_slice(),
            _ => false,
        }
    }

    /// Whether this line is for a blank that is not among `numbers`. If not, the blank is added to those above.
    fn takes(self, blank: Kept<'_>, numbers: &[usize], above: &mut Above) -> bool {
        let number = blank.asked.line.number;
        let is_new = !has_number(numbers, number);
        if is_new && self.is_for(blank) {
            return true;
        }
        above.add(number, blank.place, is_new, self.is_same(blank));
        false
    }

    /// Returns the number of the blank that this line is a copy of: of equal ones above the first that it is for and that is not among `numbers`,
    /// else the one that `chosen` says.
    fn blank_of(
        self,
        handout: &[Asked],
        student: &[Line],
        found: &[Found],
        numbers: &[usize],
    ) -> Option<usize> {
        let mut above = Above::NOTHING;
        'lines: for place in 0..handout.len() {
            let Some(blank) = kept_blank(&handout[place], student, found.get(place)) else {
                continue;
            };
            if self.is_below(blank) && self.takes(blank, numbers, &mut above) {
                return Some(blank.asked.line.number);
            }
        }
        self.chosen(above)
    }

    /// Returns the number of the nearest of equal blanks above. If this line is below all of the handout: of the first with its answer; else
    /// the nearest, if it is next to that; else of the first.
    fn chosen(self, above: Above) -> Option<usize> {
        let nearest = above.nearest?;
        if !self.is_past {
            return Some(nearest);
        }
        if above.same.is_some() {
            return above.same;
        }
        if above.place.saturating_add(1) == self.place {
            return Some(nearest);
        }
        Some(above.first.unwrap_or(nearest))
    }
}

/// The numbers of blanks above a line that may be a copy of them.
#[derive(Clone, Copy)]
struct Above {
    /// The first, of those that no other copy is of.
    first: Option<usize>,
    /// The first that has the line's answer, of those.
    same: Option<usize>,
    /// The last.
    nearest: Option<usize>,
    /// Where the file has the last.
    place: usize,
}

impl Above {
    const NOTHING: Above = Above {
        first: None,
        same: None,
        nearest: None,
        place: 0,
    };

    /// Adds the blank of this number, which the file has at this place; `is_new`: no other copy is of it; `is_same`: it has the line's answer.
    fn add(&mut self, number: usize, place: usize, is_new: bool, is_same: bool) {
        if is_new && self.first.is_none() {
            self.first = Some(number);
        }
        if is_new && is_same && self.same.is_none() {
            self.same = Some(number);
        }
        self.nearest = Some(number);
        self.place = place;
    }
}

/// Whether a number is among some.
fn has_number(numbers: &[usize], number: usize) -> bool {
    'numbers: for one in numbers {
        if *one == number {
            return true;
        }
    }
    false
}

/// Returns the number of the blank that a line of the file, at this place, answers again, if it is not among `numbers`; the lines of the file
/// from `end` on are below all of the handout.
fn again_at(
    handout: &[Asked],
    student: &[Line],
    found: &[Found],
    numbers: &[usize],
    place: usize,
    end: usize,
) -> Option<usize> {
    let line = student.get(place)?;
    let Answer::Given(answer) = &line.answer else {
        return None;
    };
    if is_used(found, place) {
        return None;
    }
    let copied = Copied {
        answer: answer.as_slice(),
        line,
        place,
        is_past: end <= place,
    };
    match copied.blank_of(handout, student, found, numbers) {
        Some(number) if !has_number(numbers, number) => Some(number),
        _ => None,
    }
}

/// Returns the numbers of the blanks that the file answers again.
fn again_of(
    alloc: Global,
    handout: &[Asked],
    student: &[Line],
    found: &[Found],
) -> Result<Vec<usize>, AllocError> {
    let mut numbers = Vec::new(alloc);
    let end = used_end(found);
    'lines: for place in 0..student.len() {
        if let Some(number) = again_at(handout, student, found, numbers.as_slice(), place, end) {
            numbers.push(number)?;
        }
    }
    numbers.sort()?;
    Ok(numbers)
}

impl LineNotes {
    /// Returns which lines of a handout a file has changed, left out or answered more than once; `found` is where each is.
    ///
    /// # Errors
    /// `AllocError`: the host is out of memory.
    pub fn of(
        alloc: Global,
        handout: &[Asked],
        student: &[Line],
        found: &[Found],
    ) -> Result<LineNotes, AllocError> {
        let mut notes = LineNotes {
            changed: Vec::new(alloc),
            missing: Vec::new(alloc),
            again: again_of(alloc, handout, student, found)?,
        };
        notes.add_plain(handout, found)?;
        Ok(notes)
    }

    /// Adds the lines that are no blanks and are changed or missing.
    fn add_plain(&mut self, handout: &[Asked], found: &[Found]) -> Result<(), AllocError> {
        let end = end_of(found);
        'lines: for place in 0..handout.len() {
            let numbers = match found.get(place) {
                Some(Found::Changed(_)) => &mut self.changed,
                Some(Found::Missing) if place < end => &mut self.missing,
                _ => continue,
            };
            let asked = &handout[place];
            if !asked.is_blank() {
                numbers.push(asked.line.number)?;
            }
        }
        Ok(())
    }
}

/// Appends numbers of lines, as `3, 4 and 7`.
fn put_numbers(text: &mut Text, numbers: &[usize]) {
    let shown = numbers.get(..MOST_NUMBERS).unwrap_or(numbers);
    let more = numbers.len().saturating_sub(shown.len());
    let last = if more == 0 { " and " } else { ", " };
    'numbers: for place in 0..shown.len() {
        text.push_str(joint(place, shown.len(), last));
        put_number(text, shown[place]);
    }
    if more > 0 {
        text.push_str(" and ");
        put_number(text, more);
        text.push_str(" more");
    }
}

/// Appends what is so of some lines; nothing if there are none. `; ` stands between two such.
fn put_some(text: &mut Text, numbers: &[usize], one: &str, several: &str) {
    let (before, after) = match numbers.len() {
        0 => return,
        1 => ("line ", one),
        _ => ("lines ", several),
    };
    put_note(text, before);
    put_numbers(text, numbers);
    text.push_str(after);
}

/// Appends which lines a file has changed, left out or answered more than once, in words.
pub fn put_lines(text: &mut Text, notes: &LineNotes) {
    put_some(
        text,
        notes.changed.as_slice(),
        " is changed",
        " are changed",
    );
    put_some(
        text,
        notes.missing.as_slice(),
        " is missing",
        " are missing",
    );
    put_some(
        text,
        notes.again.as_slice(),
        " is there more than once, and the first counts",
        " are there more than once, and the first counts",
    );
}
