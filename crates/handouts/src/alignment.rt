// `align`: finds the lines of a handout in a student's file, as many as can be found in order. `Found`, an enum: where one is.

ghost use Rattle.std.specs.Prelude.{◌≡◌, IfOk, length, vec_len};

use crate::lines::{Answer, Line};
use crate::marks::Asked;
use crate::same::is_kept;
use std::alloc::{AllocError, Global};

/// Where a line of the handout is in a student's file, by the number of a line there, from 0.
#[derive(Clone, Copy)]
pub enum Found {
    /// This line is it.
    Kept(usize),
    /// This line stands in its place.
    Changed(usize),
    Missing,
}

/// For the last `a` lines of a handout and the last `b` of a file, at `[a][b]`: how many lines of the handout can be found in order.
#[derive(Drop)]
struct Table {
    rows: Vec<Vec<u16>>,
}

impl Table {
    /// Returns how many of the last lines of the handout can be found in so many last lines of the file.
    fn at(&self, handout: usize, student: usize) -> u16 {
        let Some(row) = self.rows.get(handout) else {
            return 0;
        };
        match row.get(student) {
            Some(most) => *most,
            None => 0,
        }
    }

    /// Returns how many of the last lines of the handout can be found in the lines of the file after this place.
    fn after(&self, handout: usize, student: &[Line], place: usize) -> u16 {
        self.at(
            handout,
            student.len().saturating_sub(place).saturating_sub(1),
        )
    }
}

/// Returns the row of one line more of the handout.
fn next_row(
    alloc: Global,
    asked: &Asked,
    student: &[Line],
    above: &[u16],
) -> Result<Vec<u16>, AllocError> {
    let mut row = Vec::with_capacity(alloc, above.len())?;
    let (mut left, mut corner) = (0u16, 0u16);
    row.push(0)?;
    'lines: for count in 0..student.len() {
        let Some(up) = above.get(count + 1) else {
            break;
        };
        let most = if is_kept(&asked.line, &student[student.len() - count - 1]) {
            corner.saturating_add(1)
        } else {
            left.max(*up)
        };
        row.push(most)?;
        left = most;
        corner = *up;
    }
    Ok(row)
}

/// Returns the row of no line of the handout.
fn first_row(alloc: Global, student: &[Line]) -> Result<Vec<u16>, AllocError> {
    Ok(vec![in alloc; 0; student.len().saturating_add(1)]?)
}

/// Returns the last of some rows.
fn last_row(rows: &[Vec<u16>]) -> &[u16] {
    match rows.last() {
        Some(row) => row.as_slice(),
        None => &[],
    }
}

/// Returns how many lines can be found, for all ends of both.
fn table_of(alloc: Global, handout: &[Asked], student: &[Line]) -> Result<Table, AllocError> {
    let mut rows = Vec::new(alloc);
    rows.push(first_row(alloc, student)?)?;
    'lines: for count in 0..handout.len() {
        let asked = &handout[handout.len() - count - 1];
        let row = next_row(alloc, asked, student, last_row(rows.as_slice()))?;
        rows.push(row)?;
    }
    Ok(Table { rows })
}

/// Returns the first line of the file, from `next` on, that is the handout's and leaves as many lines to be found as can be, or a copy next to
/// it that has an answer; `after` is how many lines of the handout come after this one.
fn place_of(
    table: &Table,
    asked: &Asked,
    after: usize,
    student: &[Line],
    next: usize,
) -> Option<usize> {
    let most = table.at(after.saturating_add(1), student.len().saturating_sub(next));
    'lines: for place in next..student.len() {
        let with_it = table.after(after, student, place).saturating_add(1);
        if with_it < most {
            return None;
        }
        if with_it == most && is_kept(&asked.line, &student[place]) {
            return Some(answered_place(table, asked, after, student, place));
        }
    }
    None
}

/// Returns the first line of the file with an answer among those from `place` on that are the handout's, next to one another, and leave as many
/// lines to be found; `place` if there is none.
fn answered_place(
    table: &Table,
    asked: &Asked,
    after: usize,
    student: &[Line],
    place: usize,
) -> usize {
    let most = table.after(after, student, place);
    'lines: for next in place..student.len() {
        let written = &student[next];
        if table.after(after, student, next) < most || !is_kept(&asked.line, written) {
            break;
        }
        if matches!(written.answer, Answer::Given(_)) {
            return next;
        }
    }
    place
}

/// Returns for each line of the handout the line of the file that is it, if one is.
fn places_of(
    alloc: Global,
    handout: &[Asked],
    student: &[Line],
) -> Result<Vec<Option<usize>>, AllocError>
    ensures { IfOk result (λ v. vec_len v ≡ length handout.now) }
{
    let table = table_of(alloc, handout, student)?;
    let mut places = Vec::new(alloc);
    let mut next = 0usize;
    'lines: for (number, asked) in handout.iter().enumerate() {
        let after = handout.len().saturating_sub(number).saturating_sub(1);
        let place = place_of(&table, asked, after, student, next);
        if let Some(place) = place {
            next = place.saturating_add(1);
        }
        places.push(place)?;
    }
    Ok(places)
}

/// Returns the first of some places, or `end` if there is none.
fn first_place(places: &[Option<usize>], end: usize) -> usize {
    'places: for place in places {
        if let Some(place) = place {
            return *place;
        }
    }
    end
}

/// Returns where a line of the handout is: at `place`, if it is kept; else `next` stands in its place, if that is before the first of the
/// places from this line's on, or before `end` if there is none.
fn found_at(place: Option<usize>, next: usize, rest: &[Option<usize>], end: usize) -> Found {
    match place {
        Some(place) => Found::Kept(place),
        None if next < first_place(rest, end) => Found::Changed(next),
        None => Found::Missing,
    }
}

/// Returns the line of the file after one that is found; `next` if none is.
fn line_after(found: Found, next: usize) -> usize {
    match found {
        Found::Kept(place) | Found::Changed(place) => place.saturating_add(1),
        Found::Missing => next,
    }
}

/// Finds each line of the handout in a student's file. As many as can be are kept, in order: each the first that may be it, or, if that has no
/// answer, the first copy next to it that has one. Between two that are kept, the lines of the handout that are not, and those of the file,
/// stand in one another's place one by one.
///
/// # Errors
/// `AllocError`: the host is out of memory.
pub fn align(alloc: Global, handout: &[Asked], student: &[Line]) -> Result<Vec<Found>, AllocError>
    ensures { IfOk result (λ v. vec_len v ≡ length handout.now) }
{
    let places = places_of(alloc, handout, student)?;
    let mut found = Vec::new(alloc);
    let mut next = 0usize;
    'lines: for (number, place) in places.iter().enumerate() {
        let rest = places.get(number..).unwrap_or(&[]);
        let one = found_at(*place, next, rest, student.len());
        next = line_after(one, next);
        found.push(one)?;
    }
    Ok(found)
}
