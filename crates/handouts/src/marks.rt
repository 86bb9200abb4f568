// `grade_lines`: what a student's file keeps of a handout, and which of its blanks have the machine's answers (`Grade`, a struct).

ghost use Rattle.std.specs.Prelude.{◌≡◌, ◌↔◌, ◌+◌, ◌≤◌, All, IfOk, List, OnOk, Some, if◌then◌else◌, length, option_map, slice_get, vec_len};
ghost use Rattle.handouts.specs.Marks.{HasAnswer, IsAnswer, IsMarked, IsRight, blanks_of, is_blank, is_right, rights_of};
ghost use Rattle.handouts.specs.declared.marks.Asked.{Asked};
ghost use Rattle.handouts.specs.declared.marks.Mark.TheVariants as mark;

use crate::alignment::{Found, align};
use crate::lines::{Answer, Line};
use crate::same::is_same;
use std::alloc::{AllocError, Global};

/// A line of a handout, with the machine's answer to it; empty if it has none.
#[derive(Drop)]
pub struct Asked {
    pub line: Line,
    pub right: Vec<u8>,
}

/// What a student has at a blank.
#[derive(Clone, Copy)]
pub enum Mark {
    /// The machine's answer: the same fields.
    Right,
    /// Nothing yet: `?`.
    Open,
    /// Another answer than the machine's.
    Wrong,
    /// Another line stands in the place of the blank's.
    Changed,
    /// The file does not have the line.
    Gone,
}

/// A blank of a handout, and what a student has there.
#[derive(Clone, Copy)]
pub struct BlankMark {
    /// The number of its line among those of the handout that are neither empty nor comments, from 0.
    pub place: usize,
    /// Where the student's file has that line.
    pub found: Found,
    pub mark: Mark,
}

/// What a student's file has of a handout.
#[derive(Drop)]
pub struct Grade {
    /// How many lines of the handout the file has.
    pub kept: usize,
    /// How many have another line in their place.
    pub changed: usize,
    /// How many are not there.
    pub missing: usize,
    /// How many lines the file has that are none of the handout, nor in the place of one.
    pub added: usize,
    /// Whether the file ends before the handout's last line.
    pub is_cut: bool,
    /// The blanks, in the order of the handout.
    pub blanks: Vec<BlankMark>,
    /// Where each line of the handout is.
    pub found: Vec<Found>,
}

/// How many lines of a handout are kept, changed and missing.
#[derive(Clone, Copy)]
struct Counts {
    kept: usize,
    changed: usize,
    missing: usize,
}

/// Returns the mark of an answer.
fn mark_answer(answer: &Answer, right: &[u8]) -> Mark
    ensures { (result ≡ mark.Right) ↔ IsAnswer answer.now right.now }
{
    match answer {
        Answer::Absent => Mark::Changed,
        Answer::Blank => Mark::Open,
        Answer::Given(text) => {
            if is_same(text.as_slice(), right) {
                Mark::Right
            } else {
                Mark::Wrong
            }
        }
    }
}

/// Returns the mark of a line that the student's file has.
fn mark_line(line: Option<&Line>, right: &[u8]) -> Mark
    ensures { (result ≡ mark.Right) ↔ HasAnswer (option_map (λ l. l.now) line.entry) right.now }
{
    match line {
        Some(line) => mark_answer(&line.answer, right),
        None => Mark::Gone,
    }
}

/// Returns the mark of a blank.
fn mark_of(asked: &Asked, student: &[Line], found: Found) -> Mark
    ensures { (result ≡ mark.Right) ↔ IsRight asked.now student.now found }
{
    match found {
        Found::Kept(place) => mark_line(student.get(place), asked.right.as_slice()),
        Found::Changed(_) => Mark::Changed,
        Found::Missing => Mark::Gone,
    }
}

/// Counts the lines of a handout by where they are.
fn count(found: &[Found]) -> Counts
    ensures { result.kept + result.changed + result.missing ≡ length found.now }
{
    let (mut kept, mut changed, mut missing) = (0usize, 0usize, 0usize);
    'lines: for one in found {
        match one {
            Found::Kept(_) => kept += 1,
            Found::Changed(_) => changed += 1,
            Found::Missing => missing += 1,
        }
    }
    Counts {
        kept,
        changed,
        missing,
    }
}

impl Asked {
    /// Whether the handout leaves the answer blank.
    pub fn is_blank(&self) -> bool
        ensures { result ≡ is_blank self.now.line.answer }
    {
        match self.line.answer {
            Answer::Blank => true,
            Answer::Absent | Answer::Given(_) => false,
        }
    }
}

/// Adds a line of a handout with its mark, if it is a blank.
fn put_mark(
    blanks: &mut Vec<BlankMark>,
    place: usize,
    asked: &Asked,
    student: &[Line],
    found: Found,
) -> Result<(), AllocError>
    ensures counted { OnOk result (vec_len blanks.new ≡ (if is_blank asked.now.line.answer then 1 else 0) + vec_len blanks.old) }
    ensures marked { OnOk result ((h : List Asked) → slice_get h place ≡ Some asked.now → All (IsMarked h student.now) blanks.old.items
        → All (IsMarked h student.now) blanks.new.items) }
{
    if asked.is_blank() {
        let mark = mark_of(asked, student, found);
        blanks.push(BlankMark { place, found, mark })?;
    }
    Ok(())
}

/// Returns where a line of the handout is.
fn place_of(found: &[Found], place: usize) -> Found {
    match found.get(place) {
        Some(found) => *found,
        None => Found::Missing,
    }
}

/// Returns the blanks of a handout with their marks, in their order.
fn marks_of(
    alloc: Global,
    handout: &[Asked],
    student: &[Line],
    found: &[Found],
) -> Result<Vec<BlankMark>, AllocError>
    ensures all { IfOk result (λ v. vec_len v ≡ blanks_of handout.now) }
    ensures marked { IfOk result (λ v. All (IsMarked handout.now student.now) v.items) }
{
    let mut blanks = Vec::new(alloc);
    'lines: for (place, asked) in handout.iter().enumerate() {
        put_mark(&mut blanks, place, asked, student, place_of(found, place))?;
    }
    Ok(blanks)
}

/// Whether a mark is that of the machine's answer.
fn is_right(mark: Mark) -> bool
    ensures { result ≡ is_right mark }
{
    match mark {
        Mark::Right => true,
        Mark::Open | Mark::Wrong | Mark::Changed | Mark::Gone => false,
    }
}

/// Returns how many blanks have the machine's answer.
fn count_right(blanks: &[BlankMark]) -> usize
    ensures exact { result ≡ rights_of blanks.now }
    ensures most { result ≤ length blanks.now }
{
    let mut right = 0usize;
    'blanks: for blank in blanks {
        if is_right(blank.mark) {
            right += 1;
        }
    }
    right
}

impl Grade {
    /// Returns how many blanks have the machine's answer.
    pub fn right(&self) -> usize
        ensures exact { result ≡ rights_of self.now.blanks.items }
        ensures most { result ≤ vec_len self.now.blanks }
    {
        count_right(self.blanks.as_slice())
    }

    /// Returns the first blank that does not have the machine's answer.
    pub fn first_wrong(&self) -> Option<BlankMark> {
        'blanks: for blank in &self.blanks {
            if !is_right(blank.mark) {
                return Some(*blank);
            }
        }
        None
    }
}

/// Returns how many blanks a handout has.
pub fn blank_count(handout: &[Asked]) -> usize
    ensures { result ≡ blanks_of handout.now }
{
    let mut blanks = 0usize;
    'lines: for asked in handout {
        if asked.is_blank() {
            blanks += 1;
        }
    }
    blanks
}

/// Whether the last line of a handout is missing.
fn is_cut(found: &[Found]) -> bool {
    matches!(found.last(), Some(Found::Missing))
}

/// Grades a student's file.
///
/// # Errors
/// `AllocError`: the host is out of memory.
pub fn grade_lines(alloc: Global, handout: &[Asked], student: &[Line]) -> Result<Grade, AllocError>
    ensures lines { IfOk result (λ g. g.kept + g.changed + g.missing ≡ length handout.now) }
    ensures blanks { IfOk result (λ g. vec_len g.blanks ≡ blanks_of handout.now) }
    ensures marked { IfOk result (λ g. All (IsMarked handout.now student.now) g.blanks.items) }
{
    let found = align(alloc, handout, student)?;
    let blanks = marks_of(alloc, handout, student, found.as_slice())?;
    let Counts {
        kept,
        changed,
        missing,
    } = count(found.as_slice());
    let added = student.len().saturating_sub(kept).saturating_sub(changed);
    Ok(Grade {
        kept,
        changed,
        missing,
        added,
        is_cut: is_cut(found.as_slice()),
        blanks,
        found,
    })
}
