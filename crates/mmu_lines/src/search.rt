// `shrink`: removes lines as long as the last one stays not permitted, for the same reason.

ghost use Rattle.std.specs.Prelude.{◌≡◌, ⊤, IfOk, MatchOption};
ghost use Rattle.mmu_lines.specs.Playing.{IsDenied};

use crate::line::Line;
use crate::player::MmuPlayer;
use crate::playing::{denies, play};
use line_fields::field_at;
use mmu_reasons::{Answer, OutcomeLine};
use std::alloc::{AllocError, Global};

/// The most removals that are tried.
pub const MOST_TRIES: usize = 10_000;

/// The most lines that are played to try removals.
pub const MOST_LINES: usize = 10_000_000;

/// More fields than a line for an access has.
const MOST_FIELDS: usize = 32;

/// What is left of lines of which one is not permitted.
#[derive(Drop)]
pub struct Shrunk {
    /// Whether each line before that one is kept.
    pub keeps: Vec<bool>,
    /// The answer to that one, after those that are kept.
    pub answer: Answer,
    /// Whether the search ended before each removal was tried.
    pub is_cut: bool,
}

/// A search for lines that may be removed.
#[derive(Drop)]
struct Search {
    found: Shrunk,
    /// The numbers of the lines that are kept and may be removed.
    places: Vec<usize>,
    /// How many lines are tried to be removed at once.
    size: usize,
    /// How many lines that are kept come before those that are tried next.
    at: usize,
    /// Whether a line was removed since `at` was 0.
    has_removed: bool,
    is_done: bool,
    /// How many lines were played.
    played: usize,
}

/// Whether an answer is without an error; `None` if it is `NOT permitted`.
fn keep_by(answer: &Answer) -> Option<bool> {
    if denies(answer) {
        None
    } else {
        Some(!answer.is_amiss())
    }
}

/// Gives a player a line, and returns whether it is answered without an error; `None` if the answer is `NOT permitted`.
fn keep_of(player: &mut MmuPlayer, line: &Line) -> Result<Option<bool>, AllocError> {
    match player.line(line.text.as_slice())? {
        Some(answer) => Ok(keep_by(&answer)),
        None => Ok(Some(false)),
    }
}

/// Appends, of each line before the first that is not permitted, whether it is answered without an error. Returns whether one is not
/// permitted.
fn put_fine(
    player: &mut MmuPlayer,
    lines: &[Line],
    keeps: &mut Vec<bool>,
) -> Result<bool, AllocError> {
    'lines: for line in lines {
        match keep_of(player, line)? {
            Some(keep) => keeps.push(keep)?,
            None => return Ok(true),
        }
    }
    Ok(false)
}

/// Whether each line before the first that is not permitted is one that is answered without an error; `None` if none is not permitted.
fn fine_lines(alloc: Global, lines: &[Line]) -> Result<Option<Vec<bool>>, AllocError> {
    let mut keeps = Vec::new(alloc);
    let ends = put_fine(&mut MmuPlayer::new(alloc), lines, &mut keeps)?;
    Ok(if ends { Some(keeps) } else { None })
}

/// Whether the first word of a line is this one.
fn begins_with(line: &Line, word: &[u8]) -> bool {
    match field_at(line.text.as_slice(), 0) {
        Some(place) => place.bytes == word,
        None => false,
    }
}

/// Whether a line is kept, by its number, and its first word is this one.
fn is_kept_with(keeps: &[bool], n: usize, line: &Line, word: &[u8]) -> bool {
    keeps.get(n) == Some(&true) && begins_with(line, word)
}

/// The last line that has this first word, of those that are kept.
fn last_with(lines: &[Line], keeps: &[bool], word: &[u8]) -> Option<usize> {
    let mut last = None;
    'lines: for (n, line) in lines.iter().enumerate() {
        if is_kept_with(keeps, n, line, word) {
            last = Some(n);
        }
    }
    last
}

/// Which lines are kept, without those that a later `reset` or `profile` makes void: of those before it the last `profile` stays.
fn since_reset(alloc: Global, lines: &[Line], keeps: &[bool]) -> Result<Vec<bool>, AllocError> {
    let profile = last_with(lines, keeps, b"profile");
    let first = last_with(lines, keeps, b"reset")
        .unwrap_or(0)
        .max(profile.unwrap_or(0));
    let mut kept = Vec::new(alloc);
    'keeps: for (n, keep) in keeps.iter().enumerate() {
        kept.push(*keep && (n >= first || Some(n) == profile))?;
    }
    Ok(kept)
}

/// Whether a line asks for an access by which the hart stores nothing in a PTE: it changes no later outcome.
fn changes_nothing(line: &Line) -> bool {
    let is_access = begins_with(line, b"load")
        || begins_with(line, b"store")
        || begins_with(line, b"fetch");
    if !is_access {
        return false;
    }
    'fields: for n in 1..MOST_FIELDS {
        match field_at(line.text.as_slice(), n) {
            Some(place) if place.bytes == b"set".as_slice() => return false,
            Some(_) => {}
            None => return true,
        }
    }
    false
}

/// Which lines are kept, without those that change nothing.
fn with_changes(alloc: Global, lines: &[Line], keeps: &[bool]) -> Result<Vec<bool>, AllocError> {
    let mut kept = Vec::new(alloc);
    'keeps: for (keep, line) in keeps.iter().zip(lines) {
        kept.push(*keep && !changes_nothing(line))?;
    }
    Ok(kept)
}

/// The numbers of the lines that are kept and may be removed: all but `profile`, without which the hart would be another.
fn places_of(alloc: Global, lines: &[Line], keeps: &[bool]) -> Result<Vec<usize>, AllocError> {
    let mut places = Vec::new(alloc);
    'lines: for (n, line) in lines.iter().enumerate() {
        if keeps.get(n) == Some(&true) && !begins_with(line, b"profile") {
            places.push(n)?;
        }
    }
    Ok(places)
}

/// Whether a word is another one, or both are numbers of lines.
fn is_same_word(one: &str, other: Option<&str>, are_numbers: bool) -> bool {
    match other {
        Some(other) => are_numbers || one == other,
        None => false,
    }
}

/// Whether two texts differ at most in numbers of lines: in words after `line`.
fn is_same_text(one: &str, other: &str) -> bool {
    let mut others = other.split(' ');
    let mut is_number = false;
    'words: for word in one.split(' ') {
        if !is_same_word(word, others.next(), is_number) {
            return false;
        }
        is_number = word == "line";
    }
    others.next().is_none()
}

/// Whether two outcomes are the same but for numbers of lines.
fn is_same_outcome(one: Option<&OutcomeLine>, other: Option<&OutcomeLine>) -> bool {
    match (one, other) {
        (Some(one), Some(other)) => {
            one.by == other.by && one.outcome == other.outcome && one.pte == other.pte
        }
        (None, None) => true,
        _ => false,
    }
}

/// Whether two answers are `NOT permitted` for the same reason, and the walk over memory comes to the same.
fn is_same(one: &Answer, other: &Answer) -> bool {
    match (one, other) {
        (
            Answer::NotPermitted {
                reason: one,
                permitted: first,
            },
            Answer::NotPermitted {
                reason: other,
                permitted: second,
            },
        ) => is_same_text(one.as_str(), other.as_str())
            && is_same_outcome(first.first(), second.first()),
        _ => false,
    }
}

/// Returns what is left with these lines alone, if the answer is the same.
fn left(
    alloc: Global,
    lines: &[Line],
    keeps: Vec<bool>,
    same: &Answer,
) -> Result<Option<Shrunk>, AllocError>
    ensures { IfOk result (λ found. MatchOption found ⊤ (λ s. IsDenied lines.now s.keeps.items s.answer)) }
{
    match play(alloc, lines, keeps.as_slice())? {
        Some(answer) if is_same(same, &answer) => Ok(Some(Shrunk {
            keeps,
            answer,
            is_cut: false,
        })),
        _ => Ok(None),
    }
}

/// Notes that the line of a number is not kept.
fn leave_out(keeps: &mut Vec<bool>, n: usize) {
    if let Some(keep) = keeps.get_mut(n) {
        *keep = false;
    }
}

impl Search {
    /// Which lines are kept without those from `at` up to `end`.
    fn without(&self, alloc: Global, end: usize) -> Result<Vec<bool>, AllocError> {
        let mut keeps = Vec::from_slice(alloc, self.found.keeps.as_slice())?;
        'places: for place in self.places.get(self.at..end).unwrap_or(&[]) {
            leave_out(&mut keeps, *place);
        }
        Ok(keeps)
    }

    /// Whether no removal is left to try, once the last lines were tried.
    fn is_exhausted(&self) -> bool {
        self.places.is_empty() || self.size <= 1 && !self.has_removed
    }

    /// Goes on to the next lines that are to be tried.
    fn turn(&mut self)
        ensures { self.new.found ≡ self.old.found }
    {
        if self.at < self.places.len() {
            return;
        }
        self.at = 0;
        self.is_done = self.is_exhausted();
        self.size -= self.size / 2;
        self.has_removed = false;
    }

    /// Returns what is left without the lines from `at` up to `end`, if the answer is the same.
    fn found_without(
        &self,
        alloc: Global,
        lines: &[Line],
        end: usize,
    ) -> Result<Option<Shrunk>, AllocError>
        ensures { IfOk result (λ found. MatchOption found ⊤ (λ s. IsDenied lines.now s.keeps.items s.answer)) }
    {
        let keeps = self.without(alloc, end)?;
        left(alloc, lines, keeps, &self.found.answer)
    }

    /// Goes on from what was found.
    fn take(&mut self, found: Shrunk)
        ensures { self.new.found ≡ found }
    {
        self.found = found;
        self.has_removed = true;
    }

    /// Tries to remove a run of lines.
    fn step(&mut self, alloc: Global, lines: &[Line]) -> Result<(), AllocError>
        requires { IsDenied lines.now self.old.found.keeps.items self.old.found.answer }
        ensures { IfOk result (λ _. IsDenied lines.now self.new.found.keeps.items self.new.found.answer) }
    {
        let end = self.at.saturating_add(self.size).min(self.places.len());
        self.played = self.played.saturating_add(self.places.len());
        let Some(found) = self.found_without(alloc, lines, end)? else {
            self.at = end;
            self.turn();
            return Ok(());
        };
        self.places = places_of(alloc, lines, found.keeps.as_slice())?;
        self.take(found);
        self.turn();
        Ok(())
    }
}

/// Returns what is left with these lines alone, if the answer is the same; else what is given.
fn fewer(
    alloc: Global,
    lines: &[Line],
    found: Shrunk,
    keeps: Vec<bool>,
) -> Result<Shrunk, AllocError>
    requires { IsDenied lines.now found.keeps.items found.answer }
    ensures { IfOk result (λ s. IsDenied lines.now s.keeps.items s.answer) }
{
    match left(alloc, lines, keeps, &found.answer)? {
        Some(fewer) => Ok(fewer),
        None => Ok(found),
    }
}

/// Returns what is left without the lines that a later `reset` or `profile` makes void, and without those that change nothing, if the answer is
/// the same.
fn begun(alloc: Global, lines: &[Line], found: Shrunk) -> Result<Shrunk, AllocError>
    requires { IsDenied lines.now found.keeps.items found.answer }
    ensures { IfOk result (λ s. IsDenied lines.now s.keeps.items s.answer) }
{
    let keeps = since_reset(alloc, lines, found.keeps.as_slice())?;
    let found = fewer(alloc, lines, found, keeps)?;
    let keeps = with_changes(alloc, lines, found.keeps.as_slice())?;
    fewer(alloc, lines, found, keeps)
}

/// Returns the fewest lines by which the first line that is not permitted stays so, for the same reason: no single line but `profile` can be
/// removed, unless the search was cut. `None` if no line is not permitted.
///
/// # Errors
/// `AllocError`: the host is out of memory.
pub fn shrink(alloc: Global, lines: &[Line]) -> Result<Option<Shrunk>, AllocError>
    ensures { IfOk result (λ shrunk. MatchOption shrunk ⊤ (λ s. IsDenied lines.now s.keeps.items s.answer)) }
{
    let Some(keeps) = fine_lines(alloc, lines)? else {
        return Ok(None);
    };
    let Some(answer) = play(alloc, lines, keeps.as_slice())? else {
        return Ok(None);
    };
    let found = begun(
        alloc,
        lines,
        Shrunk {
            keeps,
            answer,
            is_cut: false,
        },
    )?;
    let places = places_of(alloc, lines, found.keeps.as_slice())?;
    let mut search = Search {
        size: places.len() - places.len() / 2,
        is_done: places.is_empty(),
        found,
        places,
        at: 0,
        has_removed: false,
        played: 0,
    };
    'tries: for _ in 0..MOST_TRIES {
        if search.is_done || search.played >= MOST_LINES {
            break;
        }
        search.step(alloc, lines)?;
    }
    Ok(Some(Shrunk {
        is_cut: !search.is_done,
        ..search.found
    }))
}
