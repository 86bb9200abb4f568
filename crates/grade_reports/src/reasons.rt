// `reason_of`: why an answer is wrong, without the right one (`Reason`, an enum; `Excess`: what it has too much); `put_reason`: that in
// words.

use crate::forms::{Part, form_of, put_forms};
use crate::joints::joint;
use crate::visible::{is_unseen, put_quoted};
use handouts::{Answer, Asked, BlankMark, Found, Line, Mark};
use script_reader::first_field;
use std::alloc::{AllocError, Global};
use text_builder::Text;

/// What an answer has too much, if without that it has the form of one.
#[derive(Clone, Copy)]
pub enum Excess {
    /// The `?` of the blank, before the answer or after it.
    Question,
    /// Quotes around it.
    Quotes,
    /// A full stop after it.
    Stop,
    /// Zeros before a number.
    Zeros,
    /// Characters that cannot be seen, as a no-break space.
    Unseen,
    /// Capital letters.
    Capitals,
    /// Something in parentheses after it.
    Remark,
}

/// Why a blank does not have the machine's answer.
#[derive(Drop)]
pub enum Reason {
    /// It is still `?`, or empty.
    Open,
    /// Another line stands in the place of the blank's.
    Changed,
    /// The file does not have the line.
    Gone,
    /// No answer to such a line has the form of this one, which the student wrote.
    Form(String, Option<Excess>),
    /// The machine's answer begins with another word.
    Word,
    /// The word is right, and these parts after it are wrong.
    Parts(Vec<&'static str>),
}

/// Returns the word of a line; empty if it is none.
pub fn word_of(line: &[u8]) -> &str {
    match first_field(line) {
        Some((word, _)) => std::str::from_utf8(word).unwrap_or(""),
        None => "",
    }
}

/// Returns an answer with one blank between its fields.
fn joined(alloc: Global, answer: &[u8]) -> Result<Vec<u8>, AllocError> {
    let mut text = Vec::new(alloc);
    // Whether a blank is the last so far; one before the first field is left out too.
    let mut is_blank = true;
    'bytes: for byte in answer {
        let byte = if *byte == b'\t' { b' ' } else { *byte };
        if byte != b' ' || !is_blank {
            text.push(byte)?;
        }
        is_blank = byte == b' ';
    }
    if is_blank {
        text.pop();
    }
    Ok(text)
}

/// An answer: its word, and what comes after it.
#[derive(Clone, Copy)]
struct Words<'a> {
    first: &'a str,
    rest: &'a str,
    /// How many parts there are after the word.
    count: usize,
}

/// Returns how many parts there are of what comes after an answer's word.
fn part_count(rest: &str) -> usize {
    let mut parts = 1usize;
    'bytes: for byte in rest.as_bytes() {
        if *byte == b' ' {
            parts = parts.saturating_add(1);
        }
    }
    parts
}

/// Splits an answer into its word and what comes after it.
fn cut(answer: &str) -> Words<'_> {
    match answer.split_once(' ') {
        Some((first, rest)) => Words {
            first,
            rest,
            count: part_count(rest),
        },
        None => Words {
            first: answer,
            rest: "",
            count: 0,
        },
    }
}

/// Returns a part of what comes after an answer's word, by its number from 0.
fn part_at(rest: &str, place: usize) -> Option<&str> {
    rest.split(' ').nth(place)
}

/// Whether what comes after an answer's word has this form; `zeros`: there may be some before its numbers.
fn fits(parts: &[Part], answer: Words<'_>, zeros: bool) -> bool {
    if answer.count != parts.len() {
        return false;
    }
    'parts: for place in 0..parts.len() {
        match part_at(answer.rest, place) {
            Some(text) if !parts[place].fits(text, zeros) => return false,
            _ => {}
        }
    }
    true
}

/// Returns the form of an answer, if it is one that answers to a line have, by the line's word; `zeros`: there may be some before its numbers.
fn parts_of(word: &str, answer: Words<'_>, zeros: bool) -> Option<&'static [Part]> {
    match form_of(word, answer.first, answer.count) {
        Some(parts) if fits(parts, answer, zeros) => Some(parts),
        _ => None,
    }
}

/// Whether answers to a line, by its word, have the form of this one; `zeros`: there may be some before its numbers.
fn has_form(word: &str, answer: &str, zeros: bool) -> bool {
    parts_of(word, cut(answer), zeros).is_some()
}

/// The quotes that keyboards and editors write.
static QUOTES: [char; 7] = [
    '"', '\'', '`', '\u{2018}', '\u{2019}', '\u{201c}', '\u{201d}',
];

/// Returns a text without quotes around it.
fn without_quotes(text: &str) -> &str {
    let mut bare = text;
    'quotes: for quote in QUOTES.as_slice() {
        bare = bare.trim_matches(*quote);
    }
    bare
}

/// Returns a text without blanks and `?` around it.
fn without_question(text: &str) -> &str {
    text.trim_matches('?').trim_matches(' ')
}

/// Returns a text without what is in parentheses after it.
fn without_remark(text: &str) -> &str {
    match text.split_once(" (") {
        Some((bare, _)) => bare,
        None => text,
    }
}

/// Returns an answer with a blank in place of what cannot be seen, and one blank between its fields.
fn seen(alloc: Global, answer: &str) -> Result<String, AllocError> {
    let mut text = String::new(alloc);
    // Whether a blank is the last so far; one before the first field is left out too.
    let mut is_blank = true;
    'characters: for character in answer.chars() {
        let character = if is_unseen(character) { ' ' } else { character };
        if character != ' ' || !is_blank {
            text.push(character)?;
        }
        is_blank = character == ' ';
    }
    if is_blank {
        text.pop();
    }
    Ok(text)
}

/// Returns what an answer that has no form has too much, if without that it has one; `word` is its line's, `seen` and `small` are the answer
/// without what cannot be seen and in small letters.
fn excess_of(word: &str, answer: &str, seen: &str, small: &str) -> Option<Excess> {
    if has_form(word, without_question(answer), false) {
        Some(Excess::Question)
    } else if has_form(word, without_quotes(answer).trim_matches(' '), false) {
        Some(Excess::Quotes)
    } else if has_form(word, answer.trim_end_matches('.').trim_matches(' '), false) {
        Some(Excess::Stop)
    } else if has_form(word, without_remark(answer), false) {
        Some(Excess::Remark)
    } else if has_form(word, answer, true) {
        Some(Excess::Zeros)
    } else if has_form(word, seen, false) {
        Some(Excess::Unseen)
    } else if has_form(word, small, false) {
        Some(Excess::Capitals)
    } else {
        None
    }
}

/// Returns that no answer to a line has the form of this one; `word` is the line's.
fn no_form(alloc: Global, word: &str, answer: &str) -> Result<Reason, AllocError> {
    let given = String::from_str(alloc, answer)?;
    let seen = seen(alloc, answer)?;
    let small = answer.to_ascii_lowercase(alloc)?;
    let excess = excess_of(word, answer, seen.as_str(), small.as_str());
    Ok(Reason::Form(given, excess))
}

/// Whether two answers with one word differ in a part that the first has.
fn is_wrong(given: &str, right: &str, place: usize) -> bool {
    match (part_at(given, place), part_at(right, place)) {
        (Some(text), Some(part)) => text != part,
        (Some(_), None) => true,
        (None, _) => false,
    }
}

/// Whether a name is the last of some.
fn is_last(names: &[&'static str], name: &str) -> bool {
    match names.last() {
        Some(last) => *last == name,
        None => false,
    }
}

/// Returns that the parts are wrong in which two answers with one word differ; `given` and `right` are what comes after it.
fn wrong_parts(
    alloc: Global,
    parts: &[Part],
    given: &str,
    right: &str,
) -> Result<Reason, AllocError> {
    let mut names: Vec<&'static str> = Vec::new(alloc);
    'parts: for place in 0..parts.len() {
        let name = parts[place].name();
        if is_wrong(given, right, place) && !is_last(names.as_slice(), name) {
            names.push(name)?;
        }
    }
    if names.is_empty() {
        names.push("detail")?;
    }
    Ok(Reason::Parts(names))
}

/// Returns why an answer to a line, with one blank between its fields, is wrong, beside the right one; `word` is the line's.
fn reason_beside(
    alloc: Global,
    word: &str,
    given: &str,
    right: &str,
) -> Result<Reason, AllocError> {
    let (words, right) = (cut(given), cut(right));
    match parts_of(word, words, false) {
        Some(_) if words.first != right.first => Ok(Reason::Word),
        Some(parts) => wrong_parts(alloc, parts, words.rest, right.rest),
        None => no_form(alloc, word, given),
    }
}

/// Returns why an answer to a line is wrong, whatever blanks part its fields, beside the right one; `word` is the line's.
///
/// # Errors
/// `AllocError`: the host is out of memory.
pub fn reason_of_text(
    alloc: Global,
    word: &str,
    given: &[u8],
    right: &[u8],
) -> Result<Reason, AllocError> {
    let given = joined(alloc, given)?;
    let given = given.as_slice();
    match (std::str::from_utf8(given), std::str::from_utf8(right)) {
        (Ok(given), Ok(right)) => reason_beside(alloc, word, given, right),
        _ => Ok(Reason::Form(String::from_utf8_lossy(alloc, given)?, None)),
    }
}

/// Returns what a student answered at a line.
fn given_at(student: &[Line], found: Found) -> &[u8] {
    let Found::Kept(place) = found else {
        return b"";
    };
    match student.get(place) {
        Some(
            Line {
                answer: Answer::Given(text),
                ..
            },
        ) => text.as_slice(),
        _ => b"",
    }
}

/// Returns why a blank does not have the machine's answer; `None` if it has.
///
/// # Errors
/// `AllocError`: the host is out of memory.
pub fn reason_of(
    alloc: Global,
    handout: &[Asked],
    student: &[Line],
    blank: BlankMark,
) -> Result<Option<Reason>, AllocError> {
    match blank.mark {
        Mark::Right => Ok(None),
        Mark::Open => Ok(Some(Reason::Open)),
        Mark::Changed => Ok(Some(Reason::Changed)),
        Mark::Gone => Ok(Some(Reason::Gone)),
        Mark::Wrong => {
            let Some(asked) = handout.get(blank.place) else {
                return Ok(Some(Reason::Gone));
            };
            let word = word_of(asked.line.bare.as_slice());
            let given = given_at(student, blank.found);
            let reason = reason_of_text(alloc, word, given, asked.right.as_slice())?;
            Ok(Some(reason))
        }
    }
}

/// Whether names name more than one thing.
fn is_plural(names: &[&'static str]) -> bool {
    match names {
        [name] => matches!(*name, "bytes" | "references"),
        _ => true,
    }
}

/// Appends names, as `a, b and c`, and that they are wrong.
fn put_names(text: &mut Text, names: &[&'static str]) {
    'names: for number in 0..names.len() {
        text.push_str(joint(number, names.len(), " and "));
        text.push_str(names[number]);
    }
    text.push_str(if is_plural(names) {
        " are wrong"
    } else {
        " is wrong"
    });
}

/// Returns what to do about what an answer has too much; nothing if that is not known.
fn advice_on(excess: Option<Excess>) -> &'static str {
    match excess {
        Some(Excess::Question) => ": write it without the ?",
        Some(Excess::Quotes) => ": write it without the quotes",
        Some(Excess::Stop) => ": write it without the full stop",
        Some(Excess::Zeros) => ": write numbers without zeros before them",
        Some(Excess::Unseen) => ": write it without the characters that cannot be seen",
        Some(Excess::Capitals) => ": write it in small letters",
        Some(Excess::Remark) => ": write nothing after it",
        None => "",
    }
}

/// Appends which forms the answers to a line have, and what the student wrote, whose form is another; `word` is the line's.
fn put_form(text: &mut Text, word: &str, given: &str, excess: Option<Excess>) {
    text.push_str("an answer of ");
    text.push_str(word);
    text.push_str(" is ");
    put_forms(text, word);
    text.push_str(", not ");
    put_quoted(text, given);
    text.push_str(advice_on(excess));
}

/// Returns the words of a reason that are the same for all answers; none if they are not.
fn fixed_words(reason: &Reason) -> &'static str {
    match reason {
        Reason::Open => "not filled in",
        Reason::Changed => "the line is changed",
        Reason::Gone => "the line is gone",
        Reason::Word => "another word than the machine's",
        Reason::Form(_, _) | Reason::Parts(_) => "",
    }
}

/// Appends why a blank is wrong, in words; `word` is its line's.
pub fn put_reason(text: &mut Text, word: &str, reason: &Reason) {
    text.push_str(word);
    text.push_str(": ");
    match reason {
        Reason::Form(given, excess) => put_form(text, word, given.as_str(), *excess),
        Reason::Parts(names) => put_names(text, names.as_slice()),
        other => text.push_str(fixed_words(other)),
    }
}
