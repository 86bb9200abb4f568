// `Visible`: a text that others wrote, as it is shown; `put_quoted`: such a text between quotes.

use std::fmt;
use text_builder::Text;

/// The most characters of a text that is quoted whole.
const LONGEST_QUOTE: usize = 60;

/// How many characters of a longer text are quoted: the first ones, and the last ones.
const QUOTED_FIRST: usize = 40;

const QUOTED_LAST: usize = 12;

/// A text that others wrote, as the name of a file: what cannot be seen, or would move what is shown, is `\u{..}` with its number.
#[derive(Clone, Copy)]
pub struct Visible<'a>(pub &'a str);

/// Whether a character cannot be seen or told from a blank, ends a line, or turns the direction of the text.
pub(crate) fn is_unseen(character: char) -> bool {
    match character {
        '\u{a0}' | '\u{ad}' | '\u{1680}' | '\u{3000}' | '\u{feff}' => true,
        '\u{2000}'..='\u{200f}' | '\u{2028}'..='\u{202f}' | '\u{205f}'..='\u{206f}' => true,
        other => other.is_control(),
    }
}

/// A character as it is shown.
#[derive(Clone, Copy)]
struct Shown(char);

impl fmt::Display for Shown {
    fn fmt<W: fmt::Write>(&self, f: &mut fmt::Formatter<W>) -> fmt::Result {
        let character = self.0;
        if is_unseen(character) {
            let number = u32::from(character);
            write!(f, "\\u{{{number:x}}}")
        } else {
            f.write_char(character)
        }
    }
}

impl fmt::Display for Visible<'_> {
    fn fmt<W: fmt::Write>(&self, f: &mut fmt::Formatter<W>) -> fmt::Result {
        'characters: for character in self.0.chars() {
            fmt::Display::fmt(&Shown(character), f)?;
        }
        Ok(())
    }
}

/// Appends a text as it is shown.
pub(crate) fn put_visible(out: &mut Text, text: &str) {
    let shown = Visible(text);
    write!(out, "{shown}");
}

/// Appends a character as it is quoted.
fn put_character(out: &mut Text, character: char) {
    match character {
        '"' => out.push_str("\\\""),
        '\\' => out.push_str("\\\\"),
        other => {
            let shown = Shown(other);
            write!(out, "{shown}");
        }
    }
}

/// Appends a character of a text of so many that is quoted, by its place there, or two dots for those that are left out.
fn put_place(out: &mut Text, place: usize, count: usize, character: char) {
    if count <= LONGEST_QUOTE
        || place < QUOTED_FIRST
        || place.saturating_add(QUOTED_LAST) >= count
    {
        put_character(out, character);
    } else if place == QUOTED_FIRST {
        out.push_str("..");
    }
}

/// Appends a text between quotes; of one with more than 60 characters the first 40 and the last 12, and two dots between them.
pub fn put_quoted(out: &mut Text, text: &str) {
    out.push_str("\"");
    let count = text.chars().count();
    let mut place = 0usize;
    'characters: for character in text.chars() {
        put_place(out, place, count, character);
        place = place.saturating_add(1);
    }
    out.push_str("\"");
}
