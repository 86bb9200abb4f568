// The comments at the head of a handout: `put_head` writes them; `seed_of` and `is_of_page` read what they say.

ghost use Rattle.std.specs.Prelude.{◌≤◌, length};

use crate::names::Lab;
use std::alloc::{AllocError, Global};
use text_builder::Text;

/// How the second comment of a handout begins that has the numbers of the lab's page.
const OF_PAGE: &str = "# Its numbers are those of the page.";

/// What the second comment of a handout that was made of a seed has before the seed, between it and the lab's name, and behind that.
const BEFORE: &str = "# This is the script of \"";

const BETWEEN: &str = "\", made by xv6lab lab ";

const BEHIND: &str = " --seed. It has other numbers than the page.";

/// Appends a seed. What is no letter, digit or other sign of ASCII stands as the numbers of its bytes: a script has nothing
/// else, and a line end would end the comment.
fn put_seed(text: &mut Text, seed: &str) {
    for (place, byte) in seed.as_bytes().iter().enumerate() {
        match byte {
            b' ' | b'!' | b'#'..=b'[' | b']'..=b'~' => {
                text.push_str(seed.get(place..=place).unwrap_or(""));
            }
            _ => write!(text, "\\x{byte:02x}"),
        }
    }
}

/// Appends the comments at the head: what the lab is, and of which seed the handout is.
pub fn put_head(text: &mut Text, lab: Lab, seed: Option<&str>) {
    text.push_str("# ");
    text.push_str(lab.title());
    text.push_str(" has the questions; fill in each ?, and compare by xv6lab check FILE.\n");
    match seed {
        Some(seed) => {
            text.push_str(BEFORE);
            put_seed(text, seed);
            text.push_str(BETWEEN);
            text.push_str(lab.name());
            text.push_str(BEHIND);
        }
        None => {
            text.push_str(OF_PAGE);
            text.push_str(" One with others for each student: xv6lab lab ");
            text.push_str(lab.name());
            text.push_str(" --seed STUDENT.");
        }
    }
    text.push_str("\n");
}

/// Returns the value of a hexadecimal digit.
fn digit(byte: u8) -> Option<u8> {
    match byte {
        b'0'..=b'9' => Some(byte - b'0'),
        b'a'..=b'f' => Some(byte - b'a' + 10),
        _ => None,
    }
}

/// Returns the byte that a text begins with as a head writes it, `\x` and two digits; `None`: it begins otherwise.
fn escaped(text: &[u8]) -> Option<u8> {
    let [b'\\', b'x', high, low, ..] = text else {
        return None;
    };
    match (digit(*high), digit(*low)) {
        (Some(high), Some(low)) => Some(high << 4 | low),
        _ => None,
    }
}

/// Returns the byte that a text begins with, and how many bytes stand for it; `None`: the text is empty.
fn first_byte(text: &[u8]) -> Option<(u8, usize)> {
    match (escaped(text), text.first()) {
        (Some(byte), _) => Some((byte, 4)),
        (None, Some(byte)) => Some((*byte, 1)),
        (None, None) => None,
    }
}

/// Returns a seed of which `put_seed` wrote this.
fn plain_seed(alloc: Global, named: &[u8]) -> Result<String, AllocError> {
    let (mut bytes, mut rest) = (Vec::new(alloc), named);
    'bytes: for _ in 0..named.len() {
        let Some((byte, length)) = first_byte(rest) else {
            break;
        };
        bytes.push(byte)?;
        rest = rest.get(length..).unwrap_or(&[]);
    }
    String::from_utf8_lossy(alloc, bytes.as_slice())
}

/// Returns the seed in a comment, as `put_seed` writes it, if it is the comment of a handout of a lab.
fn named_in(lab: Lab, comment: &[u8]) -> Option<&[u8]> {
    let Some(rest) = comment.strip_prefix(BEFORE.as_bytes()) else {
        return None;
    };
    let Some(rest) = rest.strip_suffix(BEHIND.as_bytes()) else {
        return None;
    };
    let Some(rest) = rest.strip_suffix(lab.name().as_bytes()) else {
        return None;
    };
    rest.strip_suffix(BETWEEN.as_bytes())
}

/// Whether a byte ends a line, as students may write one.
fn is_end(byte: u8) -> bool {
    byte == b'\n' || byte == b'\r'
}

/// Returns the line of a file that begins at a place, without blanks around it; empty if none begins there.
fn line_at(file: &[u8], place: usize) -> &[u8]
    requires { place ≤ length file.now }
{
    if place > 0 && !is_end(file[place - 1]) {
        return b"";
    }
    let rest = &file[place..];
    'bytes: for length in 0..rest.len() {
        if is_end(rest[length]) {
            return rest[..length].trim_ascii();
        }
    }
    rest.trim_ascii()
}

/// Returns the seed of the handout of a lab from which a file is made, by its head; `None`: it names none.
///
/// # Errors
/// `AllocError`: the host is out of memory.
pub fn seed_of(alloc: Global, lab: Lab, file: &[u8]) -> Result<Option<String>, AllocError> {
    'lines: for place in 0..file.len() {
        match named_in(lab, line_at(file, place)) {
            Some(named) if !named.is_empty() => return Ok(Some(plain_seed(alloc, named)?)),
            _ => {}
        }
    }
    Ok(None)
}

/// Returns whether a file is made from the script of a lab's page, by its head.
pub fn is_of_page(file: &[u8]) -> bool {
    'lines: for place in 0..file.len() {
        if line_at(file, place).starts_with(OF_PAGE.as_bytes()) {
            return true;
        }
    }
    false
}
