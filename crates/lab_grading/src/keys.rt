// `key`: the handout of a lab with the machine's answers in place of its blanks.

use crate::played_handouts::play_handout;
use handouts::Asked;
use lab_host::{Fault, Printout, put_lossy};
use text_builder::Text;

/// Returns the machine's answer at the blank of this line, if there is one.
fn answer_at(handout: &[Asked], number: usize) -> Option<&[u8]> {
    'lines: for asked in handout {
        if asked.line.number == number && asked.is_blank() {
            return Some(asked.right.as_slice());
        }
    }
    None
}

/// Appends a line of a handout, with the machine's answer in place of the `?` at its end, if it is a blank.
fn put_line(out: &mut Text, line: &str, answer: Option<&[u8]>) {
    match (answer, line.strip_suffix('?')) {
        (Some(answer), Some(bare)) => {
            out.push_str(bare);
            put_lossy(out, answer)
        }
        _ => out.push_str(line),
    }
}

/// Plays a handout, and returns it with the machine's answers in place of its blanks; `name` is what it is called, if it is refused.
///
/// # Errors
/// Those of `play_handout`.
pub fn key(out: &mut Printout, name: &str, handout: &str) -> Result<String, Fault> {
    let asked = play_handout(out, name, handout.as_bytes())?;
    let mut text = Text::new(out.allocator());
    let mut number = 0usize;
    'lines: for line in handout.split('\n') {
        if number > 0 {
            text.push_str("\n");
        }
        number = number.saturating_add(1);
        put_line(&mut text, line, answer_at(asked.as_slice(), number));
    }
    Ok(text.finish()?)
}
