// How texts are joined: `joint`, what stands before one of some; `put_number`, a number; `put_note` and `put_joint`, notes one after the other.

use text_builder::Text;

/// Returns what stands before one of some texts, by its number from 0 and how many they are; `last` stands before the last.
pub fn joint(number: usize, count: usize, last: &'static str) -> &'static str {
    if number == 0 {
        ""
    } else if number.saturating_add(1) == count {
        last
    } else {
        ", "
    }
}

/// Appends a number.
pub fn put_number(text: &mut Text, number: usize) {
    write!(text, "{number}");
}

/// Appends what stands between two notes, unless there is none yet.
pub fn put_joint(notes: &mut Text) {
    if !notes.is_empty() {
        notes.push_str("; ");
    }
}

/// Appends a note; `; ` stands before all but the first.
pub fn put_note(notes: &mut Text, note: &str) {
    put_joint(notes);
    notes.push_str(note);
}
