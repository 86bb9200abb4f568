// The lines of a handout, of templates in which names between braces stand for numbers: `put`, and `put_line`.

use text_builder::Text;

/// The column after which a line's answer stands.
const ANSWER_COLUMN: usize = 34;

/// How a number stands in a handout.
#[derive(Clone, Copy)]
pub enum Form {
    /// In decimal digits.
    Count,
    /// In hexadecimal digits, as `0x1000`.
    Hex,
    /// Its lowest bytes, of this number, the lowest first, as HEX of a script.
    Bytes(u32),
}

/// A name of a template, and how its number stands in a handout.
pub type Name = (&'static str, Form);

/// The names of a template, and their numbers, in the same order.
#[derive(Clone, Copy)]
pub struct Values<'a> {
    pub names: &'static [Name],
    pub numbers: &'a [u64],
}

/// Appends the lowest bytes of a number.
fn put_bytes(text: &mut Text, number: u64, count: u32) {
    let mut rest = number;
    for _ in 0..count {
        let byte = rest & 0xff;
        write!(text, "{byte:02x}");
        rest >>= 8;
    }
}

/// Appends a number.
fn put_number(text: &mut Text, form: Form, number: u64) {
    match form {
        Form::Count => write!(text, "{number}"),
        Form::Hex => write!(text, "{number:#x}"),
        Form::Bytes(count) => put_bytes(text, number, count),
    }
}

/// Appends the number of a name.
fn put_value(text: &mut Text, values: Values<'_>, name: &str) {
    for (place, (its_name, form)) in values.names.iter().enumerate() {
        if *its_name == name
            && let Some(number) = values.numbers.get(place)
        {
            return put_number(text, *form, *number);
        }
    }
}

/// Appends a part of a template, with numbers in place of names between braces.
fn put_filled(text: &mut Text, part: &str, values: Values<'_>) {
    for piece in part.split('{') {
        match piece.split_once('}') {
            Some((name, after)) => {
                put_value(text, values, name);
                text.push_str(after);
            }
            None => text.push_str(piece),
        }
    }
}

/// Appends a line of a template, and its answer in a column.
pub fn put_line(text: &mut Text, line: &str, answer: &str, values: Values<'_>) {
    let start = text.as_str().len();
    put_filled(text, line, values);
    for _ in text.as_str().len()..start.saturating_add(ANSWER_COLUMN) {
        text.push_str(" ");
    }
    text.push_str(" => ");
    put_filled(text, answer, values);
    text.push_str("\n");
}

/// Appends the lines of a template: comments, declarations, and lines with ` => ` and an answer, which is `?` if it is a blank.
pub fn put(text: &mut Text, template: &str, values: Values<'_>) {
    for line in template.split('\n') {
        match line.split_once(" => ") {
            Some((line, answer)) => put_line(text, line, answer, values),
            None => {
                put_filled(text, line, values);
                text.push_str("\n");
            }
        }
    }
}
