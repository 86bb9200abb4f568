// Splits text without copying it: a text into lines, a line into fields (by spaces or tabs), a field into pieces (by
// colons). And drops the carriage return at a line's end.

ghost use Rattle.std.specs.Prelude.{◌≡◌, ◌<◌, ◌-◌, ◌++◌, ◌∷◌, [], drop, length, IfSome, MatchOption};
ghost use Rattle.std.specs.List.{position_or_len, prefix_len};
ghost use Rattle.script_language.specs.Lines as words;

use memchr::{memchr, memchr2};

/// The number of bytes before the first line feed; all bytes if there is none.
fn line_len(text: &[u8]) -> usize
    ensures { result ≡ position_or_len words.is_line_end text.now }
{
    memchr(b'\n', text).unwrap_or(text.len())
}

/// Splits a text that is not empty: returns its first line, without the line feed, and what follows the line feed.
pub fn first_line(text: &[u8]) -> (&[u8], &[u8])
    requires { 0 < length text.now }
    ensures line { words.raw_lines text.now ≡ result.0.now ∷ words.raw_lines result.1.now }
    ensures less { length result.1.now < length text.now }
{
    let (line, rest) = text.split_at(line_len(text));
    match rest {
        [_, rest @ ..] => (line, rest),
        [] => (line, rest),
    }
}

/// Returns the line without the carriage return at its end, if it has one there.
pub fn trim_return(line: &[u8]) -> &[u8]
    ensures { result.now ≡ words.without_return line.now }
{
    match line {
        [front @ .., b'\r'] => front,
        _ => line,
    }
}

/// Whether the byte is a space or a tab.
pub fn is_blank(byte: u8) -> bool
    ensures { result ≡ words.is_blank byte }
{
    byte == b' ' || byte == b'\t'
}

/// The number of blanks that a line begins with.
fn blank_len(line: &[u8]) -> usize
    ensures { result ≡ prefix_len words.is_blank line.now }
{
    line.iter().take_while(|byte| is_blank(**byte)).count()
}

/// The number of bytes before the first blank; all bytes if there is none.
fn field_len(line: &[u8]) -> usize
    ensures { result ≡ position_or_len words.is_blank line.now }
{
    memchr2(b' ', b'\t', line).unwrap_or(line.len())
}

/// Splits off the first field of a line: returns it and what follows it. `None`: the line has no field.
pub fn first_field(line: &[u8]) -> Option<(&[u8], &[u8])>
    ensures field { MatchOption result (words.fields_of line.now ≡ []) (λ found. words.fields_of line.now ≡ found.0.now ∷ words.fields_of found.1.now) }
    ensures less { MatchOption result (Unit {0}) (λ found. length found.1.now < length line.now) }
    ensures place { IfSome result (λ found. found.0.now ++ found.1.now ≡ drop (length line.now - length (found.0.now ++ found.1.now)) line.now) }
{
    let (_, line) = line.split_at(blank_len(line));
    if line.is_empty() {
        return None;
    }
    Some(line.split_at(field_len(line)))
}

/// The number of bytes before the first colon; all bytes if there is none.
fn piece_len(field: &[u8]) -> usize
    ensures { result ≡ position_or_len words.is_colon field.now }
{
    memchr(b':', field).unwrap_or(field.len())
}

/// Splits off the first piece of a field: returns it and what follows its colon, `None` after the last piece.
pub fn first_piece(field: &[u8]) -> (&[u8], Option<&[u8]>)
    ensures { MatchOption result.1 (words.pieces_of field.now ≡ result.0.now ∷ []) (λ rest. words.pieces_of field.now ≡ result.0.now
        ∷ words.pieces_of rest.now) }
{
    let (piece, rest) = field.split_at(piece_len(field));
    match rest {
        [_, rest @ ..] => (piece, Some(rest)),
        [] => (piece, None),
    }
}
