// `put_escaped`: text within HTML and SVG; `put_script_text`: JSON within an element `script`.

ghost use Rattle.pictures.specs.Escaped.{escape, escaped, script_escape, script_escaped};
ghost use Rattle.text_builder.specs.Texts.{Appends};

use text_builder::Text;

/// Puts a character, escaped if HTML reads it otherwise.
fn put_character(out: &mut Text, character: char)
    ensures { Appends out.old out.new (escape character) }
{
    match character {
        '&' => out.push_str("&amp;"),
        '<' => out.push_str("&lt;"),
        '>' => out.push_str("&gt;"),
        '"' => out.push_str("&quot;"),
        other => write!(out, "{other}"),
    }
}

/// Puts a text, in which the characters that HTML reads otherwise are escaped.
pub fn put_escaped(out: &mut Text, text: &str)
    ensures { Appends out.old out.new (escaped text.now) }
{
    'characters: for character in text.chars() {
        put_character(out, character);
    }
}

/// Puts a character of JSON; `<`, which there is only within texts, by its number.
fn put_script_character(out: &mut Text, character: char)
    ensures { Appends out.old out.new (script_escape character) }
{
    match character {
        '<' => out.push_str("\\u003c"),
        other => write!(out, "{other}"),
    }
}

/// Puts JSON within an element `script`, which no text in it can end: it has no `<`.
pub fn put_script_text(out: &mut Text, text: &str)
    ensures { Appends out.old out.new (script_escaped text.now) }
{
    'characters: for character in text.chars() {
        put_script_character(out, character);
    }
}
