// The law that a script played line by line is answered as `play` answers it.

ghost use Rattle.std.specs.Prelude.{◌≡◌, ℕ, List, Ok};
ghost use Rattle.script_language.specs.Lines.{raw_lines};
ghost use Rattle.script_language.specs.Script.{Script, script_of};
ghost use Rattle.script_language.specs.Text.{text_of};
ghost use Rattle.line_player.specs.PlayedLines.{nothing_played, played_text};

/// The answers of the lines of a faultless script, one after the other, each with a line end, are its text.
pub fn answers_are_the_text()
    ensures { (bytes : List ℕ) (s : Script) → script_of bytes ≡ Ok s → played_text nothing_played (raw_lines bytes) ≡ text_of s }
{}
