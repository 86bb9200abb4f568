// A law of lines: what a faultless line says fits what was declared before it.

ghost use Rattle.std.specs.Prelude.{◌≡◌, ℕ, List, Ok, Some};
ghost use Rattle.script_language.specs.Script.{Draft, line_of, no_lines, with_item};
ghost use Rattle.script_language.specs.declared.script.Item.{Item};
ghost use Rattle.script_reader.specs.Playable.{FitsItem, IsSound};

/// What a faultless line says fits the lines before it, and lines that are sound (`IsSound`) stay so with it.
pub fn lines_fit()
    ensures fits { (d : Draft) (line : List ℕ) (i : Item) → line_of d line ≡ Ok (Some i) → FitsItem d i }
    ensures sound { (d : Draft) (line : List ℕ) (i : Item) → line_of d line ≡ Ok (Some i) → IsSound d → IsSound (with_item d i) }
    ensures none { IsSound no_lines }
{}
