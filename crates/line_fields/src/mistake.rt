// `Mistake`, a struct: what is wrong with a line of a script, as text, and the column of the field at fault.

/// What is wrong with a line of a script, and what would be right.
#[derive(Drop)]
pub struct Mistake {
    /// The column of the field at fault, or of the byte, counted from 1; `None`: the line as a whole is at fault.
    pub column: Option<usize>,
    /// What is wrong, and what would be right, in words: one line, without an end.
    pub text: String,
}

impl Mistake {
    ghost use Rattle.std.specs.Prelude.{◌≡◌, None, Some};

    /// Returns the mistake of a field, or a byte, at this column.
    pub fn at(column: usize, text: String) -> Mistake
        ensures { result.column ≡ Some column }
    {
        Mistake {
            column: Some(column),
            text,
        }
    }

    /// Returns the mistake of a line as a whole.
    pub fn of_line(text: String) -> Mistake
        ensures { result.column ≡ None }
    {
        Mistake { column: None, text }
    }
}
