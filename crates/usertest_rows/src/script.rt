// `Line`: a line of a script, with what the generator predicts of its answer.

/// What the generator predicts of an answer.
#[derive(Drop)]
pub enum Expected {
    /// There is none: the line is a declaration.
    Nothing,
    /// There is any.
    Any,
    /// It begins with these words.
    Begins(String),
    /// A kernel copy stops after so many bytes: `short RULE NAME done N`.
    Short(u64),
}

/// A line of a script.
#[derive(Drop)]
pub struct Line {
    pub text: String,
    pub expected: Expected,
}
