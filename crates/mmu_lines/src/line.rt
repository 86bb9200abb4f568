// `Line`: a struct, a line of a transcript.

/// A line, without its line feed.
#[derive(Drop)]
pub struct Line {
    pub text: Vec<u8>,
}
