// A line with the answer that it expects: `split` takes `LINE => ANSWER` apart.

ghost use Rattle.std.specs.Prelude.{◌≡◌, ◌↔◌, IsTrue, MatchOption};
ghost use Rattle.handouts.specs.Expected.{IsComment, IsWhole, IsApart};

use memchr::memmem;

/// A line without the answer that it expects, and that answer. Blanks around both are dropped.
#[derive(Clone, Copy)]
pub struct Expected<'a> {
    pub line: &'a [u8],
    /// `None` if the line has no `=>`.
    pub answer: Option<&'a [u8]>,
}

/// Whether a line is a comment: its first byte that is no blank is `#`.
fn is_comment(line: &[u8]) -> bool
    ensures { IsTrue result ↔ IsComment line.now }
{
    line.trim_ascii_start().starts_with(b"#")
}

/// Splits a line, without its end, at its first `=>`. A comment has none.
pub fn split(line: &[u8]) -> Expected<'_>
    ensures { MatchOption result.answer (IsWhole line.now result.line.now) (λ answer. IsApart line.now result.line.now answer.now) }
{
    let whole = Expected { line, answer: None };
    if is_comment(line) {
        return whole;
    }
    let Some(at) = memmem::find(line, b"=>") else {
        return whole;
    };
    let (_, after) = line.split_at(at + 2);
    Expected {
        line: line[..at].trim_ascii_end(),
        answer: Some(after.trim_ascii()),
    }
}
