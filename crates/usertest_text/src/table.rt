// `put_lives`: appends the functions of a test. Each row that expects something has it from the machine's answer.

ghost use Rattle.std.specs.Prelude.{◌≡◌, ◌+◌, ◌++◌, IfOk, IfSome, drop, map, if◌then◌else◌};
ghost use Rattle.script_language.specs.Lines.{fields_of};
ghost use Rattle.usertest_rows.specs.declared.rows.Call.TheVariants as calls;
ghost use Rattle.usertest_text.specs.Table as table;

use script_reader::first_field;
use std::alloc::{AllocError, Global};
use usertest_rows::{Call, Life, Row, StepRow};

/// Why functions cannot be written.
#[derive(Clone, Copy)]
pub enum TextFault {
    /// The host is out of memory.
    Memory,
    /// A row of this step expects the answer to a line that is not there.
    NoLine(usize),
}

impl From<AllocError> for TextFault {
    fn from(_e: AllocError) -> TextFault {
        TextFault::Memory
    }
}

/// Returns the first word of a text; it is empty if there is none.
fn first_word(text: &[u8]) -> &[u8]
    ensures { result.now ≡ table.word_of 0 text.now }
{
    match first_field(text) {
        Some((word, _)) => word,
        None => b"",
    }
}

/// Returns a text after its first word.
fn after_word(text: &[u8]) -> &[u8]
    ensures { fields_of result.now ≡ drop 1 (fields_of text.now) }
{
    match first_field(text) {
        Some((_, rest)) => rest,
        None => b"",
    }
}

/// Returns a text after so many words.
fn after_words(text: &[u8], number: usize) -> &[u8]
    ensures { fields_of result.now ≡ drop number (fields_of text.now) }
{
    let mut rest = text;
    'words: for _index in 0..number {
        rest = after_word(rest);
    }
    rest
}

/// Returns a word of an answer, counted from 0; it is empty if there is none.
pub fn word(answer: &[u8], number: usize) -> &[u8]
    ensures { result.now ≡ table.word_of number answer.now }
{
    first_word(after_words(answer, number))
}

/// Appends bytes.
fn put(out: &mut Vec<u8>, bytes: &[u8]) -> Result<(), AllocError>
    ensures { IfOk result (λ _. out.new.items ≡ out.old.items ++ bytes.now) }
{
    out.extend_from_slice(bytes)
}

/// Appends a text between quotation marks.
fn put_quoted(out: &mut Vec<u8>, bytes: &[u8]) -> Result<(), AllocError>
    ensures { IfOk result (λ _. out.new.items ≡ out.old.items ++ table.quoted bytes.now) }
{
    put(out, b"\"")?;
    put(out, bytes)?;
    put(out, b"\"")
}

/// Returns the name of the function of the runtime.
fn call_name(call: Call) -> &'static [u8]
    ensures { result.now ≡ table.call_name call }
{
    match call {
        Call::Load => b"ld",
        Call::Peek => b"peek",
        Call::Grow => b"grow",
        Call::In => b"in",
        Call::Out => b"out",
        Call::Map => b"map",
        Call::Show => b"show",
        Call::Reap => b"reap",
        Call::Held => b"held",
        Call::Used => b"used",
    }
}

/// Returns how many lines after the first line of its step the line stands whose answer a row expects.
fn lines_before(call: Call) -> usize
    ensures { result ≡ table.lines_before call }
{
    match call {
        Call::Load => 2,
        Call::Peek => 7,
        Call::Grow | Call::In | Call::Out | Call::Map | Call::Reap => 1,
        Call::Show | Call::Held | Call::Used => 0,
    }
}

/// Appends how many bytes a copy from a process has made, and which, if it made all.
fn put_copy(out: &mut Vec<u8>, answer: &[u8]) -> Result<(), AllocError>
    ensures { IfOk result (λ _. out.new.items ≡ out.old.items ++ table.expected_of calls.In answer.now) }
{
    if word(answer, 0) == b"copied".as_slice() {
        put(out, word(answer, 1))?;
        put(out, b", ")?;
        return put_quoted(out, word(answer, 2));
    }
    put(out, word(answer, 4))?;
    put(out, b", ")?;
    put_quoted(out, b"")
}

/// Returns one of two texts: the first if this is the first word of an answer.
fn either<'a>(answer: &[u8], first: &[u8], chosen: &'a [u8], other: &'a [u8]) -> &'a [u8]
    ensures { result.now ≡ (if table.begins first.now answer.now then chosen.now else other.now) }
{
    if word(answer, 0) == first {
        chosen
    } else {
        other
    }
}

/// Appends what a row expects, of the machine's answer.
fn put_expected(out: &mut Vec<u8>, call: Call, answer: &[u8]) -> Result<(), AllocError>
    ensures { IfOk result (λ _. out.new.items ≡ out.old.items ++ table.expected_of call answer.now) }
{
    match call {
        Call::Load | Call::Peek | Call::Grow => put(out, word(answer, 1)),
        Call::In => put_copy(out, answer),
        Call::Out => put(
            out,
            either(answer, b"copied", word(answer, 1), word(answer, 4)),
        ),
        Call::Map => put(out, either(answer, b"at", b"1", b"0")),
        Call::Show => put_quoted(out, word(answer, 2)),
        Call::Reap => put(out, either(answer, b"exited", word(answer, 1), b"-1")),
        Call::Held | Call::Used => put(out, word(answer, 3)),
    }
}

/// Returns the answer to the line of this number, counted from 1.
fn answer_to(answers: &[Vec<u8>], line: usize) -> Option<&[u8]>
    ensures { IfSome result (λ answer. answer.now ≡ table.answer_to (map (λ it. it.items) answers.now) line) }
{
    match answers.get(line.checked_sub(1)?) {
        Some(answer) => Some(answer.as_slice()),
        None => None,
    }
}

/// Returns the answer that a row expects.
fn answer_for<'a>(answers: &'a [Vec<u8>], step: &StepRow) -> Option<&'a [u8]>
    ensures { IfSome result (λ answer. answer.now ≡ table.answer_to (map (λ it. it.items) answers.now) (step.now.step + table.lines_before (step.now.call))) }
{
    answer_to(answers, step.step.checked_add(lines_before(step.call))?)
}

/// Appends a row that expects something.
///
/// # Errors
/// `NoLine`: there is no such answer. `Memory`: the host is out of memory.
fn put_step(
    alloc: Global,
    out: &mut Vec<u8>,
    answers: &[Vec<u8>],
    step: &StepRow,
) -> Result<(), TextFault>
    ensures { IfOk result (λ _. out.new.items ≡ out.old.items ++ table.step_text (map (λ it. it.items) answers.now) step.now) }
{
    let Some(answer) = answer_for(answers, step) else {
        return Err(TextFault::NoLine(step.step));
    };
    let number = step.step;
    put(out, b"  ")?;
    put(out, call_name(step.call))?;
    put(out, b"(")?;
    put(out, format!(in alloc; "{number}")?.as_str().as_bytes())?;
    put(out, b", ")?;
    put(out, step.arguments.as_str().as_bytes())?;
    put_expected(out, step.call, answer)?;
    Ok(put(out, b");\n")?)
}

/// Appends a row.
fn put_row(
    alloc: Global,
    out: &mut Vec<u8>,
    answers: &[Vec<u8>],
    row: &Row,
) -> Result<(), TextFault>
    ensures { IfOk result (λ _. out.new.items ≡ out.old.items ++ table.row_text (map (λ it. it.items) answers.now) row.now) }
{
    match row {
        Row::Text(text) => Ok(put(out, text.as_str().as_bytes())?),
        Row::Step(step) => put_step(alloc, out, answers, step),
    }
}

/// Appends a function.
fn put_life(
    alloc: Global,
    out: &mut Vec<u8>,
    answers: &[Vec<u8>],
    life: &Life,
) -> Result<(), TextFault>
    ensures { IfOk result (λ _. out.new.items ≡ out.old.items ++ table.life_text (map (λ it. it.items) answers.now) life.now) }
{
    'rows: for row in life.rows.as_slice() {
        put_row(alloc, out, answers, row)?;
    }
    Ok(())
}

/// Appends functions.
pub fn put_lives(
    alloc: Global,
    out: &mut Vec<u8>,
    answers: &[Vec<u8>],
    lives: &[Life],
) -> Result<(), TextFault>
    ensures { IfOk result (λ _. out.new.items ≡ out.old.items ++ table.table_text (map (λ it. it.items) answers.now) lives.now) }
{
    'lives: for life in lives {
        put_life(alloc, out, answers, life)?;
    }
    Ok(())
}
