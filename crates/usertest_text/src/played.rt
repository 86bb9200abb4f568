// `put_test`: plays the script of a test, compares the answers with what its generator predicts, and appends its functions in C.

ghost use Rattle.std.specs.Prelude.{◌≡◌, ◌++◌, IfOk, map};
ghost use Rattle.std.specs.String.{string_bytes};
ghost use Rattle.line_player.specs.Answers.{HasPlayed};
ghost use Rattle.line_player.specs.PlayedLines.{Played, next_answer, nothing_played};
ghost use Rattle.usertest_text.specs.Answers.{IsAnswered, answers_of, script_bytes};
ghost use Rattle.usertest_text.specs.Table.{table_text};

use crate::fits::fits;
use crate::table::{TextFault, put_lives};
use line_player::LinePlayer;
use std::alloc::{AllocError, Global};
use usertest_rows::{Expected, Life, Line};

/// Why a test cannot be written.
#[derive(Drop)]
pub enum PlayFault {
    /// The host is out of memory.
    Memory,
    /// The machine answers a line otherwise than the generator predicts: the line's number and text, and both answers.
    Differs(String),
}

impl From<AllocError> for PlayFault {
    fn from(_e: AllocError) -> PlayFault {
        PlayFault::Memory
    }
}

/// Plays a line, and returns its answer.
fn answer_line(alloc: Global, player: &mut LinePlayer, line: &[u8]) -> Result<Vec<u8>, AllocError>
    requires played { (s : Played) × HasPlayed player.old s }
    ensures answered { IfOk result (λ answer. (s : Played) → HasPlayed player.old s → IsAnswered player.new answer.items (next_answer s line.now)) }
{
    player.line(line)?;
    Vec::from_slice(alloc, player.answer())
}

/// Plays the lines of a script, and returns their answers, one for each; it is empty if there is none.
fn play(alloc: Global, lines: &[Line]) -> Result<Vec<Vec<u8>>, AllocError>
    ensures answers { IfOk result (λ answers. map (λ it. it.items) answers.items ≡ answers_of nothing_played (script_bytes lines.now)) }
{
    let mut player = LinePlayer::new(alloc)?;
    let mut answers = Vec::new(alloc);
    'lines: for line in lines {
        let answer = answer_line(alloc, &mut player, line.text.as_str().as_bytes())?;
        answers.push(answer)?;
    }
    Ok(answers)
}

/// Returns what the generator predicts, in words.
fn predicted(alloc: Global, expected: &Expected) -> Result<String, AllocError> {
    match expected {
        Expected::Nothing => String::from_str(alloc, "no answer"),
        Expected::Any => String::from_str(alloc, "any answer"),
        Expected::Begins(words) => {
            let words = words.as_str();
            format!(in alloc; "\"{words}\"")
        }
        Expected::Short(count) => format!(in alloc; "\"short .. done {count}\""),
    }
}

/// Returns the fault that a line is answered otherwise than the generator predicts.
fn difference(
    alloc: Global,
    number: usize,
    line: &Line,
    answer: &[u8],
) -> Result<PlayFault, AllocError> {
    let text = line.text.as_str();
    let predicted = predicted(alloc, &line.expected)?;
    let answer = String::from_utf8_lossy(alloc, answer)?;
    let (predicted, answer) = (predicted.as_str(), answer.as_str());
    Ok(PlayFault::Differs(format!(in alloc;
        "{number}: {text}: the generator predicts {predicted}, the machine answers \"{answer}\""
    )?))
}

/// Compares the answers to the lines of a script with what its generator predicts.
///
/// # Errors
/// `Differs`: of the first answer that is another. `Memory`: the host is out of memory.
pub fn compare(alloc: Global, lines: &[Line], answers: &[Vec<u8>]) -> Result<(), PlayFault> {
    let mut number = 0usize;
    'lines: for (line, answer) in lines.iter().zip(answers) {
        number = number.saturating_add(1);
        if !fits(answer.as_slice(), &line.expected) {
            return Err(difference(alloc, number, line, answer.as_slice())?);
        }
    }
    Ok(())
}

/// Plays the lines of a script, and returns the machine's answers, one for each; it is empty if there is none.
///
/// # Errors
/// `Differs`: the machine answers a line otherwise than the generator predicts. `Memory`: the host is out of memory.
pub fn predicted_answers(alloc: Global, lines: &[Line]) -> Result<Vec<Vec<u8>>, PlayFault>
    ensures answers { IfOk result (λ answers. map (λ it. it.items) answers.items ≡ answers_of nothing_played (script_bytes lines.now)) }
{
    let answers = play(alloc, lines)?;
    compare(alloc, lines, answers.as_slice())?;
    Ok(answers)
}

/// Plays the lines of a test's script, and appends the functions of its C program. What their rows expect is what the machine answered.
///
/// # Errors
/// `Differs`: the machine answers a line otherwise than the generator predicts. `Memory`: the host is out of memory.
pub fn put_test(
    alloc: Global,
    out: &mut Vec<u8>,
    lines: &[Line],
    lives: &[Life],
) -> Result<(), PlayFault>
    ensures table { IfOk result (λ _. out.new.items ≡ out.old.items ++ table_text (answers_of nothing_played (script_bytes lines.now)) lives.now) }
{
    let answers = predicted_answers(alloc, lines)?;
    match put_lives(alloc, out, answers.as_slice(), lives) {
        Ok(()) => Ok(()),
        Err(TextFault::Memory) => Err(PlayFault::Memory),
        Err(TextFault::NoLine(step)) => Err(PlayFault::Differs(format!(in alloc;
            "{step}: a row expects the answer to a line that is not there"
        )?)),
    }
}
