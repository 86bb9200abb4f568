// `Game`: a quiz whose script was played: the answers, what happened on each line, and which lines are asked.

ghost use Rattle.std.specs.Prelude.{IfOk};
ghost use Rattle.line_player.specs.Answers.{HasPlayed};
ghost use Rattle.line_player.specs.PlayedLines.{Played};

use crate::usertest::difference;
use grade_reports::{Reason, put_reason as put_wrong, reason_of_text, word_of};
use handouts::plain_line;
use lab_host::{Fault, is_among};
use line_player::LinePlayer;
use line_traces::{Ledger, put_trace, trace_line};
use mmu_lines::{Answer, MmuPlayer, put_answer};
use pictures::{QuizQuestion, put_picture};
use quiz_answers::{
    OUTCOME_FORM, OUTCOMES, Script, choose, completed, form_of, has_form, is_right, missed_parts,
    plain_parts,
};
use quizzes::{Quiz, Subject, Teller, make};
use script_reader::{first_field, number};
use std::alloc::{AllocError, Global};
use text_builder::Text;
use usertest_rows::Line;
use usertest_text::{PlayFault, compare, predicted_answers};

/// What happens on each line of a script and, if it is to be drawn, a picture of the machine after it.
#[derive(Drop)]
struct Seen {
    alloc: Global,
    draws: bool,
    /// What was taken and given back since the last audit.
    ledger: Ledger,
    traces: Vec<String>,
    pictures: Vec<String>,
}

impl Seen {
    /// Returns a picture of the machine; empty if there is none, or none is drawn.
    fn drawing(&self, player: &LinePlayer) -> Result<String, AllocError>
        requires played { (s : Played) × HasPlayed player.now s }
    {
        let mut text = Text::new(self.alloc);
        if let (Some(machine), true) = (player.machine(), self.draws) {
            put_picture(&mut text, machine);
        }
        text.finish()
    }

    /// Plays a line, and notes what happens on it.
    fn play(&mut self, player: &mut LinePlayer, number: u64, line: &[u8]) -> Result<(), AllocError>
        requires played { (s : Played) × HasPlayed player.old s }
        ensures played { IfOk result (λ _. (s : Played) × HasPlayed player.new s) }
    {
        let mut trace = trace_line(self.alloc, player, number, line)?;
        self.ledger.add(&mut trace, player.machine())?;
        let mut text = Text::new(self.alloc);
        put_trace(&mut text, &trace);
        self.traces.push(text.finish()?)?;
        let picture = self.drawing(player)?;
        self.pictures.push(picture)?;
        Ok(())
    }

    /// Plays lines, the first ones of a script.
    fn play_each(&mut self, player: &mut LinePlayer, lines: &[Line]) -> Result<(), AllocError>
        requires played { (s : Played) × HasPlayed player.old s }
    {
        let mut number = 0u64;
        'lines: for line in lines {
            number = number.saturating_add(1);
            let text = plain_line(self.alloc, line.text.as_bytes())?;
            self.play(player, number, text.as_slice())?;
        }
        Ok(())
    }
}

/// Plays the lines of a script, and returns what happens on each; `draws`: the machine is drawn.
///
/// # Errors
/// `AllocError`: the host is out of memory.
fn look_at(alloc: Global, lines: &[Line], draws: bool) -> Result<Seen, AllocError> {
    let mut seen = Seen {
        alloc,
        draws,
        ledger: Ledger::new(alloc),
        traces: Vec::new(alloc),
        pictures: Vec::new(alloc),
    };
    let mut player = LinePlayer::new(alloc)?;
    seen.play_each(&mut player, lines)?;
    Ok(seen)
}

/// A quiz whose script was played.
#[derive(Drop)]
pub struct Game {
    pub alloc: Global,
    pub quiz: Quiz,
    /// The answer to each line; empty if it has none.
    answers: Vec<Vec<u8>>,
    /// What happens on each line.
    traces: Vec<String>,
    /// The machine after each line; empty if there is none, or none is drawn.
    pictures: Vec<String>,
    /// The places of the lines that are asked, ascending.
    pub asked: Vec<usize>,
}

/// Returns the answer of the reference MMU to a line.
fn mmu_answer(alloc: Global, player: &mut MmuPlayer, line: &Line) -> Result<Vec<u8>, AllocError> {
    let mut text = Text::new(alloc);
    if let Some(answer) = player.line(line.text.as_bytes())? {
        put_answer(&mut text, &answer);
    }
    Vec::from_slice(alloc, text.finish()?.as_bytes().trim_ascii())
}

/// Appends the answers of the reference MMU to some lines.
fn put_mmu_answers(
    alloc: Global,
    player: &mut MmuPlayer,
    lines: &[Line],
    answers: &mut Vec<Vec<u8>>,
) -> Result<(), AllocError> {
    'lines: for line in lines {
        answers.push(mmu_answer(alloc, player, line)?)?;
    }
    Ok(())
}

/// Returns the answers of the reference MMU to some lines.
fn mmu_answers(alloc: Global, lines: &[Line]) -> Result<Vec<Vec<u8>>, PlayFault> {
    let mut answers = Vec::new(alloc);
    put_mmu_answers(alloc, &mut MmuPlayer::new(alloc), lines, &mut answers)?;
    compare(alloc, lines, answers.as_slice())?;
    Ok(answers)
}

/// Appends the indices of a virtual address of Sv39, one for each level, and its offset; or that it is not canonical.
fn put_indices(out: &mut Text, address: u64) {
    let high = address >> 38;
    if high != 0 && high != 0x3ff_ffff {
        return out.push_str(
            "        bits 63 to 39 differ from bit 38: not canonical, so no walk\n",
        );
    }
    let offset = address % 4096;
    let page = address / 4096;
    let (last, middle, first) = (page % 512, page / 512 % 512, page / 262_144 % 512);
    writeln!(
        out,
        "        VPN[2] {first}, VPN[1] {middle}, VPN[0] {last}, offset 0x{offset:x}"
    )
}

/// Returns an outcome of a guess as a client of a reference MMU tells it; a physical address in hexadecimal digits.
fn told_outcome(alloc: Global, part: &[u8]) -> Result<String, AllocError> {
    if let Some((word, rest)) = first_field(part) {
        if word == b"pa".as_slice() {
            if let Some(pa) = only_number(rest) {
                return format!(in alloc; "pa 0x{pa:x}");
            }
        }
    }
    String::from_str(alloc, std::str::from_utf8(part.trim_ascii()).unwrap_or("?"))
}

/// Returns the number that is the first field of a text.
fn only_number(text: &[u8]) -> Option<u64> {
    let (field, _) = first_field(text)?;
    number(field)
}

/// Appends an outcome with what is said of it, and a reason.
fn put_verdict(out: &mut Text, outcome: &str, verdict: &str, reason: &str) {
    writeln!(out, "  {outcome}: {verdict}{reason}")
}

/// Appends what a reference MMU answers to a line that tells an outcome: that it is permitted, or why it is not.
fn put_reason(out: &mut Text, player: &mut MmuPlayer, line: &str, outcome: &str) {
    let alloc = out.allocator();
    let Ok(text) = format!(in alloc; "{line} => {outcome}") else {
        return out.note(Err(AllocError));
    };
    match player.line(text.as_bytes()) {
        Ok(Some(Answer::NotPermitted { reason, .. })) => {
            put_verdict(out, outcome, "NOT permitted: ", reason.as_str())
        }
        Ok(Some(Answer::Permitted(_))) => put_verdict(out, outcome, "permitted", ""),
        Ok(_) => {}
        Err(error) => out.note(Err(error)),
    }
}

/// Returns why an outcome that a guess lacks is permitted, by the word with which a reference MMU begins it.
fn why_permitted(outcome: &[u8]) -> &'static str {
    match first_field(outcome) {
        Some((b"held", _)) => {
            "the hart may still hold what it read before, since no fence after that covers it"
        }
        Some((b"walk", _)) => "the walk over the page tables as they are now ends so",
        Some((b"bare", _)) => "the address isn't translated",
        _ => "no page table is asked",
    }
}

/// The words of lines that access an address.
static ACCESSES: [&[u8]; 3] = [b"load", b"store", b"fetch"];

/// Returns the address that a line accesses; `None` if it accesses none.
fn accessed(line: &[u8]) -> Option<u64> {
    let (word, rest) = first_field(line)?;
    if !is_among(ACCESSES.as_slice(), word) {
        return None;
    }
    let (field, _) = first_field(rest)?;
    number(field)
}

/// Returns what happens on a line for the reference MMU: the indices of its address, if it accesses one, the walk, and the whole answer.
fn mmu_trace(
    alloc: Global,
    player: &MmuPlayer,
    number_of_line: usize,
    line: &str,
    answer: &str,
) -> Text {
    let mut text = Text::new(alloc);
    writeln!(&mut text, "{number_of_line:>4}  {line}");
    if let Some(address) = accessed(line.as_bytes()) {
        put_indices(&mut text, address);
        player.put_walk_steps(&mut text, address);
    }
    writeln!(&mut text, "        {answer}");
    text
}

/// Returns the places of lines that are worth a question, but those of misaligned accesses: more is permitted of these than is listed.
fn clear_of(
    alloc: Global,
    worthy: &[usize],
    answers: &[Vec<u8>],
) -> Result<Vec<usize>, AllocError> {
    let mut clear = Vec::new(alloc);
    'places: for at in worthy {
        match answers.get(*at) {
            Some(answer) if answer.as_slice().starts_with(b"misaligned") => {}
            _ => clear.push(*at)?,
        }
    }
    Ok(clear)
}

/// What is to be made.
#[derive(Clone, Copy)]
pub struct Order {
    pub subject: Subject,
    pub seed: u64,
    /// How many lines are asked at most.
    pub count: usize,
    /// Whether the machine is drawn.
    pub draws: bool,
}

/// How many questions are enough, if so many are wanted.
const ENOUGH: usize = 4;

/// How many quizzes of a seed are tried: the first with enough questions is taken.
const ATTEMPTS: u64 = 8;

impl Game {
    /// Returns a quiz of a seed, played.
    ///
    /// # Errors
    /// Those of `play`.
    fn attempt(alloc: Global, order: Order, attempt: u64) -> Result<Game, Fault> {
        let quiz = make(alloc, order.subject, order.seed, attempt)?;
        let played = match quiz.teller {
            Teller::Machine => predicted_answers(alloc, quiz.lines.as_slice()),
            Teller::Mmu => mmu_answers(alloc, quiz.lines.as_slice()),
        };
        let answers = match played {
            Ok(answers) => answers,
            Err(fault) => {
                let (name, seed) = (order.subject.name(), order.seed);
                let line = format_args!("quiz {name} {seed}: line ");
                return Err(difference(alloc, line, fault));
            }
        };
        let script = Script {
            lines: quiz.lines.as_slice(),
            answers: answers.as_slice(),
        };
        let worthy = clear_of(alloc, quiz.worthy.as_slice(), answers.as_slice())?;
        let asked = choose(alloc, order.seed, script, worthy.as_slice(), order.count)?;
        Ok(Game {
            alloc,
            quiz,
            answers,
            traces: Vec::new(alloc),
            pictures: Vec::new(alloc),
            asked,
        })
    }

    /// Returns the quiz of a subject and a seed, played.
    ///
    /// # Errors
    /// `Differs`: the machine answers a line otherwise than the generator predicts. `Memory`: the host is out of memory.
    pub fn play(alloc: Global, order: Order) -> Result<Game, Fault> {
        let mut game = Game::attempt(alloc, order, 0)?;
        'attempts: for attempt in 1..ATTEMPTS {
            if game.asked.len() >= order.count.min(ENOUGH) {
                break;
            }
            game = Game::attempt(alloc, order, attempt)?;
        }
        game.look(order.draws)?;
        Ok(game)
    }

    /// Notes what happens on each line.
    fn look(&mut self, draws: bool) -> Result<(), AllocError> {
        if self.quiz.teller == Teller::Mmu {
            return self.look_at_mmu(&mut MmuPlayer::new(self.alloc));
        }
        let seen = look_at(self.alloc, self.quiz.lines.as_slice(), draws)?;
        self.traces = seen.traces;
        self.pictures = seen.pictures;
        Ok(())
    }

    /// Notes what the reference MMU says of each line.
    fn look_at_mmu(&mut self, player: &mut MmuPlayer) -> Result<(), AllocError> {
        for at in 0..self.quiz.lines.len() {
            let trace = mmu_trace(
                self.alloc,
                player,
                at.saturating_add(1),
                self.line(at),
                self.answer(at),
            );
            self.traces.push(trace.finish()?)?;
            player.line(self.line(at).as_bytes())?;
        }
        Ok(())
    }

    /// Returns a line; empty if there is none.
    pub fn line(&self, at: usize) -> &str {
        match self.quiz.lines.get(at) {
            Some(line) => line.text.as_str(),
            None => "",
        }
    }

    /// Returns the answer to a line; empty if there is none.
    pub fn answer(&self, at: usize) -> &str {
        match self.answers.get(at) {
            Some(answer) => std::str::from_utf8(answer.as_slice()).unwrap_or("?"),
            None => "",
        }
    }

    /// Returns the form of the answers to a line.
    pub fn form(&self, at: usize) -> &'static str {
        match self.quiz.teller {
            Teller::Machine => form_of(self.line(at).as_bytes()),
            Teller::Mmu => OUTCOME_FORM,
        }
    }

    /// Returns what a guess at a line is to say: the form of the answers to it; of a reference MMU all outcomes.
    pub fn wanted(&self, at: usize) -> &'static str {
        match self.quiz.teller {
            Teller::Machine => self.form(at),
            Teller::Mmu => OUTCOMES,
        }
    }

    /// Returns a guess at a line; a number alone with the word before it that its form has.
    pub fn completed(&self, at: usize, guess: Vec<u8>) -> Result<Vec<u8>, AllocError> {
        match self.quiz.teller {
            Teller::Machine => completed(self.alloc, self.form(at), guess),
            Teller::Mmu => Ok(guess),
        }
    }

    /// Returns whether a guess is right, or at least of the form of the answers to a line.
    pub fn is_formed(&self, at: usize, guess: &[u8]) -> Result<bool, AllocError> {
        if is_right(self.alloc, guess, self.answer(at).as_bytes())? {
            return Ok(true);
        }
        has_form(self.alloc, self.form(at), guess)
    }

    /// Tells a reference MMU the lines before a line.
    fn tell_before(&self, player: &mut MmuPlayer, at: usize) -> Result<(), AllocError> {
        for before in 0..at {
            player.line(self.line(before).as_bytes())?;
        }
        Ok(())
    }

    /// Appends the outcomes that a guess lacks, one a line, with why they are permitted too.
    fn put_missed(&self, out: &mut Text, at: usize, guess: &[u8]) {
        let Ok(missed) = missed_parts(self.alloc, guess, self.answer(at).as_bytes()) else {
            return out.note(Err(AllocError));
        };
        'parts: for part in missed.as_slice() {
            let part = part.as_slice();
            let outcome = std::str::from_utf8(part).unwrap_or("?");
            let why = why_permitted(part);
            writeln!(out, "  missed: {outcome}: {why}");
        }
    }

    /// Appends what the reference MMU says of the outcomes in a guess, one a line.
    fn put_reasons(&self, out: &mut Text, at: usize, guess: &[u8]) {
        match plain_parts(self.alloc, guess) {
            Ok(parts) => {
                let mut player = MmuPlayer::new(self.alloc);
                self.put_reasons_by(out, &mut player, at, parts.as_slice());
            }
            Err(error) => out.note(Err(error)),
        }
    }

    /// Appends what a new reference MMU says of outcomes, one a line.
    fn put_reasons_by(&self, out: &mut Text, player: &mut MmuPlayer, at: usize, parts: &[Vec<u8>]) {
        if let Err(error) = self.tell_before(player, at) {
            return out.note(Err(error));
        }
        'parts: for part in parts {
            match told_outcome(self.alloc, part.as_slice()) {
                Ok(outcome) => put_reason(out, player, self.line(at), outcome.as_str()),
                Err(error) => out.note(Err(error)),
            }
        }
    }

    /// Appends which parts of a guess at a line are wrong, if its word is right.
    fn put_wrong_parts(&self, out: &mut Text, at: usize, guess: &[u8]) {
        let word = word_of(self.line(at).as_bytes());
        match reason_of_text(self.alloc, word, guess, self.answer(at).as_bytes()) {
            Ok(reason) if matches!(reason, Reason::Parts(_)) => {
                out.push_str("  ");
                put_wrong(out, word, &reason);
                out.push_str("\n")
            }
            Ok(_) => {}
            Err(error) => out.note(Err(error)),
        }
    }

    /// Appends what is wrong with a guess, in lines: which of its parts are; of a reference MMU, what that says of the outcomes in the guess, and
    /// those that the guess lacks.
    pub fn put_why(&self, out: &mut Text, at: usize, guess: &[u8]) {
        match self.quiz.teller {
            Teller::Machine => self.put_wrong_parts(out, at, guess),
            Teller::Mmu => {
                self.put_reasons(out, at, guess);
                self.put_missed(out, at, guess)
            }
        }
    }

    /// Returns what happens on a line; empty if there is none.
    pub fn trace(&self, at: usize) -> &str {
        match self.traces.get(at) {
            Some(trace) => trace.as_str(),
            None => "",
        }
    }

    /// Returns the machine after so many lines; empty if there is none.
    fn picture(&self, lines: usize) -> &str {
        if lines == 0 {
            return "";
        }
        match self.pictures.get(lines - 1) {
            Some(picture) => picture.as_str(),
            None => "",
        }
    }

    /// Appends a line with its answer: beside it, or below it for the reference MMU, whose lines have another meaning of `=>`.
    pub fn put_line(&self, out: &mut Text, at: usize) {
        let (line, answer) = (self.line(at), self.answer(at));
        if answer.is_empty() {
            return writeln!(out, "{line}");
        }
        match self.quiz.teller {
            Teller::Machine => writeln!(out, "{line:<34} => {answer}"),
            Teller::Mmu => writeln!(out, "{line}\n    {answer}"),
        }
    }

    /// Appends lines with their answers, from one on, before another.
    pub fn put_between(&self, out: &mut Text, first: usize, end: usize) {
        for at in first..end {
            self.put_line(out, at);
        }
    }

    /// Returns the question about a line on a page; `lines` are those before it, since the question before.
    pub fn question<'a>(&'a self, at: usize, lines: &'a str) -> QuizQuestion<'a> {
        QuizQuestion {
            number: at.saturating_add(1),
            lines,
            line: self.line(at),
            answer: self.answer(at),
            form: self.form(at),
            wanted: self.wanted(at),
            trace: self.trace(at),
            before: self.picture(at),
            after: self.picture(at.saturating_add(1)),
        }
    }
}
