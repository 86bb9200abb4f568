// `AnswerLines`: reads lines that ask a reference MMU, and answers each.

use lab_host::{Fault, Reading, Screen, print, put_object, read_line, without_feed};
use memchr::memchr;
use mmu_lines::{Answer, AnswerObject, MmuPlayer, put_answer};
use script_reader::trim_return;
use std::alloc::{AllocError, Global};
use std::io::{BufReader, Read};
use std::mem;
use text_builder::Text;

/// Appends an answer, as text or as one JSON object, with a line feed.
fn put(out: &mut Text, json: bool, line: u64, answer: &Answer) {
    if json {
        put_object(out, &AnswerObject { line, answer });
    } else {
        put_answer(out, answer);
    }
}

/// Answers a line, with its line feed, if it is not empty and no comment. Returns whether it is faulty, or the outcome that it tells is not
/// permitted.
fn answer_line(
    json: bool,
    player: &mut MmuPlayer,
    number: u64,
    line: &[u8],
    out: &mut Text,
) -> Result<bool, AllocError> {
    let Some(answer) = player.line(trim_return(without_feed(line)))? else {
        return Ok(false);
    };
    put(out, json, number, &answer);
    Ok(answer.is_amiss())
}

/// Answers the lines of a reference MMU.
#[derive(Drop)]
pub struct AnswerLines<'a, S> {
    pub screen: &'a mut S,
    /// Whether answers are JSON objects in place of text.
    pub json: bool,
}

/// Prints what was appended, of which nothing is left.
fn print_out<S: Screen>(screen: &mut S, out: &mut Text) {
    let alloc = out.allocator();
    print(screen, mem::replace(out, Text::new(alloc)))
}

impl<S: Screen> AnswerLines<'_, S> {
    /// Answers each line, to the end, unless printing fails. Returns whether one is amiss.
    fn answer_each<R: Read + Drop>(
        &mut self,
        player: &mut MmuPlayer,
        reader: &mut BufReader<R>,
        line: &mut Vec<u8>,
        out: &mut Text,
    ) -> Result<bool, Fault> {
        let mut amiss = false;
        'lines: for number in 1..u64::MAX {
            line.clear();
            if !self.screen.is_whole() || read_line(reader, line)? == 0 {
                break;
            }
            let wrong = answer_line(self.json, player, number, line.as_slice(), out)?;
            amiss = amiss || wrong;
            if memchr(b'\n', reader.buffer()).is_none() {
                print_out(self.screen, out);
            }
        }
        Ok(amiss)
    }
}

impl<S: Screen> Reading for AnswerLines<'_, S> {
    /// Answers each line that is not empty and no comment, to the end, unless printing fails. Answers are printed before more input is
    /// waited for.
    ///
    /// # Errors
    /// `Told`: at least one line is faulty, or the outcome that it tells is not permitted; its answer said so. `Read`: the reader failed.
    /// `Memory`: the host is out of memory.
    fn read<R: Read + Drop>(&mut self, alloc: Global, reader: R) -> Result<(), Fault> {
        let (mut player, mut reader) = (MmuPlayer::new(alloc), BufReader::new(alloc, reader)?);
        let (mut line, mut out) = (Vec::new(alloc), Text::new(alloc));
        let answered = self.answer_each(&mut player, &mut reader, &mut line, &mut out);
        print(self.screen, out);
        match answered {
            Ok(false) => Ok(()),
            Ok(true) => Err(Fault::Told),
            Err(fault) => Err(fault),
        }
    }
}
