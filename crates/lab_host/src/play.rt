// `each_line`: reads a script line by line and gives each line to a `Listener`; `played`: plays one line.

ghost use Rattle.std.specs.Prelude.{IfOk};
ghost use Rattle.line_player.specs.Answers.{HasPlayed};
ghost use Rattle.line_player.specs.PlayedLines.{Played};

use crate::fault::Fault;
use crate::lines::{read_line, without_feed};
use crate::mistakes::{Place, tell_refused};
use crate::printout::Printout;
use crate::screen::Screen;
use handouts::plain_line;
use line_player::{LinePlayer, LineReply};
use std::alloc::{AllocError, Global};
use std::io::{BufReader, Read};

/// What is done with the lines of a script. A fault that is noted in the printout ends the script.
pub trait Listener {
    /// Does what is to be done with a line, without its line feed; it is the `number`th, from 1.
    ///
    /// # Errors
    /// `AllocError`: the host is out of memory.
    fn line(
        &mut self,
        out: &mut Printout,
        player: &mut LinePlayer,
        number: u64,
        line: &[u8],
    ) -> Result<(), AllocError>
        requires played { (s : Played) × HasPlayed player.old s }
        ensures played { IfOk result (λ _. (s : Played) × HasPlayed player.new s) };

    /// Does what is to be done after the last line; `lines` is how many there were.
    fn end(&mut self, out: &mut Printout, player: &LinePlayer, lines: u64)
        requires played { (s : Played) × HasPlayed player.now s };

    /// Returns whether no line more is to be read.
    fn is_over(&self) -> bool {
        false
    }
}

/// Plays a line that has no answer that it expects, and returns how it was answered; tells why it is refused, if it is.
///
/// # Errors
/// `AllocError`: the host is out of memory.
pub fn played(
    out: &mut Printout,
    place: Place<'_>,
    player: &mut LinePlayer,
    bare: &[u8],
) -> Result<LineReply, AllocError>
    requires played { (s : Played) × HasPlayed player.old s }
    ensures played { IfOk result (λ _. (s : Played) × HasPlayed player.new s) }
{
    let reply = player.line(bare)?;
    if let LineReply::Refused(cause) = reply {
        tell_refused(out, place, player, bare, cause);
    }
    Ok(reply)
}

/// Gives a line of a script to the listener, as `xv6vm` takes it, and prints what is to be printed.
///
/// # Errors
/// What the listener notes; `Memory`: the host is out of memory.
fn give_line<S: Screen, L: Listener>(
    alloc: Global,
    screen: &mut S,
    listener: &mut L,
    player: &mut LinePlayer,
    number: u64,
    line: &[u8],
) -> Result<(), Fault>
    requires played { (s : Played) × HasPlayed player.old s }
    ensures played { IfOk result (λ _. (s : Played) × HasPlayed player.new s) }
{
    let text = plain_line(alloc, without_feed(line))?;
    let mut out = Printout::new(alloc);
    let done = listener.line(&mut out, player, number, text.as_slice());
    let printed = out.print(screen);
    match done {
        Ok(()) => printed,
        Err(_) => Err(Fault::Memory),
    }
}

/// Reads lines to the end, unless printing fails, and gives each to the listener. Returns how many there were.
///
/// # Errors
/// Those of `each_line`.
fn give_lines<R: Read + Drop, S: Screen, L: Listener>(
    reader: &mut BufReader<R>,
    screen: &mut S,
    listener: &mut L,
    player: &mut LinePlayer,
    line: &mut Vec<u8>,
) -> Result<u64, Fault>
    requires played { (s : Played) × HasPlayed player.old s }
    ensures played { IfOk result (λ _. (s : Played) × HasPlayed player.new s) }
{
    let (alloc, mut lines) = (*line.allocator(), 0);
    'lines: for number in 1..u64::MAX {
        if listener.is_over() || !screen.is_whole() {
            break;
        }
        line.clear();
        if read_line(reader, line)? == 0 {
            break;
        }
        lines = number;
        give_line(alloc, screen, listener, player, number, line.as_slice())?;
    }
    Ok(lines)
}

/// Gives the lines to the listener, and tells it of the end.
///
/// # Errors
/// Those of `each_line`.
fn give_all<R: Read + Drop, S: Screen, L: Listener>(
    alloc: Global,
    reader: &mut BufReader<R>,
    screen: &mut S,
    listener: &mut L,
    player: &mut LinePlayer,
) -> Result<(), Fault>
    requires played { (s : Played) × HasPlayed player.old s }
{
    let mut line = Vec::new(alloc);
    let lines = give_lines(reader, screen, listener, player, &mut line)?;
    let mut out = Printout::new(alloc);
    listener.end(&mut out, player, lines);
    out.print(screen)
}

/// Reads a script to its end, unless printing fails, and gives each of its lines to the listener, with a player that has taken no line at
/// first.
///
/// # Errors
/// The first that the listener notes; `Read`: the reader failed; `Memory`: the host is out of memory.
pub fn each_line<R: Read + Drop, S: Screen, L: Listener>(
    alloc: Global,
    reader: R,
    screen: &mut S,
    listener: &mut L,
) -> Result<(), Fault> {
    let mut reader = BufReader::new(alloc, reader)?;
    let mut player = LinePlayer::new(alloc)?;
    give_all(alloc, &mut reader, screen, listener, &mut player)
}
