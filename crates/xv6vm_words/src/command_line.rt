// `CommandLine` (enum): a parsed command line, `xv6vm play FILE`, `xv6vm threads FILE --harts N` or `xv6vm --version`: a task (`Task`,
// enum) with its file, or the version; `parse` and `from_env` make one; conversions of errors of the host, the arguments and the
// parser to `Fault`.

ghost use Rattle.std.specs.Prelude.{◌≡◌, ◌≤◌, IfSome, Some};
ghost use Rattle.script_language.specs.Numbers.{number_of};

use crate::fault::Fault;
use audit_player::PlayError;
use clap::error::ErrorKind;
use clap::{Arg, ArgAction, Command, Error};
use script_reader::number;
use std::alloc::{AllocError, Global};
use std::{env, io};
use version::VERSION;

/// What the program does with the file.
#[derive(Clone, Copy, PartialEq, Eq, Debug)]
pub enum Task {
    /// Plays a script.
    Play,
    /// Plays a file for threads on this number of harts, each of them a thread.
    Threads(usize),
}

/// A parsed command line.
#[derive(Debug, Drop)]
pub enum CommandLine {
    /// It asks for the version.
    Version,
    /// What to do, and the path of the script or of the file for threads, `-` for standard input.
    File(Task, String),
}

impl From<AllocError> for Fault {
    fn from(_e: AllocError) -> Fault {
        Fault::Play(PlayError::Memory)
    }
}

/// A word that is not valid text makes the command line wrong.
impl From<io::Error> for Fault {
    fn from(error: io::Error) -> Fault {
        match error.kind() {
            io::ErrorKind::OutOfMemory => Fault::Play(PlayError::Memory),
            _ => Fault::Usage,
        }
    }
}

impl From<Error> for Fault {
    fn from(error: Error) -> Fault {
        match error.kind() {
            ErrorKind::OutOfMemory => Fault::Play(PlayError::Memory),
            _ => Fault::Usage,
        }
    }
}

/// The argument FILE.
fn file<'a>(alloc: Global) -> Arg<'a> {
    Arg::new(alloc, "FILE")
        .required(true)
        .action(ArgAction::Set)
}

/// Returns the number of harts that N says: decimal digits with a value from 1 to 8, leading zeros or not. `None`: any other word.
fn harts_of(word: &str) -> Option<usize>
    ensures number { IfSome result (λ harts. number_of word.now ≡ Some harts) }
    ensures range { IfSome result (λ harts. (1 ≤ harts) × (harts ≤ 8)) }
{
    match word.as_bytes() {
        [b'0', b'x', ..] => None,
        digits => match number(digits)? {
            harts @ 1..=8 => Some(harts as usize),
            _ => None,
        },
    }
}

/// The form of the command line: `xv6vm play FILE | xv6vm threads FILE --harts N`, or `xv6vm --version`. Any N is taken here.
fn command<'a>(alloc: Global) -> Result<Command<'a>, AllocError> {
    let harts = Arg::new(alloc, "harts")
        .long("harts")
        .required(true)
        .action(ArgAction::Set);
    let play = Command::new(alloc, "play").arg(file(alloc))?;
    let threads = Command::new(alloc, "threads").arg(file(alloc))?.arg(harts)?;
    Command::new(alloc, "xv6vm")
        .version(VERSION)
        .subcommand_required(true)
        .subcommand(play)?
        .subcommand(threads)
}

impl CommandLine {
    /// Returns the parsed command line with which the program was started.
    ///
    /// # Errors
    /// `Usage`: it is wrong, or not valid text. `Play(Memory)`: host memory was refused.
    pub fn from_env(rt: &HostRuntime) -> Result<CommandLine, Fault> {
        let all = env::args(rt)?;
        let words: Vec<String> = all.collect(rt.alloc())?;
        CommandLine::parse(rt.alloc(), words.as_slice())
    }

    /// Returns the parsed command line for its words, the program's name first: task and file of `xv6vm play FILE`, or of
    /// `xv6vm threads FILE --harts N` with N from 1 to 8; or that of `xv6vm --version`.
    ///
    /// # Errors
    /// `Usage`: the words are none of these. `Play(Memory)`: host memory was refused.
    pub fn parse(alloc: Global, words: &[String]) -> Result<CommandLine, Fault> {
        let matches = match command(alloc)?.try_get_matches_from(words) {
            Ok(matches) => matches,
            Err(error) if error.kind() == ErrorKind::DisplayVersion => return Ok(
                CommandLine::Version,
            ),
            Err(error) => return Err(Fault::from(error)),
        };
        let Some((name, given)) = matches.subcommand() else {
            return Err(Fault::Usage);
        };
        let Some(file) = given.get_str("FILE") else {
            return Err(Fault::Usage);
        };
        let file = String::from_str(alloc, file)?;
        if name == "play" {
            return Ok(CommandLine::File(Task::Play, file));
        }
        let Some(harts) = given.get_str("harts") else {
            return Err(Fault::Usage);
        };
        match harts_of(harts) {
            Some(harts) => Ok(CommandLine::File(Task::Threads(harts), file)),
            None => Err(Fault::Usage),
        }
    }
}
