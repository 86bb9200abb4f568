// `Task` (enum): what the program does, by its command line; `Task::parse` reads one; `command`, the words of the program. Those of more than
// a file have files of their own, as `run_words.rt`.

use crate::check_words::{CHECK, CheckWords};
use crate::draw_words::{DRAW, DrawWords};
use crate::grade_words::{GRADE, GradeWords};
use crate::inspect_words::{INSPECT, InspectWords};
use crate::lab_words::{LAB, LabWords};
use crate::misuse::Misuse;
use crate::mmu_words::{MMU, MmuWords};
use crate::options::{FILE, SCRIPT, file_of};
use crate::quiz_words::{QUIZ, QuizWords};
use crate::run_words::{RUN, RunWords};
use crate::trace_words::{TRACE, TraceWords};
use crate::usertest_words::{USERTEST, UsertestWords};
use crate::words::{Argument, Word, command_of};
use clap::{ArgMatches, Command};
use std::alloc::{AllocError, Global};
use version::VERSION;

/// What the program does.
#[derive(Drop)]
pub enum Task {
    Run(RunWords),
    Check(CheckWords),
    Grade(GradeWords),
    Trace(TraceWords),
    Draw(DrawWords),
    /// Plays a script, some of whose lines may ask for a look at the machine.
    Show(String),
    /// Plays the lines of standard input one by one.
    Repl,
    Mmu(MmuWords),
    Inspect(InspectWords),
    /// Prints the line of a script that declares an ELF file.
    Elf(String),
    Usertest(UsertestWords),
    Lab(LabWords),
    Quiz(QuizWords),
}

/// The word `show`.
static SHOW: Word = Word {
    name: "show",
    about: "Play a script that may also ask: regions S, vmprint S, tlb H, frames",
    arguments: &[SCRIPT],
};

/// The word `repl`.
static REPL: Word = Word {
    name: "repl",
    about: "Play the lines of standard input one by one; ? tells the lines",
    arguments: &[],
};

/// The word `elf`.
static ELF: Word = Word {
    name: "elf",
    about: "Print the line of a script that declares an ELF file",
    arguments: &[row!(FILE; help: "The ELF file; - is standard input")],
};

/// Returns the form of the command line.
fn command<'a>(alloc: Global) -> Result<Command<'a>, AllocError> {
    // in the order of help
    let words = [
        &RUN, &CHECK, &GRADE, &TRACE, &DRAW, &SHOW, &REPL, &MMU, &INSPECT, &ELF, &USERTEST, &LAB,
        &QUIZ,
    ];
    let mut program = Command::new(alloc, "xv6lab")
        .version(VERSION)
        .about(
            "Plays scripts against the virtual memory of xv6-riscv, for people. docs/WORKBENCH.md has an example of each word",
        )
        .subcommand_required(true);
    'words: for word in words.iter() {
        program = program.subcommand(command_of(alloc, *word)?)?;
    }
    Ok(program)
}

/// Returns what a word says.
///
/// # Errors
/// `Word`: a number among its options is wrong. `Memory`: the host is out of memory.
fn task_of(alloc: Global, name: &str, given: &ArgMatches<'_>) -> Result<Task, Misuse> {
    Ok(match name {
        "run" => Task::Run(RunWords::of(alloc, given)?),
        "check" => Task::Check(CheckWords::of(alloc, given)?),
        "grade" => Task::Grade(GradeWords::of(alloc, given)?),
        "trace" => Task::Trace(TraceWords::of(alloc, given)?),
        "draw" => Task::Draw(DrawWords::of(alloc, given)?),
        "show" => Task::Show(file_of(alloc, given)?),
        "mmu" => Task::Mmu(MmuWords::of(alloc, given)?),
        "inspect" => Task::Inspect(InspectWords::of(alloc, given)?),
        "elf" => Task::Elf(file_of(alloc, given)?),
        "usertest" => Task::Usertest(UsertestWords::of(alloc, given)?),
        "lab" => Task::Lab(LabWords::of(alloc, given)?),
        "quiz" => Task::Quiz(QuizWords::of(alloc, given)?),
        _ => Task::Repl,
    })
}

impl Task {
    /// Returns what a command line says, by its words, the program's name first.
    ///
    /// # Errors
    /// `Usage`: they are wrong, or ask for help or the version. `Word`: a number among them is wrong. `Memory`: the host is out of memory.
    pub fn parse(alloc: Global, words: &[String]) -> Result<Task, Misuse> {
        let matches = command(alloc)?.try_get_matches_from(words)?;
        match matches.subcommand() {
            Some((name, given)) => task_of(alloc, name, given),
            None => Ok(Task::Repl),
        }
    }
}
