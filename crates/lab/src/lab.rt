// `do_words`: does what a command line of `xv6lab` says, with the files and the standard input of a `Host`.

ghost use Rattle.std.specs.Prelude.{◌≡◌, ◌≤◌};

use crate::draw::{DrawLines, KeptLines, PageLines, Paper};
use crate::elf::put_elf;
use command_words::{
    CheckWords, DrawWords, MmuWords, QuizForm, QuizWords, Task, Tests, TraceWords, UsertestWords,
};
use lab_generated::{Asking, Game, Order, Program, program_path, script_of, script_path};
use lab_grading::{grade, hand_out};
use lab_host::{
    ChosenLine, Fault, Host, Hosting, Listener, Printout, Reading, Screen, bytes_of, each_line,
    print, write_file,
};
use lab_listeners::{
    BANNER, BareLines, CheckLines, Checked, ReplLines, RunLines, ShowLines, Tally, TraceLines,
};
use lab_reference::{AnswerLines, put_dump, put_fewest};
use line_traces::Ledger;
use pictures::PageHead;
use process_model::LONGEST_IMAGE;
use std::alloc::Global;
use std::fs;
use std::io::Read;
use std::rt::Files;

/// The lines of a script are given to a listener.
#[derive(Drop)]
struct Played<'a, S, L> {
    screen: &'a mut S,
    listener: &'a mut L,
}

impl<S: Screen, L: Listener> Reading for Played<'_, S, L> {
    fn read<R: Read + Drop>(&mut self, alloc: Global, reader: R) -> Result<(), Fault> {
        each_line(alloc, reader, self.screen, self.listener)
    }
}

/// Puts what is asked of a file with these bytes, if it is one that is read as a whole.
fn put_whole(out: &mut Printout, task: &Task, bytes: &[u8]) -> Result<(), Fault> {
    match task {
        Task::Mmu(_) => put_fewest(out, bytes),
        Task::Inspect(words) => put_dump(out, words, bytes),
        Task::Elf(file) => put_elf(out, file.as_str(), bytes),
        _ => Ok(()),
    }
}

/// Gives the lines of a script to a listener; `-` is standard input.
///
/// # Errors
/// Those of `give`.
fn play<H: Hosting, S: Screen, L: Listener>(
    host: &mut H,
    screen: &mut S,
    name: &str,
    listener: &mut L,
) -> Result<(), Fault> {
    host.give(name, &mut Played { screen, listener })
}

/// Compares the answers of a script with those that its lines expect, and returns what was counted. A script that is refused, or
/// cannot be read, is told and counted as refused.
fn check_file<H: Hosting, S: Screen>(
    host: &mut H,
    screen: &mut S,
    strict: bool,
    file: &str,
) -> Tally {
    let lines = CheckLines::new(file, strict);
    let mut checked = Checked { screen, lines };
    let done = host.give(file, &mut checked);
    let tally = checked.lines.tally;
    match done {
        Ok(()) => return tally,
        Err(Fault::Memory) => screen.fail(Fault::Memory),
        Err(fault) => fault.tell(screen),
    }
    Tally {
        refused: 1,
        ..tally
    }
}

/// Compares the answers of scripts with those that their lines expect, and prints of each, if there are several, and of all
/// together how many differ. Of a file for threads, which expects none, it tells whether its processes may fork for ever.
///
/// # Errors
/// `Told`: an answer differs, or a file is refused or cannot be read. `Memory`: the host is out of memory.
fn check<H: Hosting, S: Screen>(
    host: &mut H,
    screen: &mut S,
    words: &CheckWords,
) -> Result<(), Fault> {
    let files = words.files.as_slice();
    let mut total = Tally::NOTHING;
    'files: for file in files {
        if !screen.is_whole() {
            break;
        }
        let tally = check_file(host, screen, words.strict, file.as_str());
        if files.len() > 1 {
            let (name, counts) = (file.as_str(), tally.counts());
            screen.out(format_args!("{name}: {counts}\n"));
        }
        total = total.with(tally);
    }
    screen.out(format_args!("{total}\n"));
    if total.differ > 0 || total.refused > 0 {
        return Err(Fault::Told);
    }
    Ok(())
}

/// Prints scripts without the answers that their lines expect.
fn bare<H: Hosting, S: Screen>(
    host: &mut H,
    screen: &mut S,
    files: &[String],
) -> Result<(), Fault> {
    'files: for file in files {
        play(host, screen, file.as_str(), &mut BareLines)?;
    }
    Ok(())
}

/// Writes a text to a file, or to standard output for `-`.
fn write<F: Files, S: Screen>(
    files: &F,
    alloc: Global,
    screen: &mut S,
    out: &str,
    text: &[u8],
) -> Result<(), Fault> {
    if out == "-" {
        screen.out_bytes(text);
        return Ok(());
    }
    write_file(files, alloc, out, text)
}

/// Returns where the page of a script goes: a new file in place of any that is there, or standard output for `-`.
fn paper<'a, F: Files>(
    files: &F,
    alloc: Global,
    out: &'a str,
) -> Result<Paper<'a, F::File>, Fault> {
    if out == "-" {
        return Ok(Paper::Screen);
    }
    match fs::create(files, out) {
        Ok(file) => Ok(Paper::File(out, file)),
        Err(error) => Err(Fault::of_file(alloc, out, error)),
    }
}

/// Writes a page to step through a script that is played to its end without a fault, line by line as each is played.
fn write_page<F: Files, S: Screen>(
    files: &F,
    alloc: Global,
    screen: &mut S,
    words: &DrawWords,
    script: &[u8],
) -> Result<(), Fault> {
    let head = PageHead {
        title: words.title.as_str(),
        line: words.line,
        quiz: words.quiz,
    };
    let mut page = PageLines::new(alloc, paper(files, alloc, words.out.as_str())?);
    let mut out = Printout::new(alloc);
    page.begin(&mut out, head);
    out.print(screen)?;
    each_line(alloc, script, screen, &mut page)
}

/// Writes a page to step through a script, line by line as each is played. Before that the script is played to its end, so that
/// nothing is written of one that is refused.
fn draw_steps<H: Hosting, S: Screen>(
    host: &mut H,
    screen: &mut S,
    words: &DrawWords,
) -> Result<(), Fault> {
    let (alloc, file) = (host.allocator(), words.file.as_str());
    let mut kept = KeptLines::new(alloc, file, ChosenLine::named(words.line));
    play(host, screen, file, &mut kept)?;
    write_page(host.files(), alloc, screen, words, kept.text.as_slice())
}

/// Draws the machine of a script, after its last line or after each, if the script is played to its end.
fn draw<H: Hosting, S: Screen>(
    host: &mut H,
    screen: &mut S,
    words: &DrawWords,
) -> Result<(), Fault> {
    let (file, out) = (words.file.as_str(), words.out.as_str());
    if out == file && out != "-" {
        screen.err(format_args!(
            "{out} is the script, and stays as it is; name another file after -o\n"
        ));
        return Err(Fault::Told);
    }
    if words.steps {
        return draw_steps(host, screen, words);
    }
    let mut drawn = DrawLines::new(host.allocator(), file);
    play(host, screen, file, &mut drawn)?;
    let text = drawn.text.finish()?;
    write(host.files(), host.allocator(), screen, out, text.as_bytes())
}

/// Writes the script of a test beside its program: nothing beside standard output.
fn write_script<F: Files>(
    files: &F,
    alloc: Global,
    out: &str,
    name: &str,
    script: &str,
) -> Result<(), Fault> {
    if out == "-" {
        return Ok(());
    }
    let path = script_path(alloc, out, name)?;
    write_file(files, alloc, path.as_str(), script.as_bytes())
}

/// Makes a C program, and writes the scripts of its tests; `out` is where the program goes. Returns its text.
fn made_program<F: Files>(
    files: &F,
    alloc: Global,
    tests: Tests,
    out: &str,
) -> Result<Vec<u8>, Fault> {
    let mut program = Program::new(alloc, tests)?;
    'seeds: for number in 0..tests.count {
        let (name, script) = program.add(tests.seed.saturating_add(number))?;
        write_script(files, alloc, out, name.as_str(), script.as_str())?;
    }
    program.end()?;
    Ok(program.text)
}

/// Writes a C program and the scripts of its tests, or prints the script of the first.
fn usertest<F: Files, S: Screen>(
    files: &F,
    alloc: Global,
    screen: &mut S,
    words: &UsertestWords,
) -> Result<(), Fault> {
    if words.tests.script {
        print(screen, script_of(alloc, words.tests)?);
        return Ok(());
    }
    let out = program_path(alloc, words)?;
    let text = made_program(files, alloc, words.tests, out.as_str())?;
    write(files, alloc, screen, out.as_str(), text.as_slice())
}

/// Plays a script and prints what happens on its lines.
fn trace<H: Hosting, S: Screen>(
    host: &mut H,
    screen: &mut S,
    words: &TraceWords,
) -> Result<(), Fault> {
    let file = words.file.as_str();
    let mut listener = TraceLines {
        file,
        json: words.json,
        only: ChosenLine::named(words.line),
        ledger: Ledger::new(host.allocator()),
    };
    play(host, screen, file, &mut listener)
}

/// Answers lines that ask a reference MMU.
fn mmu<H: Hosting, S: Screen>(host: &mut H, screen: &mut S, words: &MmuWords) -> Result<(), Fault> {
    let json = words.json;
    host.give(words.file.as_str(), &mut AnswerLines { screen, json })
}

/// Prints what is asked of a file that is read as a whole, of at most so many bytes and one more.
fn whole<H: Hosting, S: Screen>(
    host: &mut H,
    screen: &mut S,
    task: &Task,
    file: &str,
    most: usize,
) -> Result<(), Fault> {
    let bytes = bytes_of(host, file, most)?;
    let mut out = Printout::new(host.allocator());
    let done = put_whole(&mut out, task, bytes.as_slice());
    out.end(screen, done)
}

/// Asks the questions of a quiz, with standard input for guesses; or writes it as a page, or prints its script.
fn quiz<H: Hosting, S: Screen>(
    host: &mut H,
    screen: &mut S,
    words: &QuizWords,
) -> Result<(), Fault> {
    let order = Order {
        subject: words.subject,
        seed: words.seed,
        count: words.count,
        draws: words.form == QuizForm::Page,
    };
    let game = Game::play(host.allocator(), order)?;
    match words.form {
        QuizForm::Ask => {
            let game = &game;
            host.give("-", &mut Asking { screen, game })
        }
        QuizForm::Page => {
            let (page, out) = (game.page()?, words.out.as_str());
            write(host.files(), host.allocator(), screen, out, page.as_bytes())
        }
        QuizForm::Script | QuizForm::Answers => {
            print(screen, game.script(words.form == QuizForm::Answers));
            Ok(())
        }
    }
}

/// Does what a command line says.
fn do_task<H: Hosting, S: Screen>(host: &mut H, screen: &mut S, task: &Task) -> Result<(), Fault> {
    match task {
        Task::Run(words) => {
            let file = words.file.as_str();
            play(host, screen, file, &mut RunLines::new(file, words.telling))
        }
        Task::Check(words) if words.bare => bare(host, screen, words.files.as_slice()),
        Task::Check(words) => check(host, screen, words),
        Task::Grade(words) => grade(host, screen, words),
        Task::Trace(words) => trace(host, screen, words),
        Task::Draw(words) => draw(host, screen, words),
        Task::Show(file) => {
            let file = file.as_str();
            play(host, screen, file, &mut ShowLines { file })
        }
        // `do_words` does that, since it writes files while the host reads standard input
        Task::Repl => Ok(()),
        Task::Mmu(words) if words.shrink => {
            whole(host, screen, task, words.file.as_str(), usize::MAX)
        }
        Task::Mmu(words) => mmu(host, screen, words),
        Task::Inspect(words) => whole(host, screen, task, words.file.as_str(), usize::MAX),
        Task::Elf(file) => whole(host, screen, task, file.as_str(), LONGEST_IMAGE),
        Task::Usertest(words) => usertest(host.files(), host.allocator(), screen, words),
        Task::Lab(words) => hand_out(host, screen, words),
        Task::Quiz(words) => quiz(host, screen, words),
    }
}

/// Plays the lines of standard input one by one.
fn repl<F: Files, I: Read + Drop, S: Screen>(
    host: &mut Host<'_, F, I>,
    screen: &mut S,
) -> Result<(), Fault> {
    screen.err(BANNER);
    let mut listener = ReplLines::new(host.alloc, host.files);
    play(host, screen, "-", &mut listener)
}

/// Tells why the program ends early, if it does. Returns the exit status, 0 only if all that was to be printed was.
fn ended<S: Screen>(screen: &mut S, done: Result<(), Fault>) -> u8
    ensures low { result ≤ 2 }
    ensures whole { result ≡ 0 → S.whole screen.new }
{
    let status = match done {
        Ok(()) => 0,
        Err(fault) => {
            fault.tell(screen);
            fault.status()
        }
    };
    if screen.is_whole() {
        status
    } else {
        status.max(1)
    }
}

/// Does what a command line says, the program's name first, and tells on the screen why it ends early. Returns the exit status: 0, only
/// if all that was to be printed was; 1 if a script is refused, an answer differs, or the host fails; 2 if the command line is wrong.
pub fn do_words<F: Files, I: Read + Drop, S: Screen>(
    mut host: Host<'_, F, I>,
    screen: &mut S,
    words: &[String],
) -> u8
    ensures low { result ≤ 2 }
    ensures whole { result ≡ 0 → S.whole screen.new }
{
    let done = match Task::parse(host.alloc, words) {
        Ok(Task::Repl) => repl(&mut host, screen),
        Ok(task) => do_task(&mut host, screen, &task),
        Err(misuse) => Err(Fault::from(misuse)),
    };
    match screen.take_failure() {
        Some(fault) => ended(screen, Err(fault)),
        None => ended(screen, done),
    }
}
