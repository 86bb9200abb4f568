// The word `lab`: prints the handout of a lab, or its key, or writes it to a new file; or writes those of the students of a list to a folder.

use crate::grade_files::listed_students;
use crate::keys::key;
use command_words::LabWords;
use grade_reports::{Student, Visible, first_row, put_repeat, student_row};
use lab_host::{Fault, Hosting, Printout, Screen};
use lab_variants::{Lab, handout, plain, seed_of};
use std::alloc::{AllocError, Global};
use std::io::{Read, Write};
use std::rt::Files;
use std::{fs, io};
use text_builder::Text;

/// The most characters of an id that are in a file's name.
const LONGEST_NAME: usize = 100;

/// How many lists of one lab, and files of ids with one name, there may be in a folder.
const MOST_LISTS: usize = 1000;

/// How many files that are there already are told one by one.
const MOST_TOLD: usize = 8;

/// Writes a text to a new file. A file that is there stays as it is.
///
/// # Errors
/// The file is there, or cannot be made or written; then nothing of it is left.
fn put_new<F: Files>(files: &F, path: &str, text: &[u8]) -> io::Result<()> {
    let mut file = fs::File::create_new(files, path)?;
    match file.write_all(text) {
        Ok(()) => Ok(()),
        Err(error) => {
            // Nothing half written is left; if that fails too, the first error is what matters.
            let _ = fs::remove_file(files, path);
            Err(error)
        }
    }
}

/// Returns the character of an id as it is in a file's name: `_` for those that a shell or a file system may take for something else.
fn safe(letter: char) -> char {
    match letter {
        'a'..='z' | 'A'..='Z' | '0'..='9' | '-' | '_' | '.' => letter,
        _ => '_',
    }
}

/// Returns an id as it is in a file's name.
fn safe_of(alloc: Global, id: &str) -> Result<String, AllocError> {
    let mut text = String::new(alloc);
    'letters: for letter in id.chars().take(LONGEST_NAME) {
        text.push(safe(letter))?;
    }
    Ok(text)
}

/// Returns the first bytes of a file; none if it cannot be read.
fn first_bytes<F: Files>(files: &F, alloc: Global, path: &str) -> Vec<u8> {
    let mut bytes = Vec::new(alloc);
    if let Ok(file) = fs::open(files, path) {
        // a file that cannot be read is told when it is written
        let _ = file.take(4096).read_to_end(&mut bytes);
    }
    bytes
}

/// Whether a file with these first bytes is not made from the handout of a lab for this id; without a byte there is no file.
fn is_anothers(alloc: Global, bytes: &[u8], lab: Lab, id: &str) -> Result<bool, AllocError> {
    match seed_of(alloc, lab, bytes)? {
        Some(seed) => Ok(seed.as_str() != id),
        None => Ok(!bytes.is_empty()),
    }
}

/// Returns the handout of a lab for a seed, or that of its page if there is none; `answers`: with the machine's answers in place of its blanks.
///
/// # Errors
/// Those of `key`.
fn script_of(
    out: &mut Printout,
    lab: Lab,
    seed: Option<&str>,
    answers: bool,
) -> Result<String, Fault> {
    let alloc = out.allocator();
    let made = match seed {
        Some(seed) => handout(alloc, lab, seed),
        None => plain(alloc, lab),
    };
    let text = made?;
    if answers {
        key(out, lab.name(), text.as_str())
    } else {
        Ok(text)
    }
}

/// What became of a new file.
#[derive(Clone, Copy)]
enum Put {
    Written,
    /// There is a file already, which stays as it is.
    There,
    /// It cannot be made or written, as was told.
    Failed,
}

/// Which scripts students get, and where.
#[derive(Clone, Copy)]
struct Order<'a> {
    lab: Lab,
    /// Whether the machine's answers stand in place of the blanks.
    answers: bool,
    folder: &'a str,
}

/// The handouts that were written for the students of a list.
#[derive(Drop)]
struct HandedOut {
    /// The path of the list of them.
    list: String,
    /// The students so far, with the paths of their files.
    students: Vec<Student>,
    /// How many were written.
    written: usize,
    /// How many were there already.
    there: usize,
    /// A line for each file that was not written; empty if all were.
    told: Text,
}

impl HandedOut {
    /// Returns that none was written so far.
    fn nothing(alloc: Global, order: Order<'_>) -> Result<HandedOut, AllocError> {
        let (folder, name) = (order.folder, order.lab.name());
        Ok(HandedOut {
            list: format!(in alloc; "{folder}/{name}.csv")?,
            students: Vec::new(alloc),
            written: 0,
            there: 0,
            told: Text::new(alloc),
        })
    }

    /// Writes the handouts of students to a folder, and a list of them.
    ///
    /// # Errors
    /// Those of `key`.
    fn of<F: Files>(
        files: &F,
        alloc: Global,
        out: &mut Printout,
        order: Order<'_>,
        students: Vec<Student>,
    ) -> Result<HandedOut, Fault> {
        let mut given = HandedOut::nothing(alloc, order)?;
        'students: for student in students {
            if !given.is_repeated(&student) {
                let text = script_of(out, order.lab, Some(student.id.as_str()), order.answers)?;
                given.add(files, alloc, order, student, text.as_str())?;
            }
        }
        given.tell_more();
        if given.written > 0 {
            given.put_list(files, alloc, order)?;
        }
        Ok(given)
    }

    /// Whether a student has the id of one so far; if so, that is told.
    fn is_repeated(&mut self, student: &Student) -> bool {
        let id = student.id.as_str();
        match first_row(self.students.as_slice(), id) {
            Some(first) => {
                put_repeat(&mut self.told, first, student.row, id);
                true
            }
            None => false,
        }
    }

    /// Whether a path is that of a student's file so far.
    fn has(&self, path: &str) -> bool {
        'students: for student in &self.students {
            if student.file.as_str() == path {
                return true;
            }
        }
        false
    }

    /// Returns the path of a student's file: another than those so far, and than those of other students that are there.
    fn path_of<F: Files>(
        &self,
        files: &F,
        alloc: Global,
        order: Order<'_>,
        id: &str,
    ) -> Result<String, AllocError> {
        let (folder, name) = (order.folder, order.lab.name());
        let safe_id = safe_of(alloc, id)?;
        let safe_id = safe_id.as_str();
        let mut path = format!(in alloc; "{folder}/{name}-{safe_id}.script")?;
        let first = self.students.len().saturating_add(1);
        'numbers: for number in first..first.saturating_add(MOST_LISTS) {
            let bytes = first_bytes(files, alloc, path.as_str());
            let is_anothers = is_anothers(alloc, bytes.as_slice(), order.lab, id)?;
            if !is_anothers && !self.has(path.as_str()) {
                break;
            }
            path = format!(in alloc; "{folder}/{name}-{safe_id}-{number}.script")?;
        }
        Ok(path)
    }

    /// Writes the script of a student.
    fn add<F: Files>(
        &mut self,
        files: &F,
        alloc: Global,
        order: Order<'_>,
        student: Student,
        text: &str,
    ) -> Result<(), AllocError> {
        let path = self.path_of(files, alloc, order, student.id.as_str())?;
        match self.put(files, path.as_str(), text.as_bytes()) {
            Put::Written => self.written = self.written.saturating_add(1),
            Put::There => self.tell_there(path.as_str()),
            Put::Failed => {}
        }
        let student = Student {
            file: path,
            ..student
        };
        self.students.push(student)?;
        Ok(())
    }

    /// Writes a new file, or tells why not, unless there is one already.
    fn put<F: Files>(&mut self, files: &F, path: &str, text: &[u8]) -> Put {
        let Err(error) = put_new(files, path, text) else {
            return Put::Written;
        };
        if error.kind() == io::ErrorKind::AlreadyExists {
            return Put::There;
        }
        let path = Visible(path);
        writeln!(&mut self.told, "{path}: {error}");
        Put::Failed
    }

    /// Tells that a file is there already, if not too many are.
    fn tell_there(&mut self, path: &str) {
        self.there = self.there.saturating_add(1);
        if self.there <= MOST_TOLD {
            let path = Visible(path);
            writeln!(
                &mut self.told,
                "{path} is there already, and stays as it is"
            );
        }
    }

    /// Tells of how many files more it was not told that they are there already.
    fn tell_more(&mut self) {
        match self.there.saturating_sub(MOST_TOLD) {
            0 => {}
            more => writeln!(
                &mut self.told,
                "and {more} more are there already, and stay as they are"
            ),
        }
    }

    /// Returns the list of the handouts, as `grade --seeds` reads it.
    fn list_text(&self, alloc: Global) -> Result<Vec<u8>, AllocError> {
        let mut text = Vec::from_slice(alloc, b"id,file\n")?;
        'students: for student in &self.students {
            let row = student_row(alloc, student.id.as_str(), student.file.as_str())?;
            text.extend_from_slice(row.as_slice())?;
        }
        Ok(text)
    }

    /// Writes the list of the handouts to a new file, beside those that are there.
    fn put_list<F: Files>(
        &mut self,
        files: &F,
        alloc: Global,
        order: Order<'_>,
    ) -> Result<(), AllocError> {
        let (text, folder, name) = (self.list_text(alloc)?, order.folder, order.lab.name());
        'lists: for number in 2..MOST_LISTS {
            let path = String::from_str(alloc, self.list.as_str())?;
            match self.put(files, path.as_str(), text.as_slice()) {
                Put::There => {}
                Put::Written | Put::Failed => return Ok(()),
            }
            self.list = format!(in alloc; "{folder}/{name}-{number}.csv")?;
        }
        Ok(())
    }

    /// Appends how many handouts were written, and where their list is.
    fn put_summary(&self, out: &mut Text) {
        let (written, list) = (self.written, Visible(self.list.as_str()));
        match written {
            0 => out.push_str("0 scripts written\n"),
            1 => writeln!(out, "1 script written; the list is {list}"),
            _ => writeln!(out, "{written} scripts written; their list is {list}"),
        }
    }
}

/// Prints the handout of a lab for a seed, or that of its page if there is none, or its key; or writes it to a new file; or writes those of
/// a list.
pub fn hand_out<H: Hosting, S: Screen>(
    host: &mut H,
    screen: &mut S,
    words: &LabWords,
) -> Result<(), Fault> {
    let mut out = Printout::new(host.allocator());
    let done = match &words.seeds {
        Some(list) => hand_out_all(host, &mut out, words, list.as_str()),
        None => hand_out_one(host.files(), &mut out, words),
    };
    out.end(screen, done)
}

/// Puts a handout, or writes it to a new file. A file that is there may have a student's answers: it stays as it is.
///
/// # Errors
/// `Told`: the file is there already; that was told. `File`: it cannot be made. `Memory`: the host is out of memory.
fn hand_out_one<F: Files>(files: &F, out: &mut Printout, words: &LabWords) -> Result<(), Fault> {
    let text = script_of(out, words.lab, words.seed.as_deref(), words.answers)?;
    let path = words.out.as_str();
    if path == "-" {
        out.out.push_str(text.as_str());
        return Ok(());
    }
    match put_new(files, path, text.as_bytes()) {
        Ok(()) => Ok(()),
        Err(error) if error.kind() == io::ErrorKind::AlreadyExists => {
            let path = Visible(path);
            out.tell(format_args!(
                "{path} is there already, and stays as it is; name another file after -o\n"
            ));
            Err(Fault::Told)
        }
        Err(error) => Err(Fault::of_file(out.allocator(), path, error)),
    }
}

/// Writes the handouts of the students of a list to a folder, and a list of them.
///
/// # Errors
/// `Word`: no folder is named. `Told`: the list is faulty, or a file is not written; that was told. `File`: the list cannot be read, or the
/// folder not made. `Memory`: the host is out of memory.
fn hand_out_all<H: Hosting>(
    host: &mut H,
    out: &mut Printout,
    words: &LabWords,
    list: &str,
) -> Result<(), Fault> {
    let (alloc, folder) = (host.allocator(), words.out.as_str());
    if folder == "-" {
        let text = "--seeds takes -o DIR, the folder for the scripts";
        return Err(Fault::of_word(alloc, text));
    }
    let students = listed_students(host, out, list, false)?;
    if let Err(error) = fs::create_dir_all(host.files(), folder) {
        return Err(Fault::of_file(alloc, folder, error));
    }
    let order = Order {
        lab: words.lab,
        answers: words.answers,
        folder: folder.strip_suffix('/').unwrap_or(folder),
    };
    let given = HandedOut::of(host.files(), alloc, out, order, students)?;
    given.put_summary(&mut out.out);
    if given.told.is_empty() {
        return Ok(());
    }
    out.warn(given.told);
    Err(Fault::Told)
}
