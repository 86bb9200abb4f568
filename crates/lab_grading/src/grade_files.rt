// `grade`: reads what students hand in, grades it, and prints the grades.

use crate::class_order::{in_order, note_repeats};
use crate::content::{Content, MOST_BYTES};
use crate::handed_in::{Kind, Target, Targets, kind_of};
use crate::played_handouts::play_handout;
use crate::printed::put_grades;
use command_words::{GradeForm, GradeWords, Source};
use grade_reports::{
    FileGrade, ListFault, Standing, Student, Visible, first_row, ids_of, is_wide, other_lab,
    put_repeat, students_of,
};
use handouts::Asked;
use lab_host::{Fault, Hosting, Printout, Screen, bytes_of, print};
use lab_variants::{Lab, is_of_page, seed_of};
use std::alloc::{AllocError, Global};
use std::io;
use text_builder::Text;

/// What is wrong with a command line that names nothing to be graded.
const NO_FILES: &str =
    "grade --lab takes FILEs, each graded by the student whom it names, or --seeds LIST.csv";

/// The id of a variant that no student has.
const NO_STUDENT: &str = "zq0student0qz";

/// Whether a file could not be opened since there is none.
fn is_missing(fault: &Fault) -> bool {
    match fault {
        Fault::File(_, error) => matches!(error.kind(), io::ErrorKind::NotFound),
        _ => false,
    }
}

/// Tells what is wrong with a list of students; `columns`: those that it must have.
fn tell_list(out: &mut Printout, list: &str, columns: &str, fault: ListFault) {
    let list = Visible(list);
    match fault {
        ListFault::Memory => out.fail(Fault::Memory),
        ListFault::Columns => {
            out.tell(format_args!("{list}: the first row does not name the {columns}\n"))
        }
        ListFault::NoId(row) => out.tell(format_args!("{list}: row {row} has no id\n")),
        ListFault::NotText(row) => out.tell(format_args!(
            "{list}: the id of row {row} is no UTF-8; save the list as UTF-8, a spreadsheet's as CSV UTF-8\n"
        )),
        ListFault::FileNotText(row) => out.tell(format_args!(
            "{list}: the file of row {row} is no UTF-8; save the list as UTF-8, a spreadsheet's as CSV UTF-8, and rename a file whose name is none\n"
        )),
        ListFault::Wide => out.tell(format_args!(
            "{list}: this is UTF-16, or no text; save the list as UTF-8, a spreadsheet's as CSV UTF-8\n"
        )),
    }
}

/// What a file names in its comments, if it is not what the handout names.
#[derive(Drop)]
struct Others {
    id: Option<String>,
    /// The number of a lab.
    lab: Option<u32>,
    /// Whether it names the lab's page, and the handout does not.
    is_of_page: bool,
}

impl Others {
    /// Returns what a file names; `id`: the id that it names, if that is not the handout's.
    fn of(handout: &[u8], file: &[u8], id: Option<String>) -> Others {
        Others {
            id,
            lab: other_lab(handout, file),
            is_of_page: is_of_page(file) && !is_of_page(handout),
        }
    }
}

/// Returns the id that a file names, if it is another than a student's.
fn other_id(alloc: Global, lab: Lab, id: &str, file: &[u8]) -> Result<Option<String>, AllocError> {
    let Some(other) = seed_of(alloc, lab, file)? else {
        return Ok(None);
    };
    if other.as_str() == id {
        Ok(None)
    } else {
        Ok(Some(other))
    }
}

/// Tells which ids a list has more than once, and returns whether it has none.
fn tell_repeats(out: &mut Printout, list: &str, students: &[Student]) -> bool {
    let mut text = Text::new(out.allocator());
    'students: for student in students {
        put_if_repeated(&mut text, list, students, student);
    }
    let has_none = text.is_empty();
    out.warn(text);
    has_none
}

/// Appends that an earlier row of a list has the id of this student, if one has.
fn put_if_repeated(text: &mut Text, list: &str, students: &[Student], student: &Student) {
    let id = student.id.as_str();
    match first_row(students, id) {
        Some(first) if first < student.row => {
            let list = Visible(list);
            write!(text, "{list}: ");
            put_repeat(text, first, student.row, id)
        }
        _ => {}
    }
}

/// A variant of a lab that no student has, by which files are graded that name none.
#[derive(Drop)]
struct Sample {
    lab: Lab,
    handout: String,
    asked: Vec<Asked>,
}

/// Returns the variant of a lab that no student has, with the machine's answers.
fn sample_of(out: &mut Printout, lab: Lab) -> Result<Sample, Fault> {
    let handout = lab_variants::handout(out.allocator(), lab, NO_STUDENT)?;
    let asked = play_handout(out, NO_STUDENT, handout.as_bytes())?;
    Ok(Sample {
        lab,
        handout,
        asked,
    })
}

/// By which handout files are graded.
#[derive(Drop)]
enum GradedBy<'a> {
    /// All by one: its text, and its lines with the machine's answers.
    Handout(&'a [u8], &'a [Asked]),
    /// Each by the variant of a lab that was made for the student whom it names; by the sample if it names none.
    Head(&'a Sample),
}

/// What was graded so far.
#[derive(Drop)]
struct Grading {
    grades: Vec<FileGrade>,
    /// Whether none was left out, no id of a list is there twice, and each file so far was there and could be read.
    is_whole: bool,
}

impl Grading {
    /// Returns a grading of no file; `is_whole`: none was left out, and no id of a list is there twice.
    fn new(alloc: Global, is_whole: bool) -> Grading {
        Grading {
            grades: Vec::new(alloc),
            is_whole,
        }
    }

    /// Grades what was read of a file.
    fn push(
        &mut self,
        alloc: Global,
        handout: &[Asked],
        target: Target,
        mut content: Content,
        others: Others,
    ) -> Result<(), AllocError> {
        self.is_whole = self.is_whole && content.is_read;
        let lines = content.lines(alloc)?;
        let Target { file, id } = target;
        let Content { standing, why, .. } = content;
        let grade = FileGrade::of(alloc, file, standing, handout, lines.as_slice())?;
        let grade = FileGrade {
            id,
            other_id: others.id,
            other_lab: others.lab,
            is_of_page: others.is_of_page,
            why,
            ..grade
        };
        self.grades.push(grade)?;
        Ok(())
    }

    /// Grades what was read of a file by a student's variant of a lab.
    fn push_variant(
        &mut self,
        out: &mut Printout,
        lab: Lab,
        id: String,
        file: String,
        content: Content,
    ) -> Result<(), Fault> {
        let alloc = out.allocator();
        let handout = lab_variants::handout(alloc, lab, id.as_str())?;
        let asked = play_handout(out, id.as_str(), handout.as_bytes())?;
        let other = other_id(alloc, lab, id.as_str(), content.bytes.as_slice())?;
        let others = Others::of(handout.as_bytes(), content.bytes.as_slice(), other);
        let target = Target { file, id: Some(id) };
        self.push(alloc, asked.as_slice(), target, content, others)?;
        Ok(())
    }

    /// Grades what was read of a file by the variant that was made for the student whom it names.
    fn push_by_head(
        &mut self,
        out: &mut Printout,
        sample: &Sample,
        target: Target,
        content: Content,
    ) -> Result<(), Fault> {
        let alloc = out.allocator();
        if let Some(id) = seed_of(alloc, sample.lab, content.bytes.as_slice())? {
            return self.push_variant(out, sample.lab, id, target.file, content);
        }
        let others = Others::of(sample.handout.as_bytes(), content.bytes.as_slice(), None);
        let content = content.unnamed(alloc)?;
        self.push(alloc, sample.asked.as_slice(), target, content, others)?;
        Ok(())
    }

    /// Grades what was read of a file.
    fn add(
        &mut self,
        out: &mut Printout,
        by: &GradedBy<'_>,
        target: Target,
        content: Content,
    ) -> Result<(), Fault> {
        match by {
            GradedBy::Handout(text, asked) => {
                let others = Others::of(text, content.bytes.as_slice(), None);
                self.push(out.allocator(), asked, target, content, others)?;
                Ok(())
            }
            GradedBy::Head(sample) => self.push_by_head(out, sample, target, content),
        }
    }
}

/// Returns what there is of a file that could not be read, and tells why if it is there.
///
/// # Errors
/// `Memory`: the host is out of memory.
fn unread(out: &mut Printout, fault: Fault) -> Result<Content, Fault> {
    let alloc = out.allocator();
    if matches!(fault, Fault::Memory) {
        return Err(fault);
    }
    if is_missing(&fault) {
        return Ok(Content::nothing(alloc, Standing::Missing, false));
    }
    let why = fault.because(alloc)?;
    writeln!(&mut out.err, "{fault}");
    Ok(Content {
        why,
        ..Content::nothing(alloc, Standing::Unreadable, false)
    })
}

/// Returns what there is of a path that a list of students has and that is no file, and tells why.
///
/// # Errors
/// `Memory`: the host is out of memory.
fn no_file(out: &mut Printout, file: &str, why: &str) -> Result<Content, Fault> {
    let (alloc, file) = (out.allocator(), Visible(file));
    writeln!(&mut out.err, "{file}: {why}");
    match String::from_str(alloc, why) {
        Ok(why) => Ok(Content {
            why,
            ..Content::nothing(alloc, Standing::Unreadable, false)
        }),
        Err(_) => Err(Fault::Memory),
    }
}

/// Returns the students of a list, with these bytes and this name; `needs_file`: it must say what each handed in.
///
/// # Errors
/// `Told`: the list is faulty; that was told. `Memory`: the host is out of memory.
fn students_in(
    out: &mut Printout,
    list: &str,
    text: &[u8],
    needs_file: bool,
) -> Result<Vec<Student>, Fault> {
    let alloc = out.allocator();
    let (found, columns) = if needs_file {
        (students_of(alloc, text), "columns id and file")
    } else {
        (ids_of(alloc, text), "column id")
    };
    match found {
        Ok(students) => Ok(students),
        Err(ListFault::Memory) => Err(Fault::Memory),
        Err(fault) => {
            tell_list(out, list, columns, fault);
            Err(Fault::Told)
        }
    }
}

/// Returns what there is of a file, and tells why if it is there and cannot be read.
///
/// # Errors
/// `Memory`: the host is out of memory.
fn content_of<H: Hosting>(host: &mut H, out: &mut Printout, file: &str) -> Result<Content, Fault> {
    match bytes_of(host, file, MOST_BYTES) {
        Ok(bytes) => Ok(Content::of(host.allocator(), bytes)),
        Err(fault) => unread(out, fault),
    }
}

/// Returns what there is of the file that a list of students names, and tells why if that cannot be read.
///
/// # Errors
/// Those of `content_of`.
fn listed_content<H: Hosting>(
    host: &mut H,
    out: &mut Printout,
    file: &str,
) -> Result<Content, Fault> {
    if file.is_empty() {
        return Ok(Content::nothing(host.allocator(), Standing::Missing, true));
    }
    match kind_of(host.files(), file) {
        Kind::File => content_of(host, out, file),
        Kind::Folder => no_file(out, file, "this is a folder; name the file in it"),
        Kind::Other => no_file(
            out,
            file,
            "no plain file, so reading it might never end; name a file",
        ),
    }
}

/// Returns the bytes of a handout or a list, which may have so many.
///
/// # Errors
/// `File`: it cannot be opened or read. `Told`: it has too many bytes; that was told. `Memory`: the host is out of memory.
fn whole_file<H: Hosting>(
    host: &mut H,
    out: &mut Printout,
    file: &str,
    most: usize,
) -> Result<Vec<u8>, Fault> {
    let bytes = bytes_of(host, file, most)?;
    if bytes.len() > most {
        let name = Visible(file);
        out.tell(format_args!("{name}: more than {most} bytes\n"));
        return Err(Fault::Told);
    }
    Ok(bytes)
}

/// Returns what is handed in at some paths, and at those of a list, and tells what is left out; also whether nothing is.
fn targets_of<H: Hosting>(
    host: &mut H,
    out: &mut Printout,
    paths: &[String],
    list: Option<&str>,
) -> Result<(Vec<Target>, bool), Fault> {
    let alloc = host.allocator();
    let mut targets = Targets {
        list: Vec::new(alloc),
        left_out: Text::new(alloc),
    };
    'paths: for path in paths {
        targets.add_path(host.files(), alloc, path.as_str(), false)?;
    }
    if let Some(list) = list {
        let text = whole_file(host, out, list, 16 * MOST_BYTES)?;
        if is_wide(text.as_slice()) {
            tell_list(out, list, "", ListFault::Wide);
            return Err(Fault::Told);
        }
        targets.add_list(host.files(), alloc, text.as_slice())?;
    }
    let is_whole = targets.left_out.is_empty();
    out.warn(targets.left_out);
    Ok((targets.list, is_whole))
}

/// Returns the students of a list; `needs_file`: it must say what each handed in.
///
/// # Errors
/// `File`: the list cannot be opened or read. `Told`: it is faulty; that was told. `Memory`: the host is out of memory.
pub fn listed_students<H: Hosting>(
    host: &mut H,
    out: &mut Printout,
    list: &str,
    needs_file: bool,
) -> Result<Vec<Student>, Fault> {
    let text = whole_file(host, out, list, 16 * MOST_BYTES)?;
    students_in(out, list, text.as_slice(), needs_file)
}

/// Grades files; beside them is given whether none was left out.
fn grade_each<H: Hosting>(
    host: &mut H,
    out: &mut Printout,
    by: &GradedBy<'_>,
    targets: (Vec<Target>, bool),
) -> Result<Grading, Fault> {
    let (list, is_whole) = targets;
    let mut grading = Grading::new(host.allocator(), is_whole);
    'targets: for target in list {
        let content = content_of(host, out, target.file.as_str())?;
        grading.add(out, by, target, content)?;
    }
    Ok(grading)
}

/// Grades files by one handout.
fn grade_all<H: Hosting>(
    host: &mut H,
    out: &mut Printout,
    handout: &str,
    targets: (Vec<Target>, bool),
) -> Result<Grading, Fault> {
    let text = whole_file(host, out, handout, MOST_BYTES)?;
    let asked = play_handout(out, handout, text.as_slice())?;
    let by = GradedBy::Handout(text.as_slice(), asked.as_slice());
    grade_each(host, out, &by, targets)
}

/// Grades what the students of a list hand in, each by a variant of a lab.
fn grade_variants<H: Hosting>(
    host: &mut H,
    out: &mut Printout,
    lab: Lab,
    list: &str,
) -> Result<Grading, Fault> {
    let students = listed_students(host, out, list, true)?;
    let is_whole = tell_repeats(out, list, students.as_slice());
    let mut grading = Grading::new(host.allocator(), is_whole);
    'students: for student in students {
        let Student { id, file, .. } = student;
        let content = listed_content(host, out, file.as_str())?;
        grading.push_variant(out, lab, id, file, content)?;
    }
    Ok(grading)
}

/// Grades files of a list, each by the variant of a lab that was made for the student whom it names.
fn grade_named<H: Hosting>(
    host: &mut H,
    out: &mut Printout,
    sample: &Sample,
    targets: (Vec<Target>, bool),
) -> Result<Grading, Fault> {
    let mut grading = grade_each(host, out, &GradedBy::Head(sample), targets)?;
    note_repeats(host.allocator(), &mut grading.grades)?;
    Ok(grading)
}

/// Grades files, each by the variant of a lab that was made for the student whom it names, in the order of a list of students, with those
/// who handed in nothing.
fn grade_class<H: Hosting>(
    host: &mut H,
    out: &mut Printout,
    sample: &Sample,
    list: &str,
    targets: (Vec<Target>, bool),
) -> Result<Grading, Fault> {
    let students = listed_students(host, out, list, false)?;
    let is_listed = tell_repeats(out, list, students.as_slice());
    let Grading { grades, is_whole } = grade_named(host, out, sample, targets)?;
    let asked = sample.asked.as_slice();
    Ok(Grading {
        grades: in_order(host.allocator(), grades, students.as_slice(), asked)?,
        is_whole: is_whole && is_listed,
    })
}

/// Grades what a command line names.
///
/// # Errors
/// Those of `grade`.
fn graded<H: Hosting>(
    host: &mut H,
    out: &mut Printout,
    words: &GradeWords,
) -> Result<Grading, Fault> {
    let (files, has_none) = (words.files.as_slice(), words.files.is_empty());
    match (&words.source, has_none) {
        (Source::Variants(lab, list), true) => grade_variants(host, out, *lab, list.as_str()),
        (Source::Variants(lab, list), false) => {
            let targets = targets_of(host, out, files, None)?;
            let sample = sample_of(out, *lab)?;
            grade_class(host, out, &sample, list.as_str(), targets)
        }
        (Source::Named(_, None), true) => Err(Fault::of_word(host.allocator(), NO_FILES)),
        (Source::Named(lab, list), _) => {
            let targets = targets_of(host, out, files, list.as_deref())?;
            let sample = sample_of(out, *lab)?;
            grade_named(host, out, &sample, targets)
        }
        (Source::Handout(handout, list), _) => {
            let targets = targets_of(host, out, files, list.as_deref())?;
            grade_all(host, out, handout.as_str(), targets)
        }
    }
}

/// Grades what a command line names, and prints the grades.
///
/// # Errors
/// `Word`: nothing is named to be graded; or there is not one file, and results for Gradescope are to be printed. `Told`: the handout or the list is faulty; or a file is
/// missing, cannot be read or was left out, or a list has an id twice, after all grades were printed. `File`: the handout, a list or a folder
/// cannot be read. `Memory`: the host is out of memory.
pub fn grade<H: Hosting, S: Screen>(
    host: &mut H,
    screen: &mut S,
    words: &GradeWords,
) -> Result<(), Fault> {
    let mut told = Printout::new(host.allocator());
    let grading = graded(host, &mut told, words);
    told.print(screen)?;
    let Grading { grades, is_whole } = grading?;
    if matches!(words.form, GradeForm::Gradescope) && grades.len() != 1 {
        return Err(Fault::of_word(host.allocator(), "--gradescope takes exactly one FILE"));
    }
    let mut text = Text::new(host.allocator());
    put_grades(&mut text, words.form, grades.as_slice());
    print(screen, text);
    if is_whole { Ok(()) } else { Err(Fault::Told) }
}
