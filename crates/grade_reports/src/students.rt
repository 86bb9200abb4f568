// `students_of`: the students of a list, which has the columns `id` and `file`, and maybe others; `ids_of`: those of one that may have no
// column `file`; `first_row` and `put_repeat`: ids that are there more than once.

ghost use Rattle.std.specs.Prelude.{OnOk, ◌<◌, All, IfOk, string_len};

use crate::joints::put_number;
use crate::visible::put_visible;
use csv::{ByteRecord, Reader, ReaderBuilder};
use handouts::without_mark;
use memchr::memchr;
use std::alloc::{AllocError, Global};
use text_builder::Text;

/// A student of a list.
#[derive(Drop)]
pub struct Student {
    pub id: String,
    /// The path of what was handed in; empty if nothing was.
    pub file: String,
    /// The number of the row, as a spreadsheet counts: that with the names is 1.
    pub row: usize,
}

/// Why a list cannot be taken.
#[derive(Clone, Copy)]
pub enum ListFault {
    /// The first row does not name the columns `id` and, if there is to be one, `file`.
    Columns,
    /// It has a byte 0, or the byte order mark of UTF-16.
    Wide,
    /// The id of the row of this number is no UTF-8.
    NotText(usize),
    /// The file of the row of this number is no UTF-8.
    FileNotText(usize),
    /// The row of this number has no id; that with the names is 1.
    NoId(usize),
    /// The host is out of memory.
    Memory,
}

impl From<AllocError> for ListFault {
    fn from(_e: AllocError) -> ListFault {
        ListFault::Memory
    }
}

/// Where the columns are.
#[derive(Clone, Copy)]
struct Columns {
    id: usize,
    file: Option<usize>,
}

/// The bytes that may part the fields of a row. A spreadsheet writes semicolons where a comma stands in numbers.
static DELIMITERS: [u8; 3] = [b',', b';', b'\t'];

/// Whether a text is UTF-16, as some programs save a list, or no text.
pub fn is_wide(text: &[u8]) -> bool {
    text.starts_with(&[0xff, 0xfe]) || text.starts_with(&[0xfe, 0xff]) || memchr(0, text).is_some()
}

/// Returns a list without the line `sep=;` that some spreadsheets take before the rows, and without the byte order mark before that line.
fn without_separator(text: &[u8]) -> &[u8] {
    let bare = without_mark(text);
    let (word, rest) = (bare.get(..4).unwrap_or(&[]), bare.get(5..).unwrap_or(&[]));
    match rest {
        [b'\r' | b'\n', ..] if word.eq_ignore_ascii_case(b"sep=") => rest,
        _ => text,
    }
}

/// Returns a field of a row; nothing if there is none, or no column is read.
fn field_at(row: &ByteRecord, place: Option<usize>) -> &[u8] {
    match place {
        Some(place) => row.get(place).unwrap_or(b""),
        None => b"",
    }
}

/// Returns the place of a column, by its name in capital or small letters.
fn column(names: &ByteRecord, name: &str) -> Option<usize> {
    'places: for place in 0..names.len() {
        let field = field_at(names, Some(place)).trim_ascii();
        if field.eq_ignore_ascii_case(name.as_bytes()) {
            return Some(place);
        }
    }
    None
}

/// Whether each field of a row is empty, as those below a table are.
fn is_blank(row: &ByteRecord) -> bool {
    'places: for place in 0..row.len() {
        if !field_at(row, Some(place)).trim_ascii().is_empty() {
            return false;
        }
    }
    true
}

/// Returns the student of a row, which has this number, without blanks around its fields.
fn student_of(
    alloc: Global,
    row: &ByteRecord,
    columns: Columns,
    number: usize,
) -> Result<Student, ListFault>
    ensures { IfOk result (λ s. 0 < string_len s.id) }
{
    let Ok(id) = std::str::from_utf8(field_at(row, Some(columns.id))) else {
        return Err(ListFault::NotText(number));
    };
    let Ok(file) = std::str::from_utf8(field_at(row, columns.file)) else {
        return Err(ListFault::FileNotText(number));
    };
    let id = String::from_str(alloc, id.trim())?;
    if id.is_empty() {
        return Err(ListFault::NoId(number));
    }
    Ok(Student {
        id,
        file: String::from_str(alloc, file.trim())?,
        row: number,
    })
}

/// Returns where the columns are that a row names, if it names those that are read. `needs_file`: the column `file` is.
fn columns_of(names: &ByteRecord, needs_file: bool) -> Option<Columns> {
    let file = if needs_file {
        Some(column(names, "file")?)
    } else {
        None
    };
    Some(Columns {
        id: column(names, "id")?,
        file,
    })
}

/// Adds the student of a row, which has this number, unless it has no text.
fn keep_row(
    alloc: Global,
    students: &mut Vec<Student>,
    row: &ByteRecord,
    columns: Columns,
    number: usize,
) -> Result<(), ListFault>
    ensures { OnOk result (All (λ s. 0 < string_len s.id) students.old.items → All (λ s. 0 < string_len s.id) students.new.items) }
{
    if is_blank(row) {
        return Ok(());
    }
    match students.push(student_of(alloc, row, columns, number)?) {
        Ok(()) => Ok(()),
        Err(_) => Err(ListFault::Memory),
    }
}

/// The rows of a list.
#[derive(Drop)]
struct Rows<'a> {
    reader: Reader<&'a [u8]>,
    /// The last row that was read.
    row: ByteRecord,
}

impl<'a> Rows<'a> {
    /// Returns the rows of a list, which may have any lengths; this byte parts their fields.
    fn of(alloc: Global, text: &'a [u8], delimiter: u8) -> Rows<'a> {
        Rows {
            reader: ReaderBuilder::new()
                .has_headers(false)
                .flexible(true)
                .delimiter(delimiter)
                .from_reader(alloc, text),
            row: ByteRecord::new(alloc),
        }
    }

    /// Reads the next row, and returns whether there is one; without one the row is empty. Rows of any lengths are taken, from memory, so
    /// that no other error than of memory can come.
    fn read(&mut self) -> Result<bool, ListFault> {
        match self.reader.read_byte_record(&mut self.row) {
            Ok(found) => Ok(found),
            Err(_) => Err(ListFault::Memory),
        }
    }

    /// Returns the students of all rows but the first, which has the names of the columns; `needs_file`: whether the column `file` is read. The
    /// rows have numbers below `end`, and those without any text are passed over.
    fn students(
        &mut self,
        alloc: Global,
        needs_file: bool,
        end: usize,
    ) -> Result<Vec<Student>, ListFault>
        ensures { IfOk result (λ students. All (λ s. 0 < string_len s.id) students.items) }
    {
        let _has_names = self.read()?;
        let Some(columns) = columns_of(&self.row, needs_file) else {
            return Err(ListFault::Columns);
        };
        let mut students = Vec::new(alloc);
        'rows: for number in 2..end {
            if !self.read()? {
                break;
            }
            keep_row(alloc, &mut students, &self.row, columns, number)?;
        }
        Ok(students)
    }
}

/// Returns the students of a list whose fields this byte parts; `needs_file`: whether the column `file` is read.
fn rows_by(
    alloc: Global,
    text: &[u8],
    delimiter: u8,
    needs_file: bool,
) -> Result<Vec<Student>, ListFault>
    ensures { IfOk result (λ students. All (λ s. 0 < string_len s.id) students.items) }
{
    let mut rows = Rows::of(alloc, text, delimiter);
    rows.students(alloc, needs_file, text.len().saturating_add(2))
}

/// Returns the students of a list, in its order, by the first byte of `DELIMITERS` that parts the names of its columns; `needs_file`: whether the
/// column `file` is read.
fn rows_of(alloc: Global, text: &[u8], needs_file: bool) -> Result<Vec<Student>, ListFault>
    ensures { IfOk result (λ students. All (λ s. 0 < string_len s.id) students.items) }
{
    if is_wide(text) {
        return Err(ListFault::Wide);
    }
    let text = without_separator(text);
    'delimiters: for delimiter in DELIMITERS.as_slice() {
        match rows_by(alloc, text, *delimiter, needs_file) {
            Err(ListFault::Columns) => {}
            read => return read,
        }
    }
    Err(ListFault::Columns)
}

/// Returns the students of a list, in its order. Names of columns, in any case, and fields may have blanks around them; a byte order mark may
/// stand before the first, and a line `sep=;`. Commas, semicolons or tabs part the fields, and any of CR, LF and CR LF the rows.
///
/// # Errors
/// `Columns`: the first row does not name the columns `id` and `file`. `Wide`: it is UTF-16. `NotText`, `FileNotText`: an id or a path is no
/// UTF-8. `NoId`: a row has no id. `Memory`: the host is out of memory.
pub fn students_of(alloc: Global, text: &[u8]) -> Result<Vec<Student>, ListFault>
    ensures { IfOk result (λ students. All (λ s. 0 < string_len s.id) students.items) }
{
    rows_of(alloc, text, true)
}

/// Returns the students of a list as `students_of` does, without their files: it need have no column `file`.
///
/// # Errors
/// Those of `students_of`, but `FileNotText`.
pub fn ids_of(alloc: Global, text: &[u8]) -> Result<Vec<Student>, ListFault>
    ensures { IfOk result (λ students. All (λ s. 0 < string_len s.id) students.items) }
{
    rows_of(alloc, text, false)
}

/// Returns the number of the first row with an id.
pub fn first_row(students: &[Student], id: &str) -> Option<usize> {
    'students: for student in students {
        if student.id.as_str() == id {
            return Some(student.row);
        }
    }
    None
}

/// Appends a line that says that two rows of a list have one id.
pub fn put_repeat(out: &mut Text, first: usize, row: usize, id: &str) {
    out.push_str("rows ");
    put_number(out, first);
    out.push_str(" and ");
    put_number(out, row);
    out.push_str(" have the id ");
    put_visible(out, id);
    out.push_str("; give each student another\n");
}
