// Grades of files that name students: `in_order`, as a list of students has them; `note_repeats`, whether two name one.

use grade_reports::{FileGrade, Standing, Student, Visible, first_row};
use handouts::Asked;
use std::alloc::{AllocError, Global};

/// Whether a file was graded for this student.
fn is_of(grade: &FileGrade, id: &str) -> bool {
    match &grade.id {
        Some(own) => own.as_str() == id,
        None => false,
    }
}

/// Returns which other file names the student of a file, in words, if one does.
fn repeat_of(
    alloc: Global,
    grades: &[FileGrade],
    place: usize,
) -> Result<Option<String>, AllocError> {
    let Some(
        FileGrade {
            id: Some(id),
            file,
            ..
        },
    ) = grades.get(place)
    else {
        return Ok(None);
    };
    'grades: for (other, grade) in grades.iter().enumerate() {
        if other != place && is_of(grade, id.as_str()) {
            let (first, second) = (Visible(file.as_str()), Visible(grade.file.as_str()));
            return Ok(Some(format!(in alloc;
                "this is {first}, and {second} names this student too"
            )?));
        }
    }
    Ok(None)
}

/// Notes at each file whose student another file names too which files these are.
///
/// # Errors
/// `AllocError`: the host is out of memory.
pub fn note_repeats(alloc: Global, grades: &mut Vec<FileGrade>) -> Result<(), AllocError> {
    'grades: for place in 0..grades.len() {
        let Some(why) = repeat_of(alloc, grades.as_slice(), place)? else {
            continue;
        };
        if let Some(grade) = grades.get_mut(place) {
            grade.why = why;
        }
    }
    Ok(())
}

/// Returns that a student handed in nothing.
fn nothing_of(alloc: Global, asked: &[Asked], id: &str) -> Result<FileGrade, AllocError> {
    let (file, id) = (String::new(alloc), Some(String::from_str(alloc, id)?));
    let grade = FileGrade::of(alloc, file, Standing::Missing, asked, &[])?;
    Ok(FileGrade { id, ..grade })
}

/// Moves the grades of a student to the end of others, and returns the rest; if there are none, the student handed in nothing.
fn take_of(
    alloc: Global,
    grades: Vec<FileGrade>,
    ordered: &mut Vec<FileGrade>,
    asked: &[Asked],
    id: &str,
) -> Result<Vec<FileGrade>, AllocError> {
    let (mut rest, mut has_none) = (Vec::new(alloc), true);
    'grades: for grade in grades {
        if is_of(&grade, id) {
            ordered.push(grade)?;
            has_none = false;
        } else {
            rest.push(grade)?;
        }
    }
    if has_none {
        ordered.push(nothing_of(alloc, asked, id)?)?;
    }
    Ok(rest)
}

/// Returns grades in the order of a list of students, with those who handed in nothing; below them those of files that name no student of it.
///
/// # Errors
/// `AllocError`: the host is out of memory.
pub fn in_order(
    alloc: Global,
    grades: Vec<FileGrade>,
    students: &[Student],
    asked: &[Asked],
) -> Result<Vec<FileGrade>, AllocError> {
    let (mut ordered, mut rest) = (Vec::new(alloc), grades);
    'students: for student in students {
        if first_row(students, student.id.as_str()) == Some(student.row) {
            rest = take_of(alloc, rest, &mut ordered, asked, student.id.as_str())?;
        }
    }
    'rest: for grade in rest {
        let why = match &grade.id {
            Some(_) => String::from_str(alloc, "the list has no such student")?,
            None => String::from_str(alloc, grade.why.as_str())?,
        };
        ordered.push(FileGrade { why, ..grade })?;
    }
    Ok(ordered)
}
