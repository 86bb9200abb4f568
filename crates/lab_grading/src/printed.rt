// Puts grades as a command line asks for: `put_grades`.

use command_words::GradeForm;
use grade_reports::{
    FileGrade, FileObject, ResultsObject, csv_head, csv_row, put_summary, put_table,
};
use lab_host::{put_lossy, put_object};
use text_builder::Text;

/// Appends grades.
pub fn put_grades(out: &mut Text, form: GradeForm, grades: &[FileGrade]) {
    match form {
        GradeForm::Table => {
            put_table(out.allocator(), out, grades);
            put_summary(out, grades)
        }
        GradeForm::Csv => put_csv(out, grades),
        GradeForm::Json => put_objects(out, grades),
        GradeForm::Gradescope => put_results(out, grades),
    }
}

/// Appends grades as CSV.
fn put_csv(out: &mut Text, grades: &[FileGrade]) {
    out.push_str(csv_head());
    for grade in grades {
        match csv_row(out.allocator(), grade) {
            // its fields are text, so it is
            Ok(row) => put_lossy(out, row.as_slice()),
            Err(error) => out.note(Err(error)),
        }
    }
}

/// Appends grades as JSON objects, one a line.
fn put_objects(out: &mut Text, grades: &[FileGrade]) {
    for grade in grades {
        match FileObject::of(out.allocator(), grade) {
            Ok(object) => put_object(out, &object),
            Err(error) => out.note(Err(error)),
        }
    }
}

/// Appends the grade of the first file as Gradescope takes it.
fn put_results(out: &mut Text, grades: &[FileGrade]) {
    if let Some(grade) = grades.first() {
        match ResultsObject::of(out.allocator(), grade) {
            Ok(object) => put_object(out, &object),
            Err(error) => out.note(Err(error)),
        }
    }
}
