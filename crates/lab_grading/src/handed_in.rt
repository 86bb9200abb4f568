// `Targets`: what students hand in, by the paths of files, folders and lists of paths: which files are graded, what is left out, and why.

use grade_reports::Visible;
use handouts::without_mark;
use lab_host::Fault;
use memchr::memchr2;
use std::alloc::{AllocError, Global};
use std::rt::Files;
use std::{fs, io};
use text_builder::Text;

/// What a student hands in: where it is, and for which variant.
#[derive(Drop)]
pub struct Target {
    pub file: String,
    pub id: Option<String>,
}

/// What students hand in.
#[derive(Drop)]
pub struct Targets {
    pub list: Vec<Target>,
    /// A line for each path that is left out: why, and what would be right. Empty if none is.
    pub left_out: Text,
}

/// What there is at a path.
#[derive(Clone, Copy, PartialEq)]
pub enum Kind {
    /// A file, or nothing: to open it tells.
    File,
    Folder,
    /// A pipe or a device: to read it might never end.
    Other,
}

/// Returns what there is at a path.
pub fn kind_of<F: Files>(files: &F, path: &str) -> Kind {
    match files.metadata(path) {
        Ok(metadata) if metadata.is_dir() => Kind::Folder,
        Ok(metadata) if metadata.is_file() => Kind::File,
        Ok(_) => Kind::Other,
        Err(_) => Kind::File,
    }
}

/// Appends that a file of a folder is left out since its name is no UTF-8, which the folder's reader cannot give.
///
/// # Errors
/// The folder cannot be read.
fn put_unnamed(left_out: &mut Text, folder: &str, error: io::Error) -> io::Result<()> {
    if error.kind() != io::ErrorKind::InvalidFilename {
        return Err(error);
    }
    let folder = Visible(folder);
    writeln!(
        left_out,
        "{folder}: left out a file whose name is no UTF-8; rename it"
    );
    Ok(())
}

/// Returns the paths of what is in a folder, in the order of their names, but those whose names begin with a dot.
///
/// # Errors
/// The folder cannot be read, or the host is out of memory.
fn paths_in<F: Files>(
    files: &F,
    alloc: Global,
    folder: &str,
    left_out: &mut Text,
) -> io::Result<Vec<String>> {
    let mut paths = Vec::new(alloc);
    for entry in fs::read_dir(&(files, alloc), folder)? {
        match entry {
            Ok(entry) => {
                let name = entry.file_name();
                if !name.starts_with('.') {
                    paths.push(format!(in alloc; "{folder}/{name}")?)?;
                }
            }
            Err(error) => put_unnamed(left_out, folder, error)?,
        }
    }
    paths.sort()?;
    Ok(paths)
}

impl Targets {
    /// Appends a file, or why it is left out.
    ///
    /// # Errors
    /// `AllocError`: the host is out of memory.
    fn add(&mut self, kind: Kind, file: String) -> Result<(), AllocError> {
        if kind == Kind::File {
            let target = Target { file, id: None };
            self.list.push(target)?;
            return Ok(());
        }
        let why = if kind == Kind::Folder {
            "a folder in a folder; name it as a FILE to grade the files in it"
        } else {
            "no plain file, so reading it might never end; hand in a file"
        };
        self.leave_out(file.as_str(), why);
        Ok(())
    }

    /// Tells that a file is left out, and why.
    fn leave_out(&mut self, file: &str, why: &str) {
        let file = Visible(file);
        writeln!(&mut self.left_out, "{file}: left out, {why}")
    }

    /// Appends what is handed in at a path of a list, or why it is left out.
    ///
    /// # Errors
    /// Those of `add_path`.
    fn add_listed<F: Files>(&mut self, files: &F, alloc: Global, path: &[u8]) -> Result<(), Fault> {
        if path.is_empty() {
            return Ok(());
        }
        if let Ok(path) = std::str::from_utf8(path) {
            return self.add_path(files, alloc, path, true);
        }
        let path = String::from_utf8_lossy(alloc, path)?;
        self.leave_out(path.as_str(), "its name is no UTF-8; rename the file");
        Ok(())
    }

    /// Appends the files of a folder.
    ///
    /// # Errors
    /// The folder cannot be read, or the host is out of memory.
    fn add_folder<F: Files>(&mut self, files: &F, alloc: Global, folder: &str) -> io::Result<()> {
        let folder = folder.strip_suffix('/').unwrap_or(folder);
        for file in paths_in(files, alloc, folder, &mut self.left_out)? {
            self.add(kind_of(files, file.as_str()), file)?;
        }
        Ok(())
    }

    /// Appends what is handed in at a path: a file, or the files of a folder. A shell names its pipes by paths in `/dev`; `is_listed`: the path
    /// is no shell's.
    ///
    /// # Errors
    /// `File`: the folder cannot be read. `Memory`: the host is out of memory.
    pub fn add_path<F: Files>(
        &mut self,
        files: &F,
        alloc: Global,
        path: &str,
        is_listed: bool,
    ) -> Result<(), Fault> {
        let is_shells = path == "-" || (!is_listed && path.starts_with("/dev/"));
        let kind = if is_shells {
            Kind::File
        } else {
            kind_of(files, path)
        };
        if kind != Kind::Folder {
            self.add(kind, String::from_str(alloc, path)?)?;
            return Ok(());
        }
        match self.add_folder(files, alloc, path) {
            Ok(()) => Ok(()),
            Err(error) => Err(Fault::of_file(alloc, path, error)),
        }
    }

    /// Appends what is handed in at the paths of a list, one a line.
    ///
    /// # Errors
    /// Those of `add_path`.
    pub fn add_list<F: Files>(
        &mut self,
        files: &F,
        alloc: Global,
        list: &[u8],
    ) -> Result<(), Fault> {
        let mut rest = without_mark(list);
        'paths: for _ in 0..list.len() {
            if rest.is_empty() {
                break;
            }
            let end = memchr2(b'\n', b'\r', rest).unwrap_or(rest.len());
            let (path, after) = rest.split_at(end.min(rest.len()));
            self.add_listed(files, alloc, path.trim_ascii())?;
            rest = after.get(1..).unwrap_or(&[]);
        }
        Ok(())
    }
}
