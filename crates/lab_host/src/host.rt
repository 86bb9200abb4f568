// `Host`: where scripts come from; `Hosting`, what it does for those who ask for files; `Reading`, what is done with a file; `bytes_of`
// reads the first bytes of one, and `write_file` writes one.

use crate::fault::Fault;
use std::alloc::Global;
use std::fs;
use std::io::Read;
use std::rt::Files;

/// What is done with a file that is read from its beginning to its end.
pub trait Reading {
    /// Reads the file.
    fn read<R: Read + Drop>(&mut self, alloc: Global, reader: R) -> Result<(), Fault>;
}

/// What a host does.
pub trait Hosting {
    /// Its files.
    type Files: Files;

    /// Returns its files.
    fn files(&self) -> &Self::Files;

    /// Returns from where memory is.
    fn allocator(&self) -> Global;

    /// Gives a file to what reads it; `-` is standard input.
    ///
    /// # Errors
    /// `File`: the file cannot be opened or read. Those of the reading.
    fn give<T: Reading>(&mut self, name: &str, reading: &mut T) -> Result<(), Fault>;
}

/// Where scripts come from.
#[derive(Drop)]
pub struct Host<'a, F: Files, I: Read + Drop> {
    pub files: &'a F,
    pub alloc: Global,
    /// Standard input, until it was read.
    pub input: Option<I>,
}

impl<F: Files, I: Read + Drop> Hosting for Host<'_, F, I> {
    type Files = F;

    fn files(&self) -> &F {
        self.files
    }

    fn allocator(&self) -> Global {
        self.alloc
    }

    fn give<T: Reading>(&mut self, name: &str, reading: &mut T) -> Result<(), Fault> {
        let alloc = self.alloc;
        if name == "-" {
            return match self.input.take() {
                Some(input) => reading.read(alloc, input),
                None => reading.read(alloc, b"".as_slice()),
            };
        }
        let read = match fs::open(self.files, name) {
            Ok(file) => reading.read(alloc, file),
            Err(error) => Err(Fault::Read(error)),
        };
        match read {
            Err(Fault::Read(error)) => Err(Fault::of_file(alloc, name, error)),
            read => read,
        }
    }
}

/// The bytes of a file, at most so many and one more.
#[derive(Drop)]
struct FirstBytes {
    bytes: Vec<u8>,
    most: usize,
}

impl Reading for FirstBytes {
    fn read<R: Read + Drop>(&mut self, _alloc: Global, reader: R) -> Result<(), Fault> {
        let most = (self.most as u64).saturating_add(1);
        match reader.take(most).read_to_end(&mut self.bytes) {
            Ok(_) => Ok(()),
            Err(error) => Err(Fault::of_reading(error)),
        }
    }
}

/// Returns the first bytes of a file, at most so many and one more; `-` is standard input.
///
/// # Errors
/// `File`, `Read`: the file cannot be opened or read. `Memory`: the host is out of memory.
pub fn bytes_of<H: Hosting>(host: &mut H, name: &str, most: usize) -> Result<Vec<u8>, Fault> {
    let mut first = FirstBytes {
        bytes: Vec::new(host.allocator()),
        most,
    };
    host.give(name, &mut first)?;
    Ok(first.bytes)
}

/// Writes a text to a file.
///
/// # Errors
/// `File`: the file cannot be written. `Memory`: the host is out of memory.
pub fn write_file<F: Files>(
    files: &F,
    alloc: Global,
    path: &str,
    text: &[u8],
) -> Result<(), Fault> {
    match fs::write(files, path, text) {
        Ok(()) => Ok(()),
        Err(error) => Err(Fault::of_file(alloc, path, error)),
    }
}
