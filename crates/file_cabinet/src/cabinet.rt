// `Cabinet`, a struct: the files of a single thread, in host memory, with `new`, `bytes` and the calls of the trait
// `Files` (promise, read, lend and write a page, length, writable). A promise, so that these page reads and writes cannot fail,
// is never refused.

ghost use Rattle.std.specs.Prelude.{◌≡◌, ◌≤◌, All, IfOk, IsTrue, length, map, option_copied, option_map, slice_get};
ghost use Rattle.process_model.specs.Files.{file_of, fits_file};
ghost use Rattle.process_model.specs.declared.limits.TheConstants.{MOST_FILES};

use crate::files::Files;
use crate::held_file::HeldFile;
use crate::promise::PromiseError;
use process_model::FileText;
use std::alloc::{AllocError, Global};
use std::marker::Model;

/// Files in host memory, numbered from 0. Contracts see the model's files. Only `new` takes host memory.
#[derive(Drop)]
pub struct Cabinet {
    held: Vec<HeldFile>,
}

impl Model for Cabinet {
    ghost use Rattle.std.specs.Prelude.{List};
    ghost use Rattle.process_model.specs.Files.{File};

    ghost Value = { List File };

    ghost view = { λ cabinet. cabinet.held.items };
}

impl Cabinet {
    /// Makes the declared files, in the order of their numbers: each has the bytes that were declared, then zeros up to its
    /// length. There are at most `MOST_FILES`, each with a length of at most `LONGEST_FILE` bytes and no more declared bytes
    /// than that length (`fits_file`).
    ///
    /// # Errors
    /// `AllocError`: the host is out of memory.
    pub fn new(alloc: Global, files: &[FileText]) -> Result<Cabinet, AllocError>
        requires few { length files.now ≤ MOST_FILES }
        requires fit { All (λ f. IsTrue (fits_file f)) files.now }
        ensures { IfOk result (λ cabinet. cabinet ≡ map file_of files.now) }
    {
        let mut held = Vec::with_capacity(alloc, files.len())?;
        for text in files {
            held.push(HeldFile::new(alloc, text)?)?;
        }
        Ok(Cabinet { held })
    }

    /// Returns all bytes of a file, or `None` if there is no file with this number.
    pub fn bytes(&self, file: usize) -> Option<&[u8]>
        ensures { option_copied result ≡ option_map (λ f. f.bytes) (slice_get self.now file) }
    {
        Some(self.file(file)?.bytes())
    }

    fn file(&self, number: usize) -> Option<&HeldFile>
        ensures { option_copied result ≡ slice_get self.now number }
    {
        self.held.get(number)
    }
}

impl Files for Cabinet {
    ghost use Rattle.std.specs.Prelude.{◌≡◌, ◌^◌, refl};
    ghost use Rattle.process_model.specs.PageMoves.{files_after};
    ghost use Rattle.file_cabinet.specs.FileLaws.{goes_on, never_refused};

    ghost files = { λ cabinet. cabinet };

    ghost room = { λ _. 2 ^ 64 };

    ghost becomes = { λ before moves after. after ≡ files_after before moves };

    ghost can_refuse = { λ _ _ _. ⊥ };

    ghost stays = { λ _. refl };

    ghost asks = { never_refused };

    ghost goes_on = { goes_on };

    ghost comes_to = { λ _ _ _ becomes. becomes };

    /// Never refused: page reads and writes of a cabinet take no memory.
    fn promise(&mut self, _pages: usize) -> Result<(), PromiseError> {
        Ok(())
    }

    fn read_page(&mut self, file: usize, offset: usize, bytes: &mut [u8; 4096]) {
        let Some(held) = self.file(file) else {
            bytes.fill(0);
            return;
        };
        held.read(offset, bytes);
    }

    fn lent_page(&self, file: usize, offset: usize) -> Option<&[u8]> {
        Some(self.file(file)?.page(offset))
    }

    fn write_page(&mut self, file: usize, offset: usize, bytes: &[u8; 4096]) {
        if let Some(held) = self.held.get_mut(file) {
            held.write(offset, bytes);
        }
    }

    fn length(&self, file: usize) -> Option<usize> {
        Some(self.file(file)?.bytes().len())
    }

    fn writable(&self, file: usize) -> bool {
        self.file(file).is_some_and(|held| held.is_writable())
    }
}
