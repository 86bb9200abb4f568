// `RefusingFiles`, a struct: files that refuse one promise (a reservation of page I/O) and otherwise act as the files that
// they wrap.

use file_cabinet::{Files, PromiseError};

/// Files that refuse one promise, of those for a page or more, with `Memory`. In all else they act as the files that they
/// wrap, `files`.
#[derive(Drop)]
pub struct RefusingFiles<F> {
    /// The files that it wraps.
    pub files: F,
    /// How many promises for a page or more are passed on to `files` before the one that is refused; `None`: none is refused
    /// from here on.
    pub until_refusal: Option<usize>,
}

impl<F: Files> Files for RefusingFiles<F> {
    ghost use Rattle.std.specs.Prelude.{◌≡◌, ◌⊎◌, ◌<◌};
    ghost use Rattle.file_cabinet.specs.declared.promise.PromiseError.TheVariants.{Memory};

    ghost files = { λ s. F.files s.files };

    ghost room = { λ s. F.room s.files };

    ghost becomes = { λ s moves t. F.becomes s.files moves t.files };

    ghost can_refuse = { λ s pages e. (0 < pages) × ((e ≡ Memory) ⊎ F.can_refuse s.files pages e) };

    ghost stays = { λ s. F.stays s.files };

    ghost asks = { λ s pages e can. can.0 };

    ghost goes_on = { λ s t u. F.goes_on s.files t.files u.files };

    ghost comes_to = { λ s t. F.comes_to s.files t.files };

    fn promise(&mut self, pages: usize) -> Result<(), PromiseError> {
        if pages == 0 {
            return self.files.promise(0);
        }
        let Some(left) = self.until_refusal else {
            return self.files.promise(pages);
        };
        self.until_refusal = left.checked_sub(1);
        if left == 0 {
            return Err(PromiseError::Memory);
        }
        self.files.promise(pages)
    }

    fn read_page(&mut self, file: usize, offset: usize, bytes: &mut [u8; 4096]) {
        self.files.read_page(file, offset, bytes);
    }

    fn lent_page(&self, file: usize, offset: usize) -> Option<&[u8]> {
        self.files.lent_page(file, offset)
    }

    fn write_page(&mut self, file: usize, offset: usize, bytes: &[u8; 4096]) {
        self.files.write_page(file, offset, bytes);
    }

    fn length(&self, file: usize) -> Option<usize> {
        self.files.length(file)
    }

    fn writable(&self, file: usize) -> bool {
        self.files.writable(file)
    }
}
