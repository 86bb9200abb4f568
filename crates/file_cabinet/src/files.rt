// The trait `Files`: files of a fixed length that are read and written in pages of 4,096 bytes. `promise` comes first, so
// that the promised reads and writes cannot fail (`read_page`, `lent_page`, `write_page`); only a promise may be refused. Also
// the length of a file, whether it may be written, and the laws of all files.

ghost use Rattle.std.specs.Prelude.{◌≡◌, ◌+◌, ◌<◌, ◌≤◌, ◌∷◌, ◌++◌, [], ℕ, IfErr, IfOk, IfSome, length, List, option_map, slice_get};
ghost use Rattle.file_cabinet.specs.declared.promise.PromiseError.{PromiseError};
ghost use Rattle.process_model.specs.Bytes.{padded};
ghost use Rattle.process_model.specs.Files.{File, file_page, is_writable};
ghost use Rattle.process_model.specs.PageMoves.{files_after, page_read, page_write, PageMove};

use crate::promise::PromiseError;

/// Files of a fixed length, numbered from 0, that are read and written in pages of 4,096 bytes, from any offset. A caller
/// first asks for a promise of as many page reads and writes as it will make; within this promise they cannot fail.
pub trait Files {
    /// The files, as the model has them: their bytes, and whether each may be written.
    ghost files: { Self → List File };

    /// How many pages may at least be read or written before the next promise.
    ghost room: { Self → ℕ };

    /// The first state becomes the second by exactly these page reads and writes, in their order.
    ghost becomes: { Self → List PageMove → Self → Type 0 };

    /// In this state a promise of this many pages may be refused with this error.
    ghost can_refuse: { Self → ℕ → PromiseError → Type 0 };

    /// Promises that at least `pages` pages can be read or written after this call, none of which can fail; earlier
    /// promises need not add to it. The files stay, also if it is refused.
    ///
    /// # Errors
    /// A `PromiseError` that `can_refuse` allows in this state for `pages`; never if `pages` is 0.
    fn promise(&mut self, pages: usize) -> Result<(), PromiseError>
        ensures promised { IfOk result (λ _. pages ≤ room self.new) }
        ensures refused { IfErr result (λ e. can_refuse self.old pages e) }
        ensures same { becomes self.old [] self.new };

    /// Reads 4,096 bytes of a file, from byte `offset` on, into `bytes`: zeros past the file's end, and zeros if there is no
    /// such file. Needs a promised page, and uses up at most one.
    fn read_page(&mut self, file: usize, offset: usize, bytes: &mut [u8; 4096])
        requires promised { 0 < room self.old }
        ensures bytes { bytes.new ≡ file_page (files self.old) file offset }
        ensures rest { room self.old ≤ 1 + room self.new }
        ensures moves { becomes self.old (page_read file offset (file_page (files self.old) file offset) ∷ []) self.new };

    /// Lends the bytes of a file from byte `offset` on, at most 4,096, where they lie: those that `read_page` reads, without the
    /// zeros past the file's end. This is a read of that page, and needs a promised page, of which it uses up none. `None`, and
    /// nothing is read, if there is no such file, or if these files lend none, as files do that keep a history of page reads;
    /// then `read_page` reads the page.
    fn lent_page(&self, file: usize, offset: usize) -> Option<&[u8]>
        requires promised { 0 < room self.now }
        ensures short { IfSome result (λ bytes. length bytes.now ≤ 4096) }
        ensures bytes { IfSome result (λ bytes. padded 4096 bytes.now ≡ file_page (files self.now) file offset) }
        ensures moves { IfSome result (λ _. becomes self.now (page_read file offset (file_page (files self.now) file offset) ∷ []) self.now) }
    {
        let _ = file;
        let _ = offset;
        None
    }

    /// Writes 4,096 bytes to a file, from byte `offset` on and up to its length; none if there is no such file. Whether the
    /// file may be written is not asked. Needs a promised page, and uses up at most one.
    fn write_page(&mut self, file: usize, offset: usize, bytes: &[u8; 4096])
        requires promised { 0 < room self.old }
        ensures rest { room self.old ≤ 1 + room self.new }
        ensures moves { becomes self.old (page_write file offset bytes.now ∷ []) self.new };

    /// Returns the length of a file in bytes, or `None` if there is no such file.
    fn length(&self, file: usize) -> Option<usize>
        ensures { result ≡ option_map (λ f. length f.bytes) (slice_get (files self.now) file) };

    /// Returns whether there is such a file and it may be written.
    fn writable(&self, file: usize) -> bool
        ensures { result ≡ is_writable (slice_get (files self.now) file) };

    /// Law: a state becomes itself by an empty list of reads and writes.
    ghost stays: { (x : Self) → becomes x [] x };

    /// Law: only a promise of one page or more may be refused.
    ghost asks: { (x : Self) (pages : ℕ) (e : PromiseError) → can_refuse x pages e → 0 < pages };

    /// Law: reads and writes in sequence are one list, the second appended to the first.
    ghost goes_on: { (x y z : Self) (ms ns : List PageMove) → becomes x ms y → becomes y ns z → becomes x (ms ++ ns) z };

    /// Law: the files afterwards are those before, with the writes applied in order (`files_after`).
    ghost comes_to: { (x y : Self) (ms : List PageMove) → becomes x ms y → files y ≡ files_after (files x) ms };
}
