// `Shelf`, a struct: files (a `Cabinet`) with the history of their page reads and writes, for threads to share; it has `new`,
// `cabinet`, `history`, a law (`replays`) and the calls of the trait `Files` (promise, read and write a page, length,
// writable). A promise, so that page reads and writes cannot fail, may be refused. `MOST_USES`: the most entries of a history.

ghost use Rattle.std.specs.Prelude.{[], ◌≡◌};
ghost use Rattle.file_shelf.specs.Histories.{HistoryReplays};
ghost use Rattle.file_shelf.specs.ShelfStates.{ShelfState};
ghost use Rattle.process_model.specs.PageMoves.{files_after};

use crate::history::PageUse;
use file_cabinet::{Cabinet, Files, PromiseError};
use std::alloc::Global;
use std::marker::Model;
use std::snapshot::Snapshot;

/// The most entries that a shelf's history can have, one for each page read or written.
pub const MOST_USES: usize = 65536;

/// A cabinet with the history of its page reads and writes and, for contracts alone, the files that it began with. Type
/// invariant: the history has at most `MOST_USES` entries and replays from those files, and the files are those that its
/// writes leave.
#[derive(Drop)]
pub struct Shelf {
    cabinet: Cabinet,
    history: Vec<PageUse>,
    first: Snapshot<Cabinet>,
}

impl Model for Shelf {
    ghost use Rattle.std.specs.Prelude.{◌≡◌, ◌≤◌, ◌-◌, min, length, vec_capacity};
    ghost use Rattle.file_shelf.specs.Histories.{HistoryReplays};
    ghost use Rattle.file_shelf.specs.declared.shelf.TheConstants.{MOST_USES};
    ghost use Rattle.file_shelf.specs.ShelfStates.{ShelfState};
    ghost use Rattle.process_model.specs.PageMoves.{files_after};

    ghost Value = { ShelfState };

    ghost view = { λ s. record {
      first = s.first.value;
      files = s.cabinet;
      history = s.history.items;
      room = min (vec_capacity s.history) MOST_USES - length s.history.items;
    } };

    ghost invariant = { λ s. (length s.history.items ≤ MOST_USES) × HistoryReplays s.first.value s.history.items
        × (s.cabinet ≡ files_after s.first.value s.history.items) };
}

impl Shelf {
    /// Makes a shelf of these files, with an empty history. Takes no host memory.
    pub fn new(alloc: Global, cabinet: Cabinet) -> Shelf
        ensures first { result.first ≡ cabinet }
        ensures files { result.files ≡ cabinet }
        ensures history { result.history ≡ [] }
    {
        let first = Snapshot::of(&cabinet);
        Shelf {
            cabinet,
            history: Vec::new(alloc),
            first,
        }
    }

    /// Returns the files, with all writes so far.
    pub fn cabinet(&self) -> &Cabinet
        ensures { result.now ≡ (self.now).files }
    {
        &self.cabinet
    }

    /// Returns the pages read and written so far, in order.
    pub fn history(&self) -> &[PageUse]
        ensures { result.now ≡ (self.now).history }
    {
        self.history.as_slice()
    }

    /// Law: the history replays from the files that the shelf began with, and the files are those that it leaves.
    pub fn replays(&self)
        ensures right { HistoryReplays (self.now).first (self.now).history }
        ensures files { (self.now).files ≡ files_after (self.now).first (self.now).history }
    {
        let _ = self.history.len();
    }
}

impl Files for Shelf {
    ghost use Rattle.file_shelf.specs.ShelfStates.{asks, HasMoves, CanRefuse, comes_to, goes_on, stays};

    ghost files = { λ s. s.files };

    ghost room = { λ s. s.room };

    ghost becomes = { HasMoves };

    ghost can_refuse = { CanRefuse };

    ghost stays = { stays };

    ghost asks = { asks };

    ghost goes_on = { goes_on };

    ghost comes_to = { comes_to };

    /// Promises that at least `pages` pages can be read or written after this call: makes room, in host memory, for as
    /// many more history entries.
    ///
    /// # Errors
    /// `JournalFull`: exactly when the history would have more than `MOST_USES` entries. `Memory`: the host is out of memory,
    /// and the history would not have more.
    fn promise(&mut self, pages: usize) -> Result<(), PromiseError> {
        if pages > MOST_USES - self.history.len() {
            return Err(PromiseError::JournalFull);
        }
        match self.history.reserve(pages) {
            Ok(()) => Ok(()),
            Err(_) => Err(PromiseError::Memory),
        }
    }

    fn read_page(&mut self, file: usize, offset: usize, bytes: &mut [u8; 4096]) {
        self.cabinet.read_page(file, offset, bytes);
        self.history.push_reserved(PageUse {
            file,
            offset,
            bytes: *bytes,
            writes: false,
        });
    }

    fn write_page(&mut self, file: usize, offset: usize, bytes: &[u8; 4096]) {
        self.cabinet.write_page(file, offset, bytes);
        self.history.push_reserved(PageUse {
            file,
            offset,
            bytes: *bytes,
            writes: true,
        });
    }

    fn length(&self, file: usize) -> Option<usize> {
        self.cabinet.length(file)
    }

    fn writable(&self, file: usize) -> bool {
        self.cabinet.writable(file)
    }
}
