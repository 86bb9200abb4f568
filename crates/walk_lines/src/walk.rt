// `walk_entries`: the words that a walk reads on its way to a page, the root's first; and `WalkEntry`, one of them.

ghost use Rattle.std.specs.Prelude.{◌≡◌, [], false, true};
ghost use Rattle.sv39_entry.specs.Address.{page_of};
ghost use Rattle.sv39_entry.specs.Schemes.{is_canonical};
ghost use Rattle.table_walk.specs.Walk.{CanWalk};
ghost use Rattle.walk_lines.specs.Walks.{AreRead};

use arrayvec::ArrayVec;
use sv39_entry::{Entry, Kind, Scheme, Va};
use table_walk::Words;

/// A word that a walk reads: the level, the table, the index in it, and the word there.
#[derive(Clone, Copy)]
pub struct WalkEntry {
    /// The level of the table: 3 to 0, that of the root being 2 under Sv39 and 3 under Sv48.
    pub level: u32,
    /// The physical page number of the table.
    pub table: u64,
    /// The index of the word in the table, 0 to 511.
    pub index: usize,
    /// The word; `None` if it is outside the memory.
    pub word: Option<u64>,
}

impl Default for WalkEntry {
    fn default() -> WalkEntry {
        WalkEntry {
            level: 0,
            table: 0,
            index: 0,
            word: None,
        }
    }
}

/// Returns the words that the walk of an address reads, one for each level that it comes to, the root's first (RISC-V Privileged
/// Architecture 20211203, 4.3.2); each but the last is a pointer. None if the address is not canonical: no walk is made. Each
/// table on the way must be readable (`Words::readable`).
pub fn walk_entries<M: Words>(
    words: &mut M,
    scheme: Scheme,
    root: u64,
    va: Va,
) -> ArrayVec<WalkEntry, 4>
    requires { CanWalk scheme (M.readable words.old) (M.memory words.old) root (page_of va.0) }
    ensures read { is_canonical scheme va.0 ≡ true → AreRead scheme (M.memory words.old) root (page_of va.0) result.items }
    ensures none { is_canonical scheme va.0 ≡ false → result.items ≡ [] }
    ensures stays { M.stays words.old words.new }
{
    let mut entries = ArrayVec::new();
    if !scheme.is_canonical(va) {
        return entries;
    }
    let page = va.page();
    let mut table = root;
    'levels: for level in (0..=scheme.top_level()).rev() {
        let index = page.index(level);
        let word = words.word(table, index);
        entries.push(WalkEntry {
            level,
            table,
            index,
            word,
        });
        let Some(word) = word else {
            return entries;
        };
        let entry = Entry::from_word(word);
        match entry.kind() {
            Kind::Pointer => table = entry.ppn(),
            Kind::Invalid | Kind::Leaf => return entries,
        }
    }
    entries
}
