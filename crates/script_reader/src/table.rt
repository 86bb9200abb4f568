// `Row`, a struct, and the tables of the words that lines may begin with, one row each: 29 for scripts, 17 for files for
// threads. A row has the kinds of the fields after the word. Look-up of a row by its word, and of the kind of a field by its
// place.

ghost use Rattle.std.specs.Prelude.{◌≡◌, map};
ghost use Rattle.std.specs.Option.{option_map};
ghost use Rattle.script_language.specs.Fields.{command_table, row_among};
ghost use Rattle.script_language.specs.ThreadScript.{thread_table};

use script_language::FieldKind::{Entry, Hex, Mode, Number, Policy, Scheme, Segment, Signed, Slot};
use script_language::Tail::{More, Nothing, Perhaps};
use script_language::{FieldKind, Keyword, Tail};

/// A word as it is written, its keyword, the kinds of the fields that must follow it, and what may follow these.
#[derive(Clone, Copy)]
pub struct Row {
    pub text: &'static [u8],
    pub word: Keyword,
    pub kinds: &'static [FieldKind],
    pub tail: Tail,
}

/// Writes a row: the word's text, its keyword, and the kinds of the fields after it.
macro_rules! row {
    ($text:literal, $word:ident, $kinds:expr, $tail:expr) => {
        Row {
            text: $text,
            word: Keyword::$word,
            kinds: &$kinds,
            tail: $tail,
        }
    };
}

/// The rows of all words of scripts.
static ROWS: [Row; 29] = [
    row!(b"file", File, [Number, Mode, Hex], Nothing),
    row!(b"image", Image, [Segment], More(Segment)),
    row!(b"elf", Elf, [Hex], Nothing),
    row!(
        b"boot",
        Boot,
        [Number, Number, Number, Policy],
        Perhaps(Scheme)
    ),
    row!(b"start", Start, [Number], Nothing),
    row!(b"switch", Switch, [Number, Slot], Nothing),
    row!(b"trap", Trap, [Number], Nothing),
    row!(b"next", Next, [Number], Nothing),
    row!(b"fill", Fill, [Number, Number], Nothing),
    row!(b"evict", Evict, [Number, Number], Nothing),
    row!(b"fetch", Fetch, [Number, Number], Perhaps(Entry)),
    row!(b"load", Load, [Number, Number, Number], Perhaps(Entry)),
    row!(
        b"store",
        Store,
        [Number, Number, Number, Number],
        Perhaps(Entry)
    ),
    row!(b"tramp", Tramp, [Number, Number], Perhaps(Entry)),
    row!(b"serve", Serve, [Number], Nothing),
    row!(b"fork", Fork, [Number], Nothing),
    row!(b"exec", Exec, [Number, Number], Nothing),
    row!(b"sbrk", Sbrk, [Number, Signed], Nothing),
    row!(
        b"mmap",
        Mmap,
        [Number, Number, Number, Number, Number],
        Nothing
    ),
    row!(b"munmap", Munmap, [Number, Number, Number], Nothing),
    row!(b"copyin", CopyIn, [Number, Number, Number], Nothing),
    row!(b"copyout", CopyOut, [Number, Number, Hex], Nothing),
    row!(b"exit", Exit, [Number, Signed], Nothing),
    row!(b"show", Show, [Number, Number, Number], Nothing),
    row!(b"audit", Audit, [], Nothing),
    row!(b"on", On, [Number, Number], Nothing),
    row!(b"enter", Enter, [Number], Nothing),
    row!(b"leave", Leave, [Number], Nothing),
    row!(b"fix", Fix, [Number], Nothing),
];

/// The rows of all words of files for threads.
static ROWS_FOR_THREADS: [Row; 17] = [
    row!(b"file", File, [Number, Mode, Hex], Nothing),
    row!(b"image", Image, [Segment], More(Segment)),
    row!(b"elf", Elf, [Hex], Nothing),
    row!(b"pool", Pool, [Number, Number], Nothing),
    row!(b"list", List, [Number], Nothing),
    row!(b"start", Start, [Number, Number], Nothing),
    row!(b"fetch", Fetch, [Number], Nothing),
    row!(b"load", Load, [Number, Number], Nothing),
    row!(b"store", Store, [Number, Number, Number], Nothing),
    row!(b"exec", Exec, [Number], Nothing),
    row!(b"sbrk", Sbrk, [Signed], Nothing),
    row!(b"mmap", Mmap, [Number, Number, Number, Number], Nothing),
    row!(b"munmap", Munmap, [Number, Number], Nothing),
    row!(b"copyin", CopyIn, [Number, Number], Nothing),
    row!(b"copyout", CopyOut, [Number, Hex], Nothing),
    row!(b"exit", Exit, [Signed], Nothing),
    row!(b"fork", Fork, [Number], Nothing),
];

impl Row {
    ghost use Rattle.script_reader.specs.Rows.{seen, kind_at};

    /// Returns the rows of all words of scripts, in the order of the table.
    pub fn all() -> [Row; 29]
        ensures { map seen result ≡ command_table }
    {
        ROWS
    }

    fn all_for_threads() -> [Row; 17]
        ensures { map seen result ≡ thread_table }
    {
        ROWS_FOR_THREADS
    }

    fn find_among(rows: &[Row], text: &[u8]) -> Option<Row>
        ensures { option_map seen result ≡ row_among (map seen rows.now) text.now }
    {
        for row in rows {
            if row.text == text {
                return Some(*row);
            }
        }
        None
    }

    /// Returns the row of a word of scripts. `None`: scripts have no such word.
    pub fn find(text: &[u8]) -> Option<Row>
        ensures { option_map seen result ≡ row_among command_table text.now }
    {
        Row::find_among(&Row::all(), text)
    }

    /// Returns the row of a word of files for threads. `None`: these files have no such word.
    pub fn find_for_threads(text: &[u8]) -> Option<Row>
        ensures { option_map seen result ≡ row_among thread_table text.now }
    {
        Row::find_among(&Row::all_for_threads(), text)
    }

    /// Returns the kind of the field at a place after the word, counted from 0. `None`: the line may have no field there.
    pub fn kind_at(&self, place: usize) -> Option<FieldKind>
        ensures { result ≡ kind_at (seen self.now) place }
    {
        if let Some(kind) = self.kinds.get(place) {
            return Some(*kind);
        }
        match self.tail {
            Tail::Nothing => None,
            Tail::Perhaps(kind) if place == self.kinds.len() => Some(kind),
            Tail::Perhaps(_) => None,
            Tail::More(kind) => Some(kind),
        }
    }
}
