// `Word`: an enum, the first field of a line, with its text, how many fields may follow it, and their names.

ghost use Rattle.std.specs.Prelude.{◌≡◌, IfNone, IfSome};
ghost use Rattle.mmu_requests.specs.Lines.{counts, word_among, word_text};
ghost use Rattle.mmu_requests.specs.declared.line_word.Word.{Word};

/// The first field of a line.
#[derive(Clone, Copy)]
pub enum Word {
    Version,
    Profile,
    Reset,
    Status,
    Pmp,
    Ram,
    Mem,
    Satp,
    Fetch,
    Load,
    Store,
    Sfence,
}

/// The text of all words, for a line that begins with none.
pub const ALL: &str =
    "ram, mem, satp, fetch, load, store, sfence, status, pmp, profile, reset, version";

/// The words of lines.
const WORDS: [Word; 12] = [
    Word::Load,
    Word::Store,
    Word::Fetch,
    Word::Mem,
    Word::Satp,
    Word::Sfence,
    Word::Status,
    Word::Pmp,
    Word::Ram,
    Word::Reset,
    Word::Profile,
    Word::Version,
];

/// Returns the first of these words that has a text; `None` if there is none.
fn word_among(words: &[Word], text: &[u8]) -> Option<Word>
    ensures { result ≡ word_among words.now text.now }
{
    for word in words {
        if word.text() == text {
            return Some(*word);
        }
    }
    None
}

impl Word {
    /// Returns the text of the word.
    pub fn text(self) -> &'static [u8]
        ensures { result.now ≡ word_text self }
    {
        match self {
            Word::Version => b"version",
            Word::Profile => b"profile",
            Word::Reset => b"reset",
            Word::Status => b"status",
            Word::Pmp => b"pmp",
            Word::Ram => b"ram",
            Word::Mem => b"mem",
            Word::Satp => b"satp",
            Word::Fetch => b"fetch",
            Word::Load => b"load",
            Word::Store => b"store",
            Word::Sfence => b"sfence",
        }
    }

    /// Returns the word with a text; `None` if there is none.
    pub fn of(text: &[u8]) -> Option<Word>
        ensures text { IfSome result (λ w. word_text w ≡ text.now) }
        ensures none { IfNone result ((w : Word) → word_text w ≡ text.now → ⊥) }
    {
        word_among(&WORDS, text)
    }

    /// Returns the fewest fields that follow the word, and the most.
    pub fn counts(self) -> (usize, usize)
        ensures { result ≡ counts self }
    {
        match self {
            // `=> pa PA nc set PLACE WORD by WORD` has nine
            Word::Fetch | Word::Load | Word::Store => (3, 12),
            Word::Status => (4, 4),
            Word::Pmp => (3, 3),
            Word::Ram | Word::Mem => (2, 2),
            Word::Satp => (1, 1),
            Word::Sfence => (0, 2),
            Word::Reset | Word::Version => (0, 0),
            Word::Profile => (0, 1000),
        }
    }

    /// Returns the names of the fields that follow the word.
    pub fn fields(self) -> &'static str {
        match self {
            Word::Fetch | Word::Load | Word::Store => "VA WIDTH MODE [=> OUTCOME]",
            Word::Status => "SUM MXR MPRV MPP",
            Word::Pmp => "N CFG ADDR",
            Word::Mem => "PA WORD",
            Word::Ram => "PA LENGTH",
            Word::Satp => "WORD",
            Word::Sfence => "[VA or -] [ASID or -]",
            Word::Reset | Word::Version => "no field",
            Word::Profile => "at most 1000 words",
        }
    }
}
