// `Fields`: a struct, a line that begins with a word, with what its fields say; `Refusal`: an enum, why a line is no request.

ghost use Rattle.std.specs.Prelude.{◌≡◌, ◌≤◌, ℕ, Bool, IfErr, IfOk, None, Option, Some, length, slice_get};
ghost use Rattle.mmu_requests.specs.Lines.{HasFields, IsWidthOf, NumberAt, PerhapsAt, PlaceAt, TextAt, access_word, bit_text, privilege_text, word_of};
ghost use Rattle.mmu_requests.specs.Mistakes.{IfMistake, Refuses, RefusesAccess};
ghost use Rattle.mmu_requests.specs.Profiles.{IsProfile, IsProfileUntil};
ghost use Rattle.mmu_requests.specs.declared.line_word.Word.TheVariants as words;
ghost use Rattle.mmu_requests.specs.declared.profile.Profile.{Profile};
ghost use Rattle.script_language.specs.Lines.{fields_of};
ghost use Rattle.walk_rules.specs.declared.status.Privilege.{Privilege};

use crate::line_word::Word;
use crate::profile::Profile;
use crate::profile_word::{PROFILE_WORDS, ProfileWord};
use crate::requests::Request;
use line_fields::{Mistake, Place, field_at, field_count, quoted, wrong_number};
use script_reader::number;
use std::alloc::{AllocError, Global};
use sv39_entry::{Access, Satp, Va};
use walk_rules::{PmpEntry, Privilege, Status};

/// The least number that is no physical address: they have 56 bits (RISC-V Privileged Architecture 20211203, 4.4.1 and 4.5.1).
const PHYSICAL_LIMIT: u64 = 1 << 56;

/// Why a line is no request.
#[derive(Drop)]
pub enum Refusal {
    /// It is faulty.
    Mistake(Mistake),
    /// The host is out of memory.
    Memory,
}

impl From<AllocError> for Refusal {
    ghost use Rattle.std.specs.Prelude.{◌≡◌};
    ghost use Rattle.mmu_requests.specs.declared.fields.Refusal.TheVariants as refusal;

    ghost from_gives = { λ _ e. e ≡ refusal.Memory };

    fn from(_e: AllocError) -> Refusal {
        Refusal::Memory
    }
}

/// A line that begins with a word.
#[derive(Clone, Copy)]
pub(crate) struct Fields<'a> {
    pub alloc: Global,
    pub line: &'a [u8],
    pub word: Word,
}

impl<'a> Fields<'a> {
    /// The mistake that there are too few fields, or too many.
    pub fn wrong_count(&self) -> Refusal {
        let Ok(quote) = quoted(self.alloc, self.word.text()) else {
            return Refusal::Memory;
        };
        let (fields, count) = (self.word.fields(), field_count(self.line).saturating_sub(1));
        let plural = if count == 1 { "" } else { "s" };
        match format!(in self.alloc; "{quote} takes {fields}, and has {count} field{plural}") {
            Ok(text) => Refusal::Mistake(Mistake::of_line(text)),
            Err(_) => Refusal::Memory,
        }
    }

    /// Returns a field, the word being number 0.
    pub fn field(&self, n: usize) -> Result<Place<'a>, Refusal>
        ensures ok { IfOk result (λ place. slice_get (fields_of self.now.line.now) n ≡ Some place.bytes.now) }
        ensures faulty { IfErr result (λ e. IfMistake e (slice_get (fields_of self.now.line.now) n ≡ None)) }
    {
        match field_at(self.line, n) {
            Some(place) => Ok(place),
            None => Err(self.wrong_count()),
        }
    }

    /// Returns what is wrong with a field that is no number.
    fn no_number(&self, field: &[u8]) -> Result<String, AllocError> {
        match (self.word, field) {
            (Word::Sfence, b"x0") => String::from_str(self.alloc, "for x0 write -"),
            _ => wrong_number(self.alloc, field),
        }
    }

    /// Returns the number in a field.
    pub fn number(&self, n: usize) -> Result<u64, Refusal>
        ensures ok { IfOk result (NumberAt (fields_of self.now.line.now) n) }
        ensures faulty { IfErr result (λ e. IfMistake e ((v : ℕ) → NumberAt (fields_of self.now.line.now) n v → ⊥)) }
    {
        let place = self.field(n)?;
        match number(place.bytes) {
            Some(value) => Ok(value),
            None => Err(Refusal::Mistake(Mistake::at(place.column, self.no_number(place.bytes)?))),
        }
    }

    /// Returns the number in a field, `None` for `-` or no field.
    fn number_or_none(&self, n: usize) -> Result<Option<u64>, Refusal>
        ensures ok { IfOk result (PerhapsAt (fields_of self.now.line.now) n) }
        ensures faulty { IfErr result (λ e. IfMistake e ((o : Option ℕ) → PerhapsAt (fields_of self.now.line.now) n o → ⊥)) }
    {
        let Some(place) = field_at(self.line, n) else {
            return Ok(None);
        };
        match place.bytes {
            b"-" => Ok(None),
            _ => Ok(Some(self.number(n)?)),
        }
    }

    /// The mistake of a field of which a text says what it must be.
    pub fn wrong(&self, n: usize, must: &str) -> Refusal {
        let Some(place) = field_at(self.line, n) else {
            return self.wrong_count();
        };
        let Ok(quote) = quoted(self.alloc, place.bytes) else {
            return Refusal::Memory;
        };
        match format!(in self.alloc; "{must}, not {quote}") {
            Ok(text) => Refusal::Mistake(Mistake::at(place.column, text)),
            Err(_) => Refusal::Memory,
        }
    }

    /// Returns the physical address of a word in a field.
    pub fn place(&self, n: usize) -> Result<u64, Refusal>
        ensures ok { IfOk result (PlaceAt (fields_of self.now.line.now) n) }
        ensures faulty { IfErr result (λ e. IfMistake e ((address : ℕ) → PlaceAt (fields_of self.now.line.now) n address → ⊥)) }
    {
        let address = self.number(n)?;
        if address % 8 != 0 {
            return Err(self.wrong(n, "a physical address of a word is a multiple of 8"));
        }
        if address >= PHYSICAL_LIMIT {
            return Err(self.wrong(n, "a physical address is below 2^56"));
        }
        Ok(address)
    }

    fn ram(&self) -> Result<Request, Refusal>
        ensures ok { IfOk result (λ r. (word_of r ≡ words.Ram) × HasFields (fields_of self.now.line.now) r) }
        ensures faulty { IfErr result (λ e. IfMistake e (Refuses (fields_of self.now.line.now) words.Ram)) }
    {
        let address = self.place(1)?;
        let length = self.number(2)?;
        if length % 8 != 0 {
            return Err(self.wrong(2, "LENGTH is a multiple of 8"));
        }
        if length > PHYSICAL_LIMIT - address {
            return Err(self.wrong(2, "LENGTH is at most 2^56 - PA"));
        }
        let end = address + length;
        Ok(Request::Ram { address, end })
    }

    fn mem(&self) -> Result<Request, Refusal>
        ensures ok { IfOk result (λ r. (word_of r ≡ words.Mem) × HasFields (fields_of self.now.line.now) r) }
        ensures faulty { IfErr result (λ e. IfMistake e (Refuses (fields_of self.now.line.now) words.Mem)) }
    {
        let address = self.place(1)?;
        let word = self.number(2)?;
        Ok(Request::Mem { address, word })
    }

    fn satp(&self) -> Result<Request, Refusal>
        ensures ok { IfOk result (λ r. (word_of r ≡ words.Satp) × HasFields (fields_of self.now.line.now) r) }
        ensures faulty { IfErr result (λ e. IfMistake e (Refuses (fields_of self.now.line.now) words.Satp)) }
    {
        let satp = Satp::from_word(self.number(1)?);
        if satp.mode() == 0 && satp.to_word() != 0 {
            return Err(self.wrong(1, "with MODE 0 (Bare) the WORD of satp is 0"));
        }
        Ok(Request::Satp(satp))
    }

    fn width(&self, access: Access) -> Result<u64, Refusal>
        ensures ok { IfOk result (λ w. NumberAt (fields_of self.now.line.now) 2 w × IsWidthOf access w) }
        ensures faulty { IfErr result (λ e. IfMistake e ((w : ℕ) → NumberAt (fields_of self.now.line.now) 2 w × IsWidthOf access w → ⊥)) }
    {
        let is_fetch = access == Access::Fetch;
        match self.number(2)? {
            2 => Ok(2),
            4 => Ok(4),
            1 if !is_fetch => Ok(1),
            8 if !is_fetch => Ok(8),
            _ if is_fetch => Err(self.wrong(2, "WIDTH of a fetch is 2 or 4")),
            _ => Err(self.wrong(2, "WIDTH is 1, 2, 4 or 8")),
        }
    }

    fn privilege(&self, n: usize, must: &str) -> Result<Privilege, Refusal>
        ensures ok { IfOk result (λ m. TextAt (fields_of self.now.line.now) n (privilege_text m)) }
        ensures faulty { IfErr result (λ e. IfMistake e ((m : Privilege) → TextAt (fields_of self.now.line.now) n (privilege_text m) → ⊥)) }
    {
        let place = self.field(n)?;
        match place.bytes {
            b"U" => Ok(Privilege::User),
            b"S" => Ok(Privilege::Supervisor),
            b"M" => Ok(Privilege::Machine),
            _ => Err(self.wrong(n, must)),
        }
    }

    fn access(&self, access: Access) -> Result<Request, Refusal>
        ensures ok { IfOk result (λ r. (word_of r ≡ access_word access) × HasFields (fields_of self.now.line.now) r) }
        ensures faulty { IfErr result (λ e. IfMistake e (RefusesAccess (fields_of self.now.line.now) access)) }
    {
        let va = Va(self.number(1)?);
        let width = self.width(access)?;
        let privilege = self.privilege(3, "MODE is U (user), S (supervisor) or M (machine)")?;
        let claim = self.claim()?;
        Ok(Request::Access {
            access,
            va,
            width,
            privilege,
            claim,
        })
    }

    fn bit(&self, n: usize, must: &str) -> Result<bool, Refusal>
        ensures ok { IfOk result (λ b. TextAt (fields_of self.now.line.now) n (bit_text b)) }
        ensures faulty { IfErr result (λ e. IfMistake e ((b : Bool) → TextAt (fields_of self.now.line.now) n (bit_text b) → ⊥)) }
    {
        let place = self.field(n)?;
        match place.bytes {
            b"0" => Ok(false),
            b"1" => Ok(true),
            _ => Err(self.wrong(n, must)),
        }
    }

    fn status(&self) -> Result<Request, Refusal>
        ensures ok { IfOk result (λ r. (word_of r ≡ words.Status) × HasFields (fields_of self.now.line.now) r) }
        ensures faulty { IfErr result (λ e. IfMistake e (Refuses (fields_of self.now.line.now) words.Status)) }
    {
        let sum = self.bit(1, "SUM is 0 or 1")?;
        let mxr = self.bit(2, "MXR is 0 or 1")?;
        let mprv = self.bit(3, "MPRV is 0 or 1")?;
        let mpp = self.privilege(4, "MPP is U, S or M")?;
        Ok(Request::Status(Status {
            sum,
            mxr,
            mprv,
            mpp,
        }))
    }

    fn pmp(&self) -> Result<Request, Refusal>
        ensures ok { IfOk result (λ r. (word_of r ≡ words.Pmp) × HasFields (fields_of self.now.line.now) r) }
        ensures faulty { IfErr result (λ e. IfMistake e (Refuses (fields_of self.now.line.now) words.Pmp)) }
    {
        let number = self.number(1)?;
        if number >= 64 {
            return Err(self.wrong(1, "N is below 64"));
        }
        let config = self.number(2)?;
        if config >= 256 {
            return Err(self.wrong(2, "CFG is below 256"));
        }
        let address = self.number(3)?;
        Ok(Request::Pmp {
            number: number as usize,
            entry: PmpEntry {
                config: config as u8,
                address,
            },
        })
    }

    /// What the words from field 1 on make.
    fn profile_words(&self) -> Result<Profile, Refusal>
        requires { 1 ≤ length (fields_of self.now.line.now) }
        ensures ok { IfOk result (IsProfileUntil (fields_of self.now.line.now) (length (fields_of self.now.line.now))) }
        ensures faulty { IfErr result (λ e. IfMistake e ((p : Profile) → IsProfile (fields_of self.now.line.now) p → ⊥)) }
    {
        let mut profile = Profile::without_words();
        'words: for n in 1..field_count(self.line) {
            let place = self.field(n)?;
            match ProfileWord::of(place.bytes) {
                Some(word) => profile = profile.with_word(word),
                None => return Err(self.no_profile_word(place)),
            }
        }
        Ok(profile)
    }

    fn profile(&self) -> Result<Request, Refusal>
        requires { 1 ≤ length (fields_of self.now.line.now) }
        ensures ok { IfOk result (λ r. (word_of r ≡ words.Profile) × HasFields (fields_of self.now.line.now) r) }
        ensures faulty { IfErr result (λ e. IfMistake e (Refuses (fields_of self.now.line.now) words.Profile)) }
    {
        let profile = self.profile_words()?;
        Ok(Request::Profile(profile.with_modes()))
    }

    fn no_profile_word(&self, place: Place<'a>) -> Refusal {
        let Ok(quote) = quoted(self.alloc, place.bytes) else {
            return Refusal::Memory;
        };
        match format!(in self.alloc; "the words of a profile are {PROFILE_WORDS}, not {quote}") {
            Ok(text) => Refusal::Mistake(Mistake::at(place.column, text)),
            Err(_) => Refusal::Memory,
        }
    }

    fn sfence(&self) -> Result<Request, Refusal>
        ensures ok { IfOk result (λ r. (word_of r ≡ words.Sfence) × HasFields (fields_of self.now.line.now) r) }
        ensures faulty { IfErr result (λ e. IfMistake e (Refuses (fields_of self.now.line.now) words.Sfence)) }
    {
        let va = match self.number_or_none(1)? {
            Some(address) => Some(Va(address)),
            None => None,
        };
        let asid = match self.number_or_none(2)? {
            None => None,
            Some(asid) if asid < 1 << 16 => Some(asid as u16),
            Some(_) => return Err(self.wrong(2, "ASID is below 65536")),
        };
        Ok(Request::Sfence { va, asid })
    }

    /// The request whose word this is, with the fields after it.
    pub fn request(&self) -> Result<Request, Refusal>
        requires { 1 ≤ length (fields_of self.now.line.now) }
        ensures ok { IfOk result (λ r. (word_of r ≡ self.now.word) × HasFields (fields_of self.now.line.now) r) }
        ensures faulty { IfErr result (λ e. IfMistake e (Refuses (fields_of self.now.line.now) self.now.word)) }
    {
        match self.word {
            Word::Version => Ok(Request::Version),
            Word::Profile => self.profile(),
            Word::Reset => Ok(Request::Reset),
            Word::Status => self.status(),
            Word::Pmp => self.pmp(),
            Word::Ram => self.ram(),
            Word::Mem => self.mem(),
            Word::Satp => self.satp(),
            Word::Fetch => self.access(Access::Fetch),
            Word::Load => self.access(Access::Load),
            Word::Store => self.access(Access::Store),
            Word::Sfence => self.sfence(),
        }
    }
}
