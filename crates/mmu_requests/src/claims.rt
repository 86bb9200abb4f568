// The fields of a line that tell an outcome (`Fields::claim`): `=> pa PA [pma, nc or io] [set PLACE WORD] [by WORD]`, or `=> fault N ..`.

ghost use Rattle.std.specs.Prelude.{◌≡◌, ℕ, IfErr, IfOk, IsTrue, None, Option, Some, false, slice_get, codes, ◌<◌, ◌≤◌, ◌+◌};
ghost use Rattle.access_history.specs.declared.outcome.Update.{Update};
ghost use Rattle.mmu_requests.specs.Lines.{IsByAt, IsClaim, IsEndAt, IsTypeAt, IsUpdateAt, TextAt};
ghost use Rattle.mmu_requests.specs.Mistakes.{IfMistake};
ghost use Rattle.mmu_requests.specs.declared.requests.Claim.{Claim};
ghost use Rattle.mmu_requests.specs.declared.requests.End.{End};
ghost use Rattle.script_language.specs.Lines.{fields_of};

use crate::fields::{Fields, Refusal};
use crate::requests::{Claim, End};
use access_history::Update;
use line_fields::field_at;
use walk_rules::MemoryType;

/// What may follow an access.
const FORM: &str =
    "an outcome is \"=> pa PA [pma, nc or io] [set PLACE WORD] [by WORD]\" or \"=> fault N [set PLACE WORD] [by WORD]\"";

impl<'a> Fields<'a> {
    /// Whether a field is there and is a text.
    fn has_text(&self, n: usize, text: &[u8]) -> bool
        ensures yes { IsTrue result → TextAt (fields_of self.now.line.now) n text.now }
        ensures no { result ≡ false → TextAt (fields_of self.now.line.now) n text.now → ⊥ }
    {
        match field_at(self.line, n) {
            Some(place) => place.bytes == text,
            None => false,
        }
    }

    /// The memory type that a field may have, and the number of the field after it.
    fn memory_type(&self, n: usize) -> (Option<MemoryType>, usize)
        requires { n < 16 }
        ensures value { IsTypeAt (fields_of self.now.line.now) n result.0 result.1 }
        ensures few { result.1 ≤ n + 1 }
    {
        let Some(place) = field_at(self.line, n) else {
            return (None, n);
        };
        match place.bytes {
            b"pma" => (Some(MemoryType::Pma), n + 1),
            b"nc" => (Some(MemoryType::Nc), n + 1),
            b"io" => (Some(MemoryType::Io), n + 1),
            _ => (None, n),
        }
    }

    /// What came of the access, from field 5 on, and the number of the field after it.
    fn end(&self) -> Result<(End, usize), Refusal>
        ensures ok { IfOk result (λ found. IsEndAt (fields_of self.now.line.now) found.0 found.1) }
        ensures few { IfOk result (λ found. found.1 ≤ 8) }
        ensures faulty { IfErr result (λ e. IfMistake e ((end : End) (after : ℕ) → IsEndAt (fields_of self.now.line.now) end after → ⊥)) }
    {
        if self.has_text(5, b"pa") {
            let pa = self.number(6)?;
            let (memory_type, after) = self.memory_type(7);
            return Ok((End::Granted { pa, memory_type }, after));
        }
        if self.has_text(5, b"fault") {
            return Ok((End::Refused(self.number(6)?), 7));
        }
        Err(self.wrong(5, FORM))
    }

    /// The PTE that the hart wrote, which a field may begin, and the number of the field after it.
    fn update(&self, n: usize) -> Result<(Option<Update>, usize), Refusal>
        requires { n < 16 }
        ensures ok { IfOk result (λ found. IsUpdateAt (fields_of self.now.line.now) n found.0 found.1) }
        ensures few { IfOk result (λ found. found.1 ≤ 19) }
        ensures faulty { IfErr result (λ e. IfMistake e ((u : Option Update) (after : ℕ) → IsUpdateAt (fields_of self.now.line.now) n u after → ⊥)) }
    {
        if !self.has_text(n, b"set") {
            return Ok((None, n));
        }
        let place = self.place(n + 1)?;
        let word = self.number(n + 2)?;
        let update = Update {
            table: place / 4096,
            index: (place % 4096 / 8) as usize,
            word,
        };
        Ok((Some(update), n + 3))
    }

    /// The word of the PTE by which the outcome is, which a field may begin, and the number of the field after it.
    fn by(&self, n: usize) -> Result<(Option<u64>, usize), Refusal>
        requires { n < 32 }
        ensures ok { IfOk result (λ found. IsByAt (fields_of self.now.line.now) n found.0 found.1) }
        ensures faulty { IfErr result (λ e. IfMistake e ((w : Option ℕ) (after : ℕ) → IsByAt (fields_of self.now.line.now) n w after → ⊥)) }
    {
        if !self.has_text(n, b"by") {
            return Ok((None, n));
        }
        Ok((Some(self.number(n + 1)?), n + 2))
    }

    /// The outcome that a client tells, whose parts begin with field 5.
    fn told(&self) -> Result<Claim, Refusal>
        requires { TextAt (fields_of self.now.line.now) 4 (codes "=>") }
        ensures ok { IfOk result (λ c. IsClaim (fields_of self.now.line.now) (Some c)) }
        ensures faulty { IfErr result (λ e. IfMistake e ((c : Claim) → IsClaim (fields_of self.now.line.now) (Some c) → ⊥)) }
    {
        let (end, after) = self.end()?;
        if field_at(self.line, after).is_none() {
            return Ok(Claim {
                end,
                update: None,
                by: None,
            });
        }
        let (update, after) = self.update(after)?;
        let (by, after) = self.by(after)?;
        if field_at(self.line, after).is_some() {
            return Err(self.wrong(after, FORM));
        }
        Ok(Claim { end, update, by })
    }

    /// Returns the outcome that a client tells after an access, from field 4 on; `None` if no field follows.
    pub fn claim(&self) -> Result<Option<Claim>, Refusal>
        ensures ok { IfOk result (IsClaim (fields_of self.now.line.now)) }
        ensures faulty { IfErr result (λ e. IfMistake e ((c : Option Claim) → IsClaim (fields_of self.now.line.now) c → ⊥)) }
    {
        let Some(place) = field_at(self.line, 4) else {
            return Ok(None);
        };
        match place.bytes {
            b"=>" => Ok(Some(self.told()?)),
            _ => Err(self.wrong(4, "after MODE comes nothing, or \"=>\" and an outcome")),
        }
    }
}
