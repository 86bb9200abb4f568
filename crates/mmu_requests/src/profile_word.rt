// `ProfileWord`: an enum, a word of a profile.

ghost use Rattle.std.specs.Prelude.{ℕ, IfNone, IfSome};
ghost use Rattle.mmu_requests.specs.Profiles.{IsTextOf};
ghost use Rattle.mmu_requests.specs.declared.profile_word.ProfileWord.{ProfileWord};
ghost use Rattle.mmu_requests.specs.declared.profile_word.ProfileWord.TheVariants as words;

use script_reader::number;

/// The words of a profile, for a field that is none.
pub const PROFILE_WORDS: &str =
    "sv39, sv48, sv57, svade, svadu, ad-either, svnapot, svpbmt, pmp0, pmp16, pmp64, asid0 to asid16";

/// A word of a profile.
#[derive(Clone, Copy)]
pub enum ProfileWord {
    Sv39,
    Sv48,
    Sv57,
    Svade,
    Svadu,
    AdEither,
    Svnapot,
    Svpbmt,
    Pmp0,
    Pmp16,
    Pmp64,
    /// ASIDs have this many bits.
    Asid(u32),
}

/// Returns the word of an ASID length with a text; `None` if there is none.
fn of_asid(text: &[u8]) -> Option<ProfileWord>
    ensures text { IfSome result (λ w. IsTextOf w text.now) }
    ensures none { IfNone result ((bits : ℕ) → IsTextOf (words.Asid bits) text.now → ⊥) }
{
    let digits = text.strip_prefix(b"asid".as_slice())?;
    match number(digits) {
        Some(bits) if bits <= 16 => Some(ProfileWord::Asid(bits as u32)),
        _ => None,
    }
}

impl ProfileWord {
    /// Returns the word with a text; `None` if there is none.
    pub fn of(text: &[u8]) -> Option<ProfileWord>
        ensures text { IfSome result (λ w. IsTextOf w text.now) }
        ensures none { IfNone result ((w : ProfileWord) → IsTextOf w text.now → ⊥) }
    {
        if text == b"sv39".as_slice() {
            return Some(ProfileWord::Sv39);
        }
        if text == b"sv48".as_slice() {
            return Some(ProfileWord::Sv48);
        }
        if text == b"sv57".as_slice() {
            return Some(ProfileWord::Sv57);
        }
        if text == b"svade".as_slice() {
            return Some(ProfileWord::Svade);
        }
        if text == b"svadu".as_slice() {
            return Some(ProfileWord::Svadu);
        }
        if text == b"ad-either".as_slice() {
            return Some(ProfileWord::AdEither);
        }
        if text == b"svnapot".as_slice() {
            return Some(ProfileWord::Svnapot);
        }
        if text == b"svpbmt".as_slice() {
            return Some(ProfileWord::Svpbmt);
        }
        if text == b"pmp0".as_slice() {
            return Some(ProfileWord::Pmp0);
        }
        if text == b"pmp16".as_slice() {
            return Some(ProfileWord::Pmp16);
        }
        if text == b"pmp64".as_slice() {
            return Some(ProfileWord::Pmp64);
        }
        of_asid(text)
    }
}
