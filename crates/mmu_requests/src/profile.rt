// `Profile`: a struct, which extensions a hart has: the modes of satp, the rules of the walk, the number of PMP entries, and the bits of an ASID.

ghost use Rattle.std.specs.Prelude.{◌≡◌, false, true};
ghost use Rattle.mmu_requests.specs.Profiles as profiles;

use crate::profile_word::ProfileWord;
use walk_rules::{AdScheme, Extensions};

/// Which extensions a hart has.
#[derive(Clone, Copy)]
pub struct Profile {
    /// Whether satp may have MODE 8.
    pub sv39: bool,
    /// Whether satp may have MODE 9.
    pub sv48: bool,
    /// Whether satp may have MODE 10.
    pub sv57: bool,
    pub extensions: Extensions,
    /// The number of PMP entries: 0, 16 or 64 (RISC-V Privileged Architecture 20211203, 3.7.1).
    pub pmp_entries: usize,
    /// ASIDLEN, the number of bits of an ASID: at most 16 (4.1.11).
    pub asid_bits: u32,
}

/// A profile without extensions, with Svade, and each mode of satp or none.
fn plain_with(modes: bool) -> Profile
    ensures { result ≡ profiles.plain_with modes }
{
    Profile {
        sv39: modes,
        sv48: modes,
        sv57: modes,
        extensions: Extensions {
            svnapot: false,
            svpbmt: false,
            ad: AdScheme::Svade,
        },
        pmp_entries: 0,
        asid_bits: 16,
    }
}

impl Profile {
    /// Returns the profile without a word: each mode of satp, Svade, no PMP entries, ASIDs of 16 bits.
    pub fn plain() -> Profile
        ensures { result ≡ profiles.plain_with true }
    {
        plain_with(true)
    }

    /// Returns a profile as it is before its words: without a mode of satp.
    pub(crate) fn without_words() -> Profile
        ensures { result ≡ profiles.plain_with false }
    {
        plain_with(false)
    }

    /// Returns the profile with each mode of satp if it has none.
    pub(crate) fn with_modes(self) -> Profile
        ensures { result ≡ profiles.with_modes self }
    {
        if self.sv39 || self.sv48 || self.sv57 {
            return self;
        }
        Profile {
            sv39: true,
            sv48: true,
            sv57: true,
            extensions: self.extensions,
            pmp_entries: self.pmp_entries,
            asid_bits: self.asid_bits,
        }
    }

    fn with_extensions(self, extensions: Extensions) -> Profile
        ensures { result ≡ profiles.with_extensions extensions self }
    {
        Profile { extensions, ..self }
    }

    fn with_scheme(self, ad: AdScheme) -> Profile
        ensures { result ≡ profiles.with_scheme ad self }
    {
        self.with_extensions(Extensions {
            ad,
            ..self.extensions
        })
    }

    fn with_entries(self, pmp_entries: usize) -> Profile
        ensures { result ≡ profiles.with_entries pmp_entries self }
    {
        Profile {
            pmp_entries,
            ..self
        }
    }

    /// Returns the profile with a word more. Of two words that contradict each other the later counts.
    pub(crate) fn with_word(self, word: ProfileWord) -> Profile
        ensures { result ≡ profiles.with_word word self }
    {
        match word {
            ProfileWord::Sv39 => Profile { sv39: true, ..self },
            ProfileWord::Sv48 => Profile { sv48: true, ..self },
            ProfileWord::Sv57 => Profile { sv57: true, ..self },
            ProfileWord::Svade => self.with_scheme(AdScheme::Svade),
            ProfileWord::Svadu => self.with_scheme(AdScheme::Svadu),
            ProfileWord::AdEither => self.with_scheme(AdScheme::Either),
            ProfileWord::Svnapot => self.with_extensions(Extensions {
                svnapot: true,
                ..self.extensions
            }),
            ProfileWord::Svpbmt => self.with_extensions(Extensions {
                svpbmt: true,
                ..self.extensions
            }),
            ProfileWord::Pmp0 => self.with_entries(0),
            ProfileWord::Pmp16 => self.with_entries(16),
            ProfileWord::Pmp64 => self.with_entries(64),
            ProfileWord::Asid(asid_bits) => Profile { asid_bits, ..self },
        }
    }
}
