// Struct `Rights`, a set of access rights (read, write, execute), and whether a set has the right that an access needs
// (`grants`).

ghost use Rattle.std.specs.Prelude.{⊤, ◌≡◌, [], ◌∷◌, codes};
ghost use Rattle.sv39_entry.specs.Rights.{grants};

use crate::access::Access;
use bitflags::{Flag, Flags, bitflag_items};

/// A set of access rights: READ, WRITE, EXECUTE.
#[derive(Clone, Copy, PartialEq, Eq, Debug)]
pub struct Rights(u8);

bitflag_items! {
    impl Rights: u8 {
        const READ = 1;
        const WRITE = 2;
        const EXECUTE = 4;
    }
}

impl Flags for Rights {
    type Bits = u8;

    ghost exact = { ⊤ };

    ghost table = { (codes "READ", 1) ∷ (codes "WRITE", 2) ∷ (codes "EXECUTE", 4) ∷ [] };

    ghost set_of = { λ rights. rights.0 };

    fn flags<'a>() -> &'a [Flag<Rights>] {
        Rights::FLAGS
    }

    fn bits(&self) -> u8 {
        self.0
    }

    fn from_bits_retain(bits: u8) -> Rights {
        Rights(bits)
    }
}

impl Rights {
    /// Whether the set has the right that an access needs: EXECUTE for a fetch, READ for a load, WRITE for a store.
    #[tactic(auto, using(crate::proofs::Bits::flags))]
    pub fn grants(self, access: Access) -> bool
        ensures { result ≡ grants self.0 access }
    {
        match access {
            Access::Fetch => self.contains(Rights::EXECUTE),
            Access::Load => self.contains(Rights::READ),
            Access::Store => self.contains(Rights::WRITE),
        }
    }
}
