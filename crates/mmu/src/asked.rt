// What the search for outcomes asks an `Mmu` (`Log`).

use crate::unit::Mmu;
use access_judge::{Log, PastSatp, PastWord};
use sv39_entry::{Access, Satp, Va};
use walk_rules::Privilege;

impl Log for Mmu {
    ghost use Rattle.mmu.specs.Recorded.{past_of, uses_of};
    ghost use Rattle.mmu.specs.Laws.{satps_are_uses, sound_unfenced};

    ghost past = { λ m. past_of m.history };

    ghost uses_of = { λ m. uses_of m.history };

    fn now(&self) -> usize {
        self.history.events.len()
    }

    fn satp(&self) -> Satp {
        self.history.satp
    }

    fn word(&self, ppn: u64, index: usize) -> Option<u64> {
        self.history.word(ppn, index)
    }

    fn word_at(&self, ppn: u64, index: usize, moment: usize) -> Option<PastWord> {
        self.history.word_at(ppn, index, moment)
    }

    fn use_count(&self) -> usize {
        self.history.uses.len() + 1
    }

    fn use_at(&self, number: usize) -> PastSatp {
        self.history.use_at(number)
    }

    fn may_be_global(&self) -> bool {
        self.may_be_global
    }

    fn space_fence(&self, asid: u16) -> usize {
        self.history.fences.of_space(asid)
    }

    fn address_fence(&self, bits: u32, va: Va, asid: Option<u16>) -> usize {
        self.history.fences.of_address(bits, va, asid)
    }

    fn may_pass(
        &self,
        moment: usize,
        privilege: Privilege,
        access: Access,
        pa: u64,
        width: u64,
    ) -> bool {
        self.history
            .protection
            .may_pass(moment, privilege, access, pa, width)
    }

    fn may_fail(
        &self,
        moment: usize,
        privilege: Privilege,
        access: Access,
        pa: u64,
        width: u64,
    ) -> bool {
        self.history
            .protection
            .may_fail(moment, privilege, access, pa, width)
    }

    ghost unfenced = { λ m. sound_unfenced m.history m.sound };

    ghost are_uses = { λ m. satps_are_uses m.history m.sound };
}
