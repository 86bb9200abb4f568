// Trait `Log`, a hart's history as the search for outcomes asks it; structs `PastWord`, a word that a place had, and `PastSatp`, a word that satp had.

ghost use Rattle.std.specs.Prelude.{◌≡◌, ◌≤◌, ◌<◌, false, List, length, slice_get, Some};
ghost use Rattle.access_history.specs.Permits.{Past, memory_of, satp_of};
ghost use Rattle.access_judge.specs.Log.{IsPastWord, IsReach, use_of};
ghost use Rattle.access_judge.specs.Quiet.{HasNoGlobals};
ghost use Rattle.access_judge.specs.Search.{AreUses, IsUnfenced, Use, address_fence, may_fail, may_pass, space_fence, until, versions};

use sv39_entry::{Access, Satp, Va};
use walk_rules::Privilege;

/// A word that a place in memory had.
#[derive(Clone, Copy)]
pub struct PastWord {
    pub word: u64,
    /// The moment since which the place had it: right after the store of that number. 0: from the first.
    pub since: usize,
}

/// A word that satp had.
#[derive(Clone, Copy)]
pub struct PastSatp {
    pub satp: Satp,
    /// The number of the last fence of its ASID, with rs1 = x0, at that time. 0: there was none.
    pub epoch: usize,
    /// The last moment at which a walk that began under the word may go on: right before the next such fence, or now.
    pub last: usize,
}

/// A hart's history since the last fence of everything, or from the first. Its events are numbered from 1 on, and moment k is after event k.
pub trait Log {
    /// Memory, satp and PMP as they were at first, and the events since, the newest first.
    ghost past: { Self → Past };

    /// The words that satp had. For speed, those of the latest moments should come first.
    ghost uses_of: { Self → List Use };

    /// Returns the present moment, which is the number of events.
    fn now(&self) -> usize
        ensures { result ≡ length (past self.now).events };

    /// Returns satp as it is now.
    fn satp(&self) -> Satp
        ensures { result ≡ satp_of (past self.now) };

    /// Returns the word at an index of a frame, by its physical page number, as it is now; `None` outside memory.
    fn word(&self, ppn: u64, index: usize) -> Option<u64>
        requires in_frame { index < 512 }
        ensures { result ≡ memory_of (past self.now) ppn index };

    /// Returns the word at an index of a frame as it was at a moment; `None` outside memory.
    fn word_at(&self, ppn: u64, index: usize, moment: usize) -> Option<PastWord>
        requires in_frame { index < 512 }
        requires past { moment ≤ length (past self.now).events }
        ensures { IsPastWord (past self.now) ppn index moment result };

    /// Returns how many words satp had.
    fn use_count(&self) -> usize
        ensures { result ≡ length (uses_of self.now) };

    /// Returns one of the words that satp had.
    fn use_at(&self, number: usize) -> PastSatp
        requires { number < length (uses_of self.now) }
        ensures { slice_get (uses_of self.now) number ≡ Some (use_of result) };

    /// Whether a word of memory may make a mapping global, now or before: for speed, since without one only walks of the present ASID count.
    fn may_be_global(&self) -> bool
        ensures { (result ≡ false) → HasNoGlobals (past self.now) };

    /// Returns the number of the last fence of an ASID, with rs1 = x0. 0: there was none.
    fn space_fence(&self, asid: u16) -> usize
        ensures { result ≡ space_fence (past self.now).events asid };

    /// Returns the number of the last fence with an address, valid then, that equals `va` above its low `bits` bits, and with the ASID in rs2 or
    /// x0 (`None`: with x0 alone). 0: there was none.
    fn address_fence(&self, bits: u32, va: Va, asid: Option<u16>) -> usize
        requires { IsReach bits }
        ensures { result ≡ address_fence (past self.now).first.satp (past self.now).events bits va.0 asid };

    /// Whether PMP may permit an access at a moment, by the entries as they were then or before.
    fn may_pass(
        &self,
        moment: usize,
        privilege: Privilege,
        access: Access,
        pa: u64,
        width: u64,
    ) -> bool
        requires { moment ≤ length (past self.now).events }
        ensures { result ≡ may_pass (past self.now).first (until (past self.now).events moment) privilege access pa width };

    /// Whether PMP may refuse an access at a moment, by the entries as they were then or before.
    fn may_fail(
        &self,
        moment: usize,
        privilege: Privilege,
        access: Access,
        pa: u64,
        width: u64,
    ) -> bool
        requires { moment ≤ length (past self.now).events }
        ensures { result ≡ may_fail (past self.now).first (until (past self.now).events moment) privilege access pa width };

    /// No fence of everything is among the events.
    ghost unfenced: { (a : Self) → IsUnfenced (past a).events };

    ghost are_uses: { (a : Self) → AreUses (past a).first.satp (past a).events (uses_of a) };
}
