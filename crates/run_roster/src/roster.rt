// `Roster` (struct): the unfinished and the ended processes of a run, its slots and the issuer of its vouchers (linear
// tokens, one for each unfinished process): a start, a refused start, a slot kept for a fork (`Admission`, enum) or freed, a
// child, an end, and `close`, which returns all that ended.

ghost use Rattle.std.specs.Prelude.{◌≡◌, ◌+◌, ◌-◌, ◌<◌, ◌≤◌, ◌==◌, ◌∷◌, [], All, IfSome, Some, length, slice_get, vec_len, vec_capacity};
ghost use base.Stored.{Gv};
ghost use Rattle.hart_calls.specs.ProcessCodes.{code_of};
ghost use Rattle.vouchers.specs.Entries.{birth, TokenEntry as Life, entry, nameless};
ghost use Rattle.vouchers.specs.IssuerSeats.{KeepsAt, HoldsAt, given_of, held_of};
ghost use Rattle.run_roster.specs.Births.{began, births_of};
ghost use Rattle.run_roster.specs.RosterState.{ComesBack, IsAdmitted, IsEndedWithToken, IsBirth, IsEnded};
ghost use Rattle.run_roster.specs.RosterView.{Admits, one_less, one_made, one_more};
ghost use Rattle.run_roster.specs.Settled.{MatchesSlots};
ghost use Rattle.run_roster.specs.Slots.{IsTaken};
ghost use Rattle.process_model.specs.declared.call.Start.{Start};

use crate::plan::Plan;
use crate::start_outcomes::StartOutcomes;
use hart_calls::{Finished, ModelProcess, Tracked};
use std::alloc::Global;
use std::marker::{Brand, Model, PhantomData};
use std::mem;
use vouchers::{Token, TokenIssuer, TokenTable};

/// Unfinished and ended processes. Contracts see the number of starts left, the slots of the run, and how many are in use.
///
/// Type invariant, until `close` has returned the ended ones: each process that was started, with the list of its start, and
/// each child that one of these has named, with the list of its fork and the process that it began as, is unfinished or has
/// ended, once, and there are no others. Each unfinished process has a voucher, and so has each slot that is kept for a fork
/// under way (a voucher without a name); there is memory for the ends of all of them. No more slots are in use than the run
/// has. An unfinished start took a slot that was free; all that ended keep the rule for slots, counts and frames
/// (`MatchesSlots`).
#[derive(Drop)]
pub struct Roster<'a, B: Plan, F: StartOutcomes> {
    slots: usize,
    /// Slots in use: by an unfinished process, or kept for a fork.
    out: usize,
    /// Starts that were neither made nor refused yet.
    left: usize,
    finished: Vec<Finished<'a>>,
    /// Whether `close` has returned the ended processes.
    handed: bool,
    issuer: TokenIssuer,
    of: PhantomData<B>,
    after: PhantomData<F>,
}

impl<'a, B: Plan, F: StartOutcomes> Model for Roster<'a, B, F> {
    ghost use Rattle.std.specs.Prelude.{◌≡◌, ◌+◌, ◌-◌, ◌≤◌, All, List, false, length, vec_len, vec_capacity};
    ghost use Rattle.vouchers.specs.Entries.{TokenEntry as Life};
    ghost use Rattle.vouchers.specs.IssuerSeats.{KeepsAt, given_of};
    ghost use Rattle.run_roster.specs.RosterState.{Each, IsRostered};
    ghost use Rattle.run_roster.specs.RosterView.{RosterView};
    ghost use Rattle.run_roster.specs.Settled.{MatchesSlots};
    ghost use Rattle.run_roster.specs.Slots.{AreTaken};

    ghost Value = { RosterView };

    ghost view = { λ r. record { left = r.left; slots = r.slots; out = r.out } };

    ghost invariant = { λ r. KeepsAt B.token_table r.issuer
        × (length (given_of r.issuer) ≡ r.out)
        × (r.handed ≡ false → (lives : List Life) × Each B.table B.files B.lists B.plan lives r.finished.items
        × IsRostered B.plan (length B.plan - r.left) (given_of r.issuer) lives × All (MatchesSlots B.plan F.slots F.taken F.full F.free) r.finished.items)
        × (vec_len r.finished + r.out + r.left ≤ vec_capacity r.finished)
        × (r.left ≤ length B.plan)
        × AreTaken F.slots F.taken (given_of r.issuer)
        × (r.slots ≡ F.slots)
        × (r.out ≤ r.slots) };
}

/// The reply to a fork that asks for a slot.
#[derive(Drop)]
pub enum Admission {
    /// A slot is kept for the child, with memory for its end. The voucher has no name.
    Kept(Token),
    /// Every slot is in use.
    NoSlot,
    /// The host has no memory for one end more.
    Memory,
}

impl<'a, B: Plan, F: StartOutcomes> Roster<'a, B, F> {
    /// Makes an empty roster, for `starts` starts in the slots of the run; `finished` has room for their ends.
    pub fn with_room(
        finished: Vec<Finished<'a>>,
        issuer: TokenIssuer,
        slots: usize,
        starts: usize,
    ) -> Roster<'a, B, F>
        requires none_ended { finished.items ≡ [] }
        requires room { vec_len finished + starts ≤ vec_capacity finished }
        requires starts { length B.plan ≡ starts }
        requires slots { slots ≡ F.slots }
        requires at { KeepsAt B.token_table issuer }
        requires none { given_of issuer ≡ [] }
        ensures left { result.left ≡ starts }
        ensures slots { result.slots ≡ slots }
        ensures none_out { result.out ≡ 0 }
    {
        Roster {
            slots,
            out: 0,
            left: starts,
            finished,
            handed: false,
            issuer,
            of: PhantomData,
            after: PhantomData,
        }
    }

    /// Enters the process of the next start, which begins as `opening`, and returns its voucher. It has no child yet.
    pub(crate) fn start(
        &mut self,
        token_table: &TokenTable,
        name: &[u64],
        list: usize,
        opening: &ModelProcess,
    ) -> Token
        requires token_table { token_table.now ≡ B.token_table }
        requires left { 0 < self.old.left }
        requires name { name.now ≡ (length B.plan - self.old.left) ∷ [] }
        requires taken { IsTaken F.slots F.taken (length B.plan - self.old.left) }
        requires list { (s : Start) × (slice_get B.plan (length B.plan - self.old.left) ≡ Some s) × (list ≡ s.list) }
        requires free { self.old.out < self.old.slots }
        ensures view { self.new ≡ one_more (one_made self.old) }
        ensures at { HoldsAt B.token_table result }
        ensures holds { held_of result ≡ entry name.now (birth list (code_of opening.now.state)) [] ∷ [] }
    {
        self.left -= 1;
        self.out += 1;
        token_table.issue::<Brand, (&[u64], usize, &ModelProcess)>(
            &mut self.issuer,
            &(name, list, opening),
        )
    }

    /// Enters the end of the next start, which has no process.
    pub(crate) fn refuse(&mut self, unstarted: Finished<'a>)
        requires left { 0 < self.old.left }
        requires name { unstarted.name.items ≡ (length B.plan - self.old.left) ∷ [] }
        requires refused { (s : Start) × (opening : Gv) × (slice_get B.plan (length B.plan - self.old.left) ≡ Some s)
            × IsEnded B.table B.files B.lists B.plan (entry unstarted.name.items (birth s.list opening) []) unstarted }
        requires settled { MatchesSlots B.plan F.slots F.taken F.full F.free unstarted }
        ensures view { self.new ≡ one_made self.old }
    {
        self.left -= 1;
        self.finished.push_reserved(unstarted);
    }

    /// Keeps a slot for a fork, with memory for the end of the child, or replies why it cannot: `NoSlot` exactly if every slot
    /// is in use.
    pub fn admit(&mut self, token_table: &TokenTable) -> Admission
        requires token_table { token_table.now ≡ B.token_table }
        ensures admitted { IsAdmitted B.token_table result }
        ensures slots { Admits self.old self.new result }
    {
        if self.slots <= self.out {
            return Admission::NoSlot;
        }
        let Ok(()) = self.finished.reserve(self.out + self.left + 1) else {
            return Admission::Memory;
        };
        self.out += 1;
        Admission::Kept(token_table.issue::<Brand, ()>(&mut self.issuer, &()))
    }

    /// Frees the slot that was kept for a fork which named no child.
    pub fn withdraw(&mut self, token_table: &TokenTable, slot: Token)
        requires token_table { token_table.now ≡ B.token_table }
        requires at { HoldsAt B.token_table slot }
        requires slot { held_of slot ≡ nameless ∷ [] }
        ensures view { self.new ≡ one_less self.old }
    {
        token_table.redeem(&mut self.issuer, slot);
        self.out -= 1;
    }

    /// Enters a child that a process has named, in the slot that was kept for it. Returns the new voucher of the parent,
    /// which lists the child, and the child's voucher.
    pub fn add_child(
        &mut self,
        token_table: &TokenTable,
        parent: &Tracked<'a, B>,
        child: &Tracked<'a, B>,
        slot: Token,
        token: Token,
    ) -> (Token, Token)
        requires token_table { token_table.now ≡ B.token_table }
        requires slot_at { HoldsAt B.token_table slot }
        requires at { HoldsAt B.token_table token }
        requires slot { held_of slot ≡ nameless ∷ [] }
        requires birth { IsBirth (held_of token) parent.now child.now }
        ensures at { HoldsAt B.token_table result.0 × HoldsAt B.token_table result.1 }
        ensures parent { held_of result.0 ≡ entry parent.now.name (began parent.now) (births_of parent.now.journal) ∷ [] }
        ensures child { held_of result.1 ≡ entry child.now.name (began child.now) (births_of child.now.journal) ∷ [] }
        ensures view { self.new ≡ self.old }
    {
        token_table.redeem(&mut self.issuer, slot);
        token_table.redeem(&mut self.issuer, token);
        let young = token_table.issue::<Brand, Tracked<'a, B>>(&mut self.issuer, child);
        let old = token_table.issue::<Brand, Tracked<'a, B>>(&mut self.issuer, parent);
        (old, young)
    }

    /// Enters the end of a process, and frees its slot.
    pub fn finish(&mut self, token_table: &TokenTable, finished: Finished<'a>, returned: Token)
        requires token_table { token_table.now ≡ B.token_table }
        requires at { HoldsAt B.token_table returned }
        requires back { IsEndedWithToken B.table B.files B.lists B.plan (held_of returned) finished }
        ensures view { self.new ≡ one_less self.old }
    {
        token_table.redeem(&mut self.issuer, returned);
        self.out -= 1;
        self.finished.push_reserved(finished);
    }

    /// Returns whether no slot is in use.
    pub fn is_done(&self) -> bool
        ensures { result ≡ (self.now.out == 0) }
    {
        self.out == 0
    }

    /// Returns all ended processes, once. `None` while a slot is in use or a start is left, and after the first `Some`.
    pub fn close(&mut self, alloc: Global) -> Option<Vec<Finished<'a>>>
        ensures back { IfSome result (λ all. ComesBack B.table B.files B.lists B.plan all.items) }
        ensures settled { IfSome result (λ all. All (MatchesSlots B.plan F.slots F.taken F.full F.free) all.items) }
    {
        if self.out > 0 || self.left > 0 || self.handed {
            return None;
        }
        self.handed = true;
        Some(mem::replace(&mut self.finished, Vec::new(alloc)))
    }
}
