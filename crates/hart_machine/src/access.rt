// Steps `Fetch`, `Load` and `Store`: a user access of the process on a hart, translated by a walk of its page table or by an
// entry of the hart's TLB. After a fault the access is pending and the hart in kernel entry.

ghost use Rattle.std.specs.Prelude.{◌≡◌, IsTrue, slice_get, Some};
ghost use Rattle.frame_store.specs.Laws.{IsSeatOf, KeepsSeats};
ghost use Rattle.frame_store.specs.Plain.{PlainStateInvariant};
ghost use Rattle.address_space.specs.Accesses.{request_of};
ghost use Rattle.hart_machine.specs.Accesses.{IsWalked, pending_after};
ghost use Rattle.hart_machine.specs.Buffers.{SameBuffers};
ghost use Rattle.hart_machine.specs.SlotProcesses.{IsSlotProcess, pending_of, view_of};
ghost use Rattle.table_walk.specs.Leaves.{walk_answer};
ghost use Rattle.hart_machine.specs.BufferEntries.{IsInWorld};
ghost use Rattle.hart_machine.specs.Worlds.{IsWorldButBuffers, IsModelOutcome, SameTables};
ghost use Rattle.hart_machine.specs.declared.slot_process.SlotProcess.{SlotProcess};
ghost use Rattle.process_model.specs.declared.reply.Reply.TheVariants.{Scalar};
ghost use Rattle.process_model.specs.Bytes as bytes;
ghost use Rattle.process_model.specs.Process.{Process};
ghost use Rattle.process_model.specs.Service as service;
ghost use Rattle.process_model.specs.World.{with_process, World};
ghost use Rattle.sv39_entry.specs.declared.access.Mode.TheVariants.{User};
ghost use Rattle.table_walk.specs.Tables.{Tables};

use crate::hart::is_user;
use crate::machine::Machine;
use crate::slot_process::{Pending, SlotProcess};
use address_space::AccessRequest;
use frame_store::PlainFrames;
use process_model::{Phase, Refusal, ScalarReply, is_width};
use sv39_entry::{Access, Mode, Va};
use table_walk::Walk;

impl Machine {
    /// Makes a user access of the process on a hart, by the entry with number `via` of the hart's buffer, or by a walk if
    /// `via` is `None`. The reply is `Value`, `Stored`, or `Fault` with the cause; after a fault the access is pending, and
    /// the hart in `Enter0`. Refused, the first that applies: `BadArgument`, there is no such hart, or the width is not 1, 2,
    /// 4 or 8; `Impossible`, the hart is not in `User`; `NoEntry`, the entry named is not there, or is for another page or
    /// ASID. Inlined, since its callers know which access it is, and its reply then does not go through memory.
    #[inline(always)]
    pub(crate) fn access(
        &mut self,
        hart: usize,
        request: AccessRequest,
        via: Option<usize>,
    ) -> ScalarReply
        requires world { (w : World) × IsInWorld self.old w }
        ensures made { (w : World) → IsInWorld self.old w
            → IsModelOutcome self.new (Scalar result) (service.access_step w hart request.access request.va.0 request.width request.value via) }
        ensures buffers { SameBuffers self.old self.new }
        ensures same_tables { SameTables self.old self.new }
    {
        let Some((phase, on)) = self.phase_and_slot(hart) else {
            return ScalarReply::Refused(Refusal::BadArgument);
        };
        if !is_width(request.width) {
            return ScalarReply::Refused(Refusal::BadArgument);
        }
        if !is_user(phase) {
            return ScalarReply::Refused(Refusal::Impossible(phase));
        }
        let Some(slot) = on else {
            return ScalarReply::Refused(Refusal::Impossible(phase));
        };
        let by_entry = self.outcome_by_entry(hart, via, request.va, request.access, Mode::User);
        let Ok(by_entry) = by_entry else {
            return ScalarReply::Refused(Refusal::NoEntry);
        };
        let reply = self.access_slot(slot, by_entry, request);
        if let ScalarReply::Fault(_) = reply {
            self.harts[hart].phase = Phase::Enter0;
        }
        reply
    }

    /// Makes an access of the process in a slot, by the outcome of a buffer entry or, if there is none, by a walk; returns the
    /// reply, a fault included.
    fn access_slot(
        &mut self,
        slot: usize,
        by_entry: Option<Walk>,
        request: AccessRequest,
    ) -> ScalarReply
        requires ready { (w : World) × (is : IsWorldButBuffers self.old w) × (x : SlotProcess) × (slice_get self.old.slots.items slot ≡ Some (Some x))
            × IsWalked w.scheme (is.tables slot) request.va.0 request.access by_entry }
        requires width { IsTrue (bytes.is_width request.width) }
        ensures made { (w : World) (is : IsWorldButBuffers self.old w) (p : Process) → slice_get w.slots slot ≡ Some (Some p)
            → IsWalked w.scheme (is.tables slot) request.va.0 request.access by_entry
            → (Scalar result ≡ (service.user_access p (request_of request)).reply)
            × IsWorldButBuffers self.new (with_process w slot (service.user_access p (request_of request)).process) }
        ensures harts { self.new.harts ≡ self.old.harts }
        ensures same_tables { SameTables self.old self.new }
    {
        let frames = &mut self.frames;
        let slots = &mut self.slots;
        let Some(slot_process) = &mut slots[slot] else {
            unreachable!()
        };
        slot_process.access(frames, by_entry, request)
    }
}

impl SlotProcess {
    /// Makes an access, by the outcome of a buffer entry or, if there is none, by a walk, and returns the reply. After a fault
    /// the access is pending, and after an answer none is.
    fn access(
        &mut self,
        frames: &mut PlainFrames,
        by_entry: Option<Walk>,
        request: AccessRequest,
    ) -> ScalarReply
        requires fits { IsSeatOf PlainStateInvariant frames.old (view_of self.old) }
        requires ready { (t : Tables) × (p : Process) × IsSlotProcess self.old t p × IsWalked p.scheme t request.va.0 request.access by_entry }
        requires width { IsTrue (bytes.is_width request.width) }
        ensures reply { (t : Tables) (p : Process) → IsSlotProcess self.old t p → IsWalked p.scheme t request.va.0 request.access by_entry →
            Scalar result ≡ (service.user_access p (request_of request)).reply }
        ensures after { (t : Tables) (p : Process) → IsSlotProcess self.old t p → IsWalked p.scheme t request.va.0 request.access by_entry →
            IsSlotProcess self.new t (service.user_access p (request_of request)).process }
        ensures keeps { KeepsSeats PlainStateInvariant frames.old (view_of self.old) frames.new (view_of self.new) }
    {
        // the translation, which judges the rights, precedes every read or write of bytes
        let walk = self.translated(frames, by_entry, request.va, request.access);
        let reply = self.space.user_access(frames, walk, request);
        self.keep_faulted(request, reply);
        reply
    }

    /// What a user access is translated to: the outcome of a buffer entry, or that of a walk if there is none.
    #[inline(always)]
    fn translated(
        &mut self,
        frames: &mut PlainFrames,
        by_entry: Option<Walk>,
        va: Va,
        access: Access,
    ) -> Walk
        requires fits { IsSeatOf PlainStateInvariant frames.old (view_of self.old) }
        requires ready { (t : Tables) × (p : Process) × IsSlotProcess self.old t p }
        ensures walk { (t : Tables) (p : Process) → IsSlotProcess self.old t p → IsWalked p.scheme t va.0 access by_entry →
            result ≡ walk_answer p.scheme t va.0 access User }
        ensures same { self.new ≡ self.old }
        ensures frames { frames.new ≡ frames.old }
    {
        match by_entry {
            Some(walk) => walk,
            None => self.space.translate(frames, va, access, Mode::User),
        }
    }

    /// Sets the pending access after this reply to a request: the request if it faulted, else none. Each case writes the field
    /// itself. A value that is made first is moved as a whole, with the unused bytes after `served`; these were written in
    /// pieces, and a processor that reads them as one waits for the writes.
    #[inline(always)]
    fn keep_faulted(&mut self, request: AccessRequest, reply: ScalarReply)
        ensures pending { pending_of self.new.pending ≡ pending_after (request_of request) (Scalar reply) }
        ensures space { self.new.space ≡ self.old.space }
    {
        let ScalarReply::Fault(_) = reply else {
            self.pending = None;
            return;
        };
        self.pending = Some(Pending {
            access: request.access,
            va: request.va,
            width: request.width,
            served: false,
        });
    }
}
