// `Machine::step`, `step_scalar` and `run`: make one step, one whose reply has no bytes, or a list of steps, with the replies
// of the model.

ghost use Rattle.std.specs.Prelude.{◌≡◌, IfOk, List, OnErr, OnOk, true};
ghost use Rattle.hart_machine.specs.Buffers.{BuffersAre, OnlyFillsAdd};
ghost use Rattle.hart_machine.specs.Marks.{AreMarked};
ghost use Rattle.hart_machine.specs.Runs.{BuffersFollow};
ghost use Rattle.hart_machine.specs.BufferEntries.{AreEntriesCurrent, IsInWorld};
ghost use Rattle.hart_machine.specs.Worlds.{KeepsTables, IsModelOutcome};
ghost use Rattle.process_laws.specs.Headline.{Headline};
ghost use Rattle.process_model.specs.declared.reply.Reply.TheVariants.{Scalar};
ghost use Rattle.process_model.specs.ScalarReplies.{is_scalar};
ghost use Rattle.process_model.specs.Files.{File};
ghost use Rattle.process_model.specs.Steps as model;
ghost use Rattle.process_model.specs.World.{booted, World};
ghost use Rattle.process_model.specs.declared.config.Config.{Config};
ghost use Rattle.process_model.specs.declared.config.Policy.TheVariants.{Asid};
ghost use Rattle.process_model.specs.declared.step.Step as declared;

use crate::machine::Machine;
use crate::stale_marks::StepEffect;
use address_space::AccessRequest;
use process_model::{Reply, ScalarReply, Step};
use std::alloc::{AllocError, Global};
use sv39_entry::{Access, Va};

impl Machine {
    /// Makes one step and returns its reply, the model's; the machine is then in the world that the model's step leads
    /// to. A step that cannot be made replies `Refused` with the reason (`Refusal`). The machine must be in a world of
    /// the model (`IsInWorld`): `boot` makes one that is, and each step leaves it in one.
    ///
    /// A page that keeps its copy number stays on its frame, and so does a trapframe.
    ///
    /// Buffers: a fill adds an entry, which has what the page table in `satp` says of the page; every other entry was
    /// there before (RISC-V Privileged Architecture 20211203, 4.2.1). The contract gives each buffer exactly, in the
    /// order of filling.
    ///
    /// Policy `asid`: no stale entry serves a process. Each entry under the ASID of a living process says what its page
    /// table says at this moment, unless the process is marked on that hart; a hart running it in user mode has no such
    /// mark. Each entry of TRAMPOLINE's page, under any ASID, is a leaf of the kernel's code in frame 0.
    pub fn step(&mut self, step: Step<'_>) -> Reply
        requires world { (w : World) × IsInWorld self.old w }
        ensures made { (w : World) → IsInWorld self.old w → (result ≡ (model.step w step.entry).reply) × IsInWorld self.new (model.step w step.entry).world }
        ensures tables { (w : World) → IsInWorld self.old w → KeepsTables self.old self.new w.slots (model.step w step.entry).world.slots }
        ensures fills { (w : World) (is : IsInWorld self.old w) → OnlyFillsAdd self.old self.new (is.world).tables (is.world).kernel step.entry }
        ensures each_buffer { (w : World) (is : IsInWorld self.old w) → BuffersAre self.old self.new (is.world).tables (is.world).kernel step.entry result }
        ensures identifiers { (w : World) → IsInWorld self.old w → w.policy ≡ Asid → AreEntriesCurrent self.new }
    {
        let Step::CopyIn {
            hart,
            address,
            count,
        } = step
        else {
            return Reply::Scalar(self.step_scalar(step));
        };
        let StepEffect {
            reply,
            changed,
            born,
        } = self.copy_in(hart, address, count);
        self.mark(changed);
        self.mark(born);
        reply
    }

    /// `step`, for any step but `CopyIn`, which the caller must not give: the reply carries no bytes, and has no room for
    /// them. Inlined into its caller (`inline(always)`), which often knows which step it is; then neither the step nor
    /// the slots to be marked pass through memory.
    #[inline(always)]
    pub fn step_scalar(&mut self, step: Step<'_>) -> ScalarReply
        requires world { (w : World) × IsInWorld self.old w }
        requires scalar { is_scalar step ≡ true }
        ensures made { (w : World) → IsInWorld self.old w → (Scalar result ≡ (model.step w step.entry).reply)
            × IsInWorld self.new (model.step w step.entry).world }
        ensures tables { (w : World) → IsInWorld self.old w → KeepsTables self.old self.new w.slots (model.step w step.entry).world.slots }
        ensures fills { (w : World) (is : IsInWorld self.old w) → OnlyFillsAdd self.old self.new (is.world).tables (is.world).kernel step.entry }
        ensures each_buffer { (w : World) (is : IsInWorld self.old w)
            → BuffersAre self.old self.new (is.world).tables (is.world).kernel step.entry (Scalar result) }
        ensures identifiers { (w : World) → IsInWorld self.old w → w.policy ≡ Asid → AreEntriesCurrent self.new }
    {
        let StepEffect {
            reply,
            changed,
            born,
        } = self.make(step);
        self.mark(changed);
        self.mark(born);
        reply
    }

    /// Makes any step but `CopyIn`, without marking harts: the result names the slots to be marked. A function pays at entry
    /// for the size of its locals, so kernel calls, which have large ones, are functions of their own (`inline(never)`), and
    /// other steps do not pay for them.
    #[inline(always)]
    fn make(&mut self, step: Step<'_>) -> StepEffect<ScalarReply>
        requires world { (w : World) × IsInWorld self.old w }
        requires scalar { is_scalar step ≡ true }
        ensures made { (w : World) → IsInWorld self.old w → IsModelOutcome self.new (Scalar result.reply) (model.plain_step w step.entry) }
        ensures changed { (w : World) → IsInWorld self.old w → AreMarked w (model.plain_step w step.entry) result.changed result.born }
        ensures tables { (w : World) → IsInWorld self.old w → KeepsTables self.old self.new w.slots (model.plain_step w step.entry).world.slots }
        ensures each_buffer { (w : World) (is : IsInWorld self.old w)
            → BuffersAre self.old self.new (is.world).tables (is.world).kernel step.entry (Scalar result.reply) }
    {
        match step {
            Step::Start(image) => self.start(image),
            Step::Switch { hart, slot } => StepEffect::without_change(self.switch(hart, slot)),
            Step::Trap { hart } => StepEffect::without_change(self.trap(hart)),
            Step::Next { hart } => StepEffect::without_change(self.next(hart)),
            Step::Fill { hart, address } => StepEffect::without_change(self.fill(
                hart,
                Va(address),
            )),
            Step::Evict { hart, entry } => StepEffect::without_change(self.evict(hart, entry)),
            Step::Fetch { hart, address, via } => {
                StepEffect::without_change(self.access(
                    hart,
                    AccessRequest::new(Access::Fetch, address, 4, 0),
                    via,
                ))
            }
            Step::Load {
                hart,
                address,
                width,
                via,
            } => StepEffect::without_change(self.access(
                hart,
                AccessRequest::new(Access::Load, address, width, 0),
                via,
            )),
            Step::Store {
                hart,
                address,
                width,
                value,
                via,
            } => StepEffect::without_change(self.access(
                hart,
                AccessRequest::new(Access::Store, address, width, value),
                via,
            )),
            Step::TrampolineFetch { hart, offset, via } => StepEffect::without_change(
                self.fetch_trampoline(hart, offset, via),
            ),
            Step::Serve { hart } => self.serve(hart),
            Step::Fork { hart } => self.fork(hart),
            Step::Exec { hart, image } => self.exec(hart, image),
            Step::Sbrk { hart, delta } => self.sbrk(hart, delta),
            Step::Mmap {
                hart,
                length,
                protection,
                flags,
                file,
            } => StepEffect::without_change(self.mmap(hart, length, protection, flags, file)),
            Step::Munmap {
                hart,
                address,
                length,
            } => self.munmap(hart, address, length),
            // excluded: its reply carries bytes
            Step::CopyIn { .. } => unreachable!(),
            Step::CopyOut {
                hart,
                address,
                bytes,
            } => self.copy_out(hart, address, bytes),
            Step::Exit { hart, status } => StepEffect::without_change(self.exit(hart, status)),
        }
    }

    /// Makes the steps of a list in order and returns their replies, the model's, one for each step; a refused step does
    /// not end the run. Allocates memory for all replies first. The machine must be in a world of the model, as for
    /// `step`.
    ///
    /// If the machine is in the model's world after a boot and any earlier steps, the replies meet the headline
    /// (`Headline` in `process_laws`). Each step changes the buffers as it does in `step`, and nothing else changes them
    /// (`BuffersFollow`). Policy `asid`: after the last step the entries are what `step` promises.
    ///
    /// # Errors
    /// `AllocError`: the host is out of memory. No step was made, and the machine is unchanged.
    pub fn run(&mut self, alloc: Global, steps: &[Step<'_>]) -> Result<Vec<Reply>, AllocError>
        requires world { (w : World) × IsInWorld self.old w }
        ensures replies { IfOk result (λ replies. (w : World) → IsInWorld self.old w → replies.items ≡ (model.run w steps.now).replies) }
        ensures headline { IfOk result (λ replies. (c : Config) (files : List File) (earlier : List declared.Step)
            → IsInWorld self.old (model.run (booted c files) earlier).world → Headline c files earlier steps.now replies.items) }
        ensures world { OnOk result ((w : World) → IsInWorld self.old w → IsInWorld self.new (model.run w steps.now).world) }
        ensures each_buffer { OnOk result ((w : World) → IsInWorld self.old w → BuffersFollow self.old w steps.now self.new) }
        ensures identifiers { OnOk result ((w : World) → IsInWorld self.old w → w.policy ≡ Asid → AreEntriesCurrent self.new) }
        ensures unmade { OnErr result (self.new ≡ self.old) }
    {
        let mut replies = Vec::with_capacity(alloc, steps.len())?;
        'steps: for step in steps {
            replies.push_reserved(self.step(*step));
        }
        Ok(replies)
    }
}
