// Steps `Fill` and `Evict`: a hart adds an entry to its TLB by a walk of the page table in `satp`, or drops an entry.
ghost use Rattle.hart_machine.specs.Buffers.{BuffersAre};
ghost use Rattle.hart_machine.specs.StepPromises.{MakesStep};
ghost use Rattle.hart_machine.specs.Worlds.{IsWorldButBuffers, SamePlaces};
ghost use Rattle.process_model.specs.declared.reply.Reply.TheVariants.{Scalar};
ghost use Rattle.process_model.specs.World.{World};
ghost use Rattle.process_model.specs.declared.step.Step.TheVariants as step;

use crate::machine::Machine;
use process_model::{Refusal, ScalarReply};
use sv39_entry::Va;

impl Machine {
    /// Walks the page table that a hart's `satp` names for the page of `va`, and adds what the walk finds to the hart's
    /// buffer, also if it is no leaf. The reply is `Filled` with the number of the new entry; or refused with `BadArgument`:
    /// there is no such hart.
    pub(crate) fn fill(&mut self, hart: usize, va: Va) -> ScalarReply
        requires world { (w : World) × IsWorldButBuffers self.old w }
        ensures made { MakesStep self.old self.new (step.Fill hart va.0) (Scalar result) }
        ensures entries { (w : World) (is : IsWorldButBuffers self.old w)
            → BuffersAre self.old self.new is.tables is.kernel (step.Fill hart va.0) (Scalar result) }
        ensures places { SamePlaces self.old self.new }
    {
        let Some(table) = self.table_of(hart) else {
            return ScalarReply::Refused(Refusal::BadArgument);
        };
        ScalarReply::Filled(self.fill_from_walk(hart, table, va))
    }

    /// Drops the entry with number `entry` from a hart's buffer. The reply is `Done`, or refused: `BadArgument`, there is no
    /// such hart; `NoEntry`, there is no such entry.
    pub(crate) fn evict(&mut self, hart: usize, entry: usize) -> ScalarReply
        requires world { (w : World) × IsWorldButBuffers self.old w }
        ensures made { MakesStep self.old self.new (step.Evict hart entry) (Scalar result) }
        ensures entries { (w : World) (is : IsWorldButBuffers self.old w)
            → BuffersAre self.old self.new is.tables is.kernel (step.Evict hart entry) (Scalar result) }
        ensures places { SamePlaces self.old self.new }
    {
        if hart >= self.harts.len() {
            return ScalarReply::Refused(Refusal::BadArgument);
        }
        match self.harts[hart].buffer.evict(entry) {
            Ok(()) => ScalarReply::Done,
            Err(_) => ScalarReply::Refused(Refusal::NoEntry),
        }
    }
}
