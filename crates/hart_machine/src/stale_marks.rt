// Stale marks, for policy `asid`: `Machine::mark` marks every hart for a slot of which a step changed leaves, or in which it
// started a process, since the hart's TLB may hold stale entries of its ASID. `StepEffect`, a struct: a step's reply and
// these slots.

ghost use Rattle.std.specs.Prelude.{◌≡◌, ◌<◌, ℕ, map, None, Some};
ghost use Rattle.hart_machine.specs.Buffers.{SameBuffers};
ghost use Rattle.hart_machine.specs.Harts.{hart_of, marked, marked_harts};
ghost use Rattle.hart_machine.specs.Marks.{slot_if};
ghost use Rattle.process_model.specs.declared.limits.TheConstants.{MOST_SLOTS};

use crate::hart::Hart;
use crate::machine::Machine;
use process_model::Policy;

/// The effect of a step: its reply, with or without room for bytes, and the slots whose leaves changed.
#[derive(Drop)]
pub(crate) struct StepEffect<R> {
    pub(crate) reply: R,
    /// The slot of a process that was there before, if its leaves changed.
    pub(crate) changed: Option<usize>,
    /// The slot of a process that the step started or forked.
    pub(crate) born: Option<usize>,
}

impl<R> StepEffect<R> {
    /// The effect of a step that changed no leaf.
    pub(crate) fn without_change(reply: R) -> StepEffect<R>
        ensures { result ≡ record { reply = reply; changed = None; born = None } }
    {
        StepEffect {
            reply,
            changed: None,
            born: None,
        }
    }

    /// The effect of a step that started no process: `changed` is the slot whose leaves changed, if there is one.
    pub(crate) fn with_change(reply: R, changed: Option<usize>) -> StepEffect<R>
        ensures { result ≡ record { reply = reply; changed = changed; born = None } }
    {
        StepEffect {
            reply,
            changed,
            born: None,
        }
    }
}

/// The slot if `is_so`, else `None`.
pub(crate) fn slot_if(slot: usize, is_so: bool) -> Option<usize>
    ensures { result ≡ slot_if slot is_so }
{
    if is_so { Some(slot) } else { None }
}

impl Machine {
    /// Policy `asid`: marks every hart for a slot whose leaves changed. Does nothing for `None`, and under policy `full`.
    #[inline(always)]
    pub(crate) fn mark(&mut self, slot: Option<usize>)
        requires { (s : ℕ) → slot ≡ Some s → s < MOST_SLOTS }
        ensures harts { map hart_of self.new.harts.items ≡ marked_harts self.old.policy slot (map hart_of self.old.harts.items) }
        ensures buffers { SameBuffers self.old self.new }
        ensures others { self.new ≡ record self.old { harts = self.new.harts } }
    {
        let Some(slot) = slot else {
            return;
        };
        if self.policy == Policy::Asid {
            for hart in self.harts.iter_mut() {
                hart.mark(slot);
            }
        }
    }
}

impl Hart {
    /// Marks the hart for a slot: its buffer may hold stale entries of that slot's ASID.
    fn mark(&mut self, slot: usize)
        requires { slot < MOST_SLOTS }
        ensures hart { hart_of self.new ≡ marked slot (hart_of self.old) }
        ensures buffer { self.new.buffer ≡ self.old.buffer }
    {
        self.stale.insert(slot);
    }
}
