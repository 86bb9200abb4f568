// `serve`, the service of a page fault of the user, and enum `Served`, its outcome: the page is resident, the process is to
// end by a rule, or the files refused the promise (reservation) of a page read.

ghost use Rattle.std.specs.Prelude.{◌<◌};
ghost use Rattle.address_space.specs.Agreement.{body_of, IsAlive};
ghost use Rattle.fault_rules.specs.PageService.{moment, ServesPage, store_model};
ghost use Rattle.frame_store.specs.Laws.{IsSeatOf};
ghost use Rattle.process_model.specs.Process.{regions};
ghost use Rattle.process_model.specs.Regions.{first_rule};
ghost use Rattle.sv39_entry.specs.Address.{page_of};

use crate::residence::{ResidenceError, make_resident};
use address_space::Space;
use file_cabinet::Files;
use frame_store::{FrameSeat, FrameSupply};
use process_model::Refusal;
use sv39_entry::{Access, Rule, Va};

/// The outcome of the service of a fault.
#[derive(Clone, Copy, PartialEq, Eq, Debug)]
pub enum Served {
    /// The page is resident: the access is answered when it is made again.
    Ready,
    /// The process is to end by this rule: the first that denies the access, or `NoFrame` if none does and too few frames
    /// could be reserved for the page.
    Ended(Rule),
    /// `files` refused to promise a read of the file's page with which this page begins: `Memory` (the host is out of
    /// memory) or `JournalFull` (the history of page I/O has no room). The seat's view, the store and the files are
    /// unchanged.
    Unserved(Refusal),
}

/// Serves the fault of a user access of `width` bytes, which is not 0, at `va`. If a rule of the regions denies the access,
/// returns `Ended` with the first such rule; the seat's view and the store are then unchanged, and no file is read. Else
/// makes the page resident as `make_resident` does, and returns `Ready`, `Ended` with `NoFrame`, or `Unserved`. The space
/// of a process that is to end is not taken apart. Makes no fence: the caller must.
pub fn serve<S: FrameSeat, F: FrameSupply<Seat = S>, C: Files>(
    space: &mut Space<S>,
    store: &mut F,
    files: &mut C,
    va: Va,
    width: u64,
    access: Access,
) -> Served
    requires fits { IsSeatOf F.invariant store.old space.old.seat }
    requires ready { IsAlive (body_of S.view space.old) }
    requires width { 0 < width }
    ensures served { ServesPage (store_model S.view F.invariant F.alone F.free F.count C.files C.becomes C.can_refuse) (moment space.old store.old files.old)
        (moment space.new store.new files.new) access (page_of va.0) (λ p. first_rule p.scheme (regions p) access va.0 width) result }
{
    if let Err(rule) = space.grant(access, va, width) {
        return Served::Ended(rule);
    }
    match make_resident(space, store, files, va.page(), access) {
        Ok(()) => Served::Ready,
        Err(ResidenceError::NoFrame) => Served::Ended(Rule::NoFrame),
        Err(ResidenceError::Unpromised(error)) => Served::Unserved(error.into()),
    }
}
