// `fill_from_tables`: adds to a hart's TLB what a walk of page tables finds for a page; the tables are in frames that a seat
// holds.

ghost use Rattle.std.specs.Prelude.{◌≡◌, ◌++◌, ◌∷◌, []};
ghost use Rattle.frame_store.specs.Laws.{IsSeatOf, KeepsSeats};
ghost use Rattle.hart_machine.specs.WalkEntries.{entry_for};
ghost use Rattle.table_walk.specs.Leaves.{LeavesAreLocal, LeavesAreThere};
ghost use Rattle.hart_tlb.specs.Buffer.{newest_entries};
ghost use Rattle.table_walk.specs.Tables.{HasTables, Tables};

use frame_store::{FrameAccess, FrameSeat};
use hart_tlb::Buffer;
use process_model::BUFFER_SIZE;
use sv39_entry::{FrameNo, Satp, Scheme, Va};
use table_walk::{HeldWords, walks_of_tables};

/// Walks the page tables below `root` for the page of `va` and keeps what the walk finds as the newest entry of `buffer`, under
/// `asid`. A full buffer loses its oldest entry.
pub(crate) fn fill_from_tables<F: FrameAccess>(
    buffer: &mut Buffer<BUFFER_SIZE>,
    store: &mut F,
    seat: &mut F::Seat,
    scheme: Scheme,
    root: FrameNo,
    asid: u16,
    va: Va,
)
    requires fits { IsSeatOf F.invariant store.old seat.old }
    requires held { (t : Tables) × HasTables scheme (F.Seat.view seat.old) root.0 t }
    ensures entries { (t : Tables) → HasTables scheme (F.Seat.view seat.old) root.0 t → LeavesAreThere scheme t → LeavesAreLocal scheme t →
        buffer.new ≡ newest_entries BUFFER_SIZE (buffer.old ++ entry_for scheme t asid va.0 ∷ []) }
    ensures view { F.Seat.view seat.new ≡ F.Seat.view seat.old }
    ensures same { store.new ≡ store.old }
    ensures keeps { KeepsSeats F.invariant store.old seat.old store.new seat.new }
{
    walks_of_tables();
    let mut words = HeldWords { store, seat };
    buffer.fill(&mut words, scheme, Satp::new(scheme, asid, root), va);
}
