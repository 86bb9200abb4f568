// `Space::read_run` and `Space::write_run`: a run of bytes within one settled page (one in memory) is read or stored, for
// the kernel copies copyin and copyout.

ghost use Rattle.std.specs.Prelude.{[], ◌≡◌, ◌+◌, ◌%◌, ◌≤◌, ℕ, drop, length, take};
ghost use Rattle.address_space.specs.Agreement.{body_of, IsSpace};
ghost use Rattle.address_space.specs.Kept.{KeepsPlace, OnlyReads};
ghost use Rattle.address_space.specs.Steps.{CanRead, CanWrite, TakesFrames};
ghost use Rattle.frame_store.specs.Laws.{IsSeatOf, KeepsSeats};
ghost use Rattle.frame_store.specs.View.{IsSole};
ghost use Rattle.process_model.specs.Process.{Page, Process};
ghost use Rattle.process_model.specs.Residence.{stored, with_page};
ghost use Rattle.sv39_entry.specs.Address.{page_of};
ghost use Rattle.table_walk.specs.Tables.{Tables};

use crate::space::Space;
use frame_bytes::{read_run, write_run};
use frame_store::{FrameAccess, FrameSeat};
use sv39_entry::Va;

impl<S: FrameSeat> Space<S> {
    /// Copies as many bytes as the slice has, from `va` on, into the slice. All must lie in one page, which is settled.
    /// Rights are not checked.
    pub fn read_run<F: FrameAccess<Seat = S>>(&mut self, store: &mut F, va: Va, bytes: &mut [u8])
        requires fits { IsSeatOf F.invariant store.old self.old.seat }
        requires ready { (t : Tables) × (p : Process) × (s : Page) × CanRead (body_of S.view self.old) t p (page_of va.0) s }
        requires inside { va.0 % 4096 + length bytes.old ≤ 4096 }
        ensures bytes { (t : Tables) (p : Process) (s : Page) → CanRead (body_of S.view self.old) t p (page_of va.0) s →
            bytes.new ≡ take (length bytes.new) (drop (va.0 % 4096) s.bytes) }
        ensures reads { OnlyReads S.view self.old self.new store.old store.new }
        ensures keeps { KeepsSeats F.invariant store.old self.old.seat store.new self.new.seat }
    {
        let frame = self.page_frame(store, va.page());
        read_run(store, &mut self.seat, frame, va.offset() as usize, bytes);
    }

    /// Stores these bytes from `va` on. All must lie in one page, which is settled, without copy-on-write mark, and in a region
    /// that grants writing. Sets no mark.
    pub fn write_run<F: FrameAccess<Seat = S>>(&mut self, store: &mut F, va: Va, bytes: &[u8])
        requires fits { IsSeatOf F.invariant store.old self.old.seat }
        requires ready { (t : Tables) × (p : Process) × (s : Page) × CanWrite (body_of S.view self.old) t p (page_of va.0) s }
        requires inside { va.0 % 4096 + length bytes.now ≤ 4096 }
        ensures agrees { (t : Tables) (p : Process) (s : Page) → CanWrite (body_of S.view self.old) t p (page_of va.0) s →
            IsSpace (body_of S.view self.new) t (with_page p (page_of va.0) (stored s (va.0 % 4096) bytes.now)) }
        ensures soles { (f : ℕ) → IsSole (S.view self.old.seat) f → IsSole (S.view self.new.seat) f }
        ensures place { KeepsPlace self.old self.new }
        ensures tallies { TakesFrames (S.view self.old.seat) (S.view self.new.seat) 0 [] }
        ensures keeps { KeepsSeats F.invariant store.old self.old.seat store.new self.new.seat }
        ensures free { F.alone → F.free store.new ≡ F.free store.old }
        ensures counts { F.alone → (f : ℕ) → F.count store.new f ≡ F.count store.old f }
    {
        let frame = self.page_frame(store, va.page());
        write_run(store, &mut self.seat, frame, va.offset() as usize, bytes);
    }
}
