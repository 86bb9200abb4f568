// Copies that the kernel makes from and to memory of a process.

use crate::mapped::Known;
use crate::state::{Maker, begins};
use std::alloc::AllocError;
use usertest_rows::{Call, Expected};
use usertest_world::{Base, NOBODYS, PAGE, Place};

/// A place of a copy, and how many bytes can be copied there.
#[derive(Clone, Copy)]
struct Target {
    place: Place,
    done: u64,
}

impl Maker {
    /// Returns the line of a copy to an address, of bytes as `out` of the runtime makes them.
    fn copyout_text(&self, address: u64, seed: u64, size: u64) -> Result<String, AllocError> {
        let mut text = format!(in self.alloc; "copyout 0 {address:#x} ")?;
        for at in 0..size {
            let sum = seed
                .wrapping_mul(31)
                .wrapping_add(at.wrapping_mul(7))
                .wrapping_add(1);
            let byte = sum & 0xff;
            write!(&mut text, "{byte:02x}")?;
        }
        Ok(text)
    }

    /// Returns a place at which a copy stops; `None` if `sort`, below 1,000, says that none is wanted.
    fn bad_target(&mut self, size: u64, sort: u64) -> Option<Target> {
        let heap = self.world.me().size;
        if sort < 120 {
            let place = Place::nobodys(self.random.choice(&NOBODYS));
            return Some(Target { place, done: 0 });
        }
        if sort < 200 {
            let place = Place::guard(self.random.choice(&[0, 100, 3800]));
            return Some(Target { place, done: 0 });
        }
        if sort < 360 && heap > 0 && heap.is_multiple_of(PAGE) && heap >= size {
            let done = self.random.below(size);
            let place = Place::heap(heap.saturating_sub(done));
            return Some(Target { place, done });
        }
        None
    }

    /// Returns the touched pages of mappings, as pairs of a place in the list and a page; if `out`, those that were stored to. Labs
    /// don't ask for copies to others, and may set D by user stores alone.
    fn ready_pages(&self, out: bool) -> Result<Vec<(usize, usize)>, AllocError> {
        self.pages_that(Known {
            writable: false,
            touched: true,
            stored_to: out,
        })
    }

    /// Returns a place in a mapping for a copy; `None` if there is none.
    fn in_mapping(&mut self, size: u64, out: bool) -> Option<Place> {
        let Ok(pages) = self.ready_pages(out) else {
            self.lose();
            return None;
        };
        let chosen = self.random.index(pages.len());
        let (at, page) = pages.get(chosen).copied()?;
        let mapping = self.mapping(at)?;
        let in_file = mapping.file.bytes_from(mapping.first.saturating_add(page));
        let room = if mapping.shared {
            in_file.min(PAGE)
        } else {
            PAGE
        };
        let free = room.checked_sub(size)?;
        let offset = (page as u64)
            .saturating_mul(PAGE)
            .saturating_add(self.random.below(free.saturating_add(1)));
        Some(mapping.at(offset))
    }

    /// Adds those of some offsets that are edges of pages with room for a copy before and after them.
    fn put_edges(
        &self,
        edges: &mut Vec<u64>,
        offsets: &[u64],
        size: u64,
    ) -> Result<(), AllocError> {
        let end = self.world.me().size.saturating_sub(size);
        for offset in offsets {
            if offset.is_multiple_of(PAGE) && *offset > 0 && *offset < end {
                edges.push(*offset)?;
            }
        }
        Ok(())
    }

    /// Returns the edges of pages whose beginnings someone has stored to, with room for a copy before and after them.
    fn shared_edges(&self, size: u64) -> Result<Vec<u64>, AllocError> {
        let mut edges = Vec::new(self.alloc);
        self.put_edges(&mut edges, self.world.me().spots.as_slice(), size)?;
        self.put_edges(&mut edges, self.hot.as_slice(), size)?;
        Ok(edges)
    }

    /// Returns a place before the edge of a page whose beginning someone has stored to; `None` if there is none.
    fn to_shared_edge(&mut self, size: u64) -> Option<Place> {
        let Ok(edges) = self.shared_edges(size) else {
            self.lose();
            return None;
        };
        if edges.is_empty() {
            return None;
        }
        let edge = self.random.choice(edges.as_slice());
        self.remember(edge);
        let before = self.random.between(1, size);
        Some(Place::heap(edge.saturating_sub(before)))
    }

    /// Returns a place in the heap, which has room for a copy of this size: maybe over the edge of two pages, or where the process stored.
    fn in_heap_somewhere(&mut self, size: u64) -> Place {
        let heap = self.world.me().size;
        let last = heap.saturating_sub(size);
        if heap > 2 * PAGE && self.random.chance(400) {
            let edge = self.random.between(1, heap / PAGE).saturating_mul(PAGE);
            let before = self.random.between(1, size.saturating_add(1)) / 2;
            return Place::heap(edge.saturating_sub(before).min(last));
        }
        if !self.world.me().spots.is_empty() && self.random.chance(500) {
            let spot = self.random.choice(self.world.me().spots.as_slice());
            return Place::heap(spot.min(last));
        }
        Place::heap(self.random.below(last.saturating_add(1)))
    }

    /// Returns where to copy; `None` if the heap is too small.
    fn copy_target(&mut self, size: u64, out: bool) -> Option<Target> {
        let sort = self.random.below(1000);
        if let Some(target) = self.bad_target(size, sort) {
            return Some(target);
        }
        if self.kind.has_maps()
            && sort < 600
            && let Some(place) = self.in_mapping(size, out)
        {
            return Some(Target { place, done: size });
        }
        if self.world.me().size < size {
            return None;
        }
        if self.kind.shares_copies()
            && out
            && self.random.chance(500)
            && let Some(place) = self.to_shared_edge(size)
        {
            return Some(Target { place, done: size });
        }
        let place = self.in_heap_somewhere(size);
        Some(Target { place, done: size })
    }

    /// Notes that so many bytes are copied to a place.
    fn note_copyout(&mut self, target: Target) {
        let offset = target.place.offset;
        match target.place.base {
            Base::Mapping(number) => {
                if let Some(at) = self.world.me().find_mapping(number) {
                    self.world.note_store(at, (offset / PAGE) as usize);
                }
            }
            Base::Heap if target.done > 0 => {
                let word = offset.div_ceil(8).saturating_mul(8);
                if word.saturating_add(8) <= self.world.me().size {
                    self.remember(word);
                }
            }
            _ => {},
        }
    }

    /// Returns what the machine must answer to a copy of this size.
    fn copy_answer(&self, size: u64, done: u64) -> Result<Expected, AllocError> {
        if done == size {
            begins(format!(in self.alloc; "copied {size}"))
        } else {
            Ok(Expected::Short(done))
        }
    }

    /// The kernel copies to a place, by read().
    fn copy_out(&mut self, target: Target, via: u64, size: u64) {
        let (step, seed) = (self.test.next_line(), self.random.between(1, 200));
        let place = target.place;
        self.note_copyout(target);
        let line = self.copyout_text(place.address, seed, size);
        let expected = self.copy_answer(size, target.done);
        self.test.say_call(line, expected);
        let arguments = format!(in self.alloc; "{via}, {place}, {size}, {seed}, ");
        self.write_step(Call::Out, step, arguments);
    }

    /// The kernel copies from a place, by write().
    fn copy_in(&mut self, target: Target, via: u64, size: u64) {
        let step = self.test.next_line();
        let (place, address) = (target.place, target.place.address);
        let line = format!(in self.alloc; "copyin 0 {address:#x} {size}");
        let expected = self.copy_answer(size, target.done);
        self.test.say_call(line, expected);
        let arguments = format!(in self.alloc; "{via}, {place}, {size}, ");
        self.write_step(Call::In, step, arguments);
    }

    /// The kernel copies from or to any place. Returns whether there is one.
    pub(crate) fn copy(&mut self) -> bool {
        let outs = if self.kind.shares_copies() { 650 } else { 500 };
        let out = self.random.chance(outs);
        let size = self.random.choice(&[2, 4, 8, 16, 33, 64]);
        let Some(target) = self.copy_target(size, out) else {
            return false;
        };
        let via = self.random.below(3);
        if out {
            self.copy_out(target, via, size);
        } else {
            self.copy_in(target, via, size);
        }
        true
    }

    /// Makes a load, a copyout to the same place, and the load again: a translation that is kept from the first must not serve the second.
    /// Returns whether there is a place that was stored to.
    pub(crate) fn copy_after_load(&mut self) -> bool {
        let Ok(spots) = self.all_good_spots(8) else {
            self.lose();
            return false;
        };
        if spots.is_empty() {
            return false;
        }
        let place = Place::heap(self.random.choice(spots.as_slice()));
        let via = self.random.below(3);
        self.load_heap_at(place.offset);
        self.copy_out(Target { place, done: 8 }, via, 8);
        self.load_heap_at(place.offset);
        true
    }

    /// The kernel copies to the text, which is read-only.
    pub(crate) fn copy_to_text(&mut self) -> bool {
        let size = self.random.choice(&[1, 4, 8]);
        let via = self.random.below(2);
        let place = Place::TEXT;
        self.write_text(String::from_str(self.alloc, "#ifndef KIT_OLD\n"));
        self.copy_out(Target { place, done: 0 }, via, size);
        self.write_text(String::from_str(self.alloc, "#endif\n"));
        true
    }

    /// Adds the lines by which the kernel copies an exit status to an address.
    fn say_status(&mut self, address: u64, status: u64) {
        let line = format!(in self.alloc; "copyout 0 {address:#x} {status:02x}000000");
        self.test.say_kernel(line, "copied 4");
    }

    /// A child exits, and wait() writes its status to the heap. Returns whether the heap is large enough.
    pub(crate) fn wait(&mut self) -> bool {
        let Some(offset) = self.heap_place(4, true) else {
            return false;
        };
        let (step, status) = (self.test.next_line(), self.random.below(60));
        self.begin_child();
        self.end_child(status);
        let place = Place::heap(offset);
        self.say_status(place.address, status);
        self.remember(offset);
        self.write_text(format!(in self.alloc; "  out_wait({step}, {place}, {status});\n"));
        true
    }
}
