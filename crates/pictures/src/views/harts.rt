// `HartView`: where a hart is, and the entries of its TLB.

ghost use Rattle.hart_machine.specs.BufferEntries.{IsInWorld};
ghost use Rattle.process_model.specs.World.{World};

use hart_machine::Machine;
use line_traces::{HartPlace, buffer_of};
use serde::Serialize;
use std::alloc::{AllocError, Global};
use walk_lines::BufferLine;

/// A hart.
#[derive(Drop, Serialize)]
pub struct HartView {
    pub place: HartPlace,
    /// The entries of its TLB, the oldest first.
    pub tlb: Vec<BufferLine>,
}

/// Returns the harts of a machine, by their numbers.
///
/// # Errors
/// `AllocError`: the host is out of memory.
pub fn harts_of(alloc: Global, machine: &Machine) -> Result<Vec<HartView>, AllocError>
    requires world { (w : World) × IsInWorld machine.now w }
{
    let mut harts = Vec::new(alloc);
    for hart in 0..machine.hart_count() {
        if let Some(place) = HartPlace::of(machine, hart) {
            let tlb = buffer_of(alloc, machine, hart)?;
            harts.push(HartView { place, tlb })?;
        }
    }
    Ok(harts)
}
