// `HartPlace`: where a hart is, and what its satp names.

ghost use Rattle.std.specs.Prelude.{◌≡◌};
ghost use Rattle.hart_machine.specs.BufferEntries.{IsInWorld};
ghost use Rattle.process_model.specs.World.{World};

use hart_machine::Machine;
use json_objects::ObjectWriter;
use script_language::phase_name;
use serde::{Described, Serialize, Serializer};
use std::fmt;
use sv39_entry::Scheme;
use walk_lines::Hex;

/// Where a hart is, and what its satp names.
#[derive(Clone, Copy, PartialEq, Eq)]
pub struct HartPlace {
    pub hart: usize,
    /// The name of its phase between user mode and kernel.
    pub phase: &'static str,
    /// The slot of its process.
    pub slot: Option<usize>,
    /// The word of its satp.
    pub satp: Hex,
    /// The scheme that satp names.
    pub scheme: &'static str,
    /// The ASID in satp.
    pub asid: u16,
    /// The physical page number of the root in satp.
    pub root: Hex,
}

impl Described for HartPlace {}

impl Serialize for HartPlace {
    fn serialize<S: Serializer>(&self, out: &mut S) -> Result<(), S::Error> {
        let mut object = ObjectWriter::begin(out);
        object.member("hart", &self.hart);
        object.member("phase", &self.phase);
        object.maybe("slot", &self.slot);
        object.member("satp", &self.satp);
        object.member("scheme", &self.scheme);
        object.member("asid", &self.asid);
        object.member("root", &self.root);
        object.finish()
    }
}

/// Returns the name of a scheme, as `boot` has it.
fn scheme_name(scheme: Scheme) -> &'static str {
    match scheme {
        Scheme::Sv39 => "sv39",
        Scheme::Sv48 => "sv48",
    }
}

impl HartPlace {
    /// Returns where a hart of the machine is; `None` if there is no such hart.
    pub fn of(machine: &Machine, hart: usize) -> Option<HartPlace>
        requires world { (w : World) × IsInWorld machine.now w }
    {
        let (Some(phase), Some(satp)) = (machine.phase(hart), machine.satp(hart)) else {
            return None;
        };
        Some(HartPlace {
            hart,
            phase: phase_name(phase),
            slot: machine.slot(hart),
            satp: Hex(satp.to_word()),
            scheme: scheme_name(machine.scheme()),
            asid: satp.asid(),
            root: Hex(satp.ppn()),
        })
    }
}

/// A slot as text, after a comma; nothing for no slot.
#[derive(Clone, Copy)]
struct InSlot(Option<usize>);

impl fmt::Display for InSlot {
    fn fmt<W: fmt::Write>(&self, f: &mut fmt::Formatter<W>) -> fmt::Result {
        match self.0 {
            Some(slot) => write!(f, ", slot {slot}"),
            None => Ok(()),
        }
    }
}

/// For example `hart 0: user, slot 0, satp 0x8000000000080017 (sv39, ASID 0, root 0x80017)`.
impl fmt::Display for HartPlace {
    fn fmt<W: fmt::Write>(&self, f: &mut fmt::Formatter<W>) -> fmt::Result {
        let HartPlace {
            hart,
            phase,
            satp,
            scheme,
            asid,
            root,
            ..
        } = *self;
        let slot = InSlot(self.slot);
        write!(
            f,
            "hart {hart}: {phase}{slot}, satp {satp} ({scheme}, ASID {asid}, root {root})"
        )
    }
}
