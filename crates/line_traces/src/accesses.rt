// `AccessLine`: a user access with the region that grants it or the rule that denies it; and `reason`, why an access faults
// that a region grants.

ghost use Rattle.std.specs.Prelude.{◌≡◌, ℕ, Some, is_none};
ghost use Rattle.sv39_entry.specs.Word.{access_allowed};
ghost use Rattle.line_traces.specs.Reasons.{IsGrantedLeaf, is_served};

use crate::access_names::access_name;
use crate::regions::RegionLine;
use crate::walks::WalkLine;
use hart_machine::Machine;
use json_objects::ObjectWriter;
use serde::{Described, Serialize, Serializer};
use sv39_entry::{Access, Entry, EntryFlags, Kind, Rule, Va};
use walk_lines::Hex;

/// A rule that denies an access.
#[derive(Clone, Copy)]
pub struct RuleLine {
    /// Its number, 1 to 9.
    pub number: u64,
    pub name: &'static str,
}

impl Described for RuleLine {}

impl Serialize for RuleLine {
    fn serialize<S: Serializer>(&self, out: &mut S) -> Result<(), S::Error> {
        let mut object = ObjectWriter::begin(out);
        object.member("number", &self.number);
        object.member("name", &self.name);
        object.finish()
    }
}

/// A user access, and how the regions of the process decide it.
#[derive(Clone, Copy)]
pub struct AccessLine {
    /// `fetch`, `load` or `store`.
    pub access: &'static str,
    pub address: Hex,
    /// In bytes.
    pub width: u64,
    /// The region that holds the address.
    pub region: Option<RegionLine>,
    /// The first rule that denies the access; none if the region grants it.
    pub rule: Option<RuleLine>,
}

impl Described for AccessLine {}

impl Serialize for AccessLine {
    fn serialize<S: Serializer>(&self, out: &mut S) -> Result<(), S::Error> {
        let mut object = ObjectWriter::begin(out);
        object.member("access", &self.access);
        object.member("address", &self.address);
        object.member("width", &self.width);
        object.maybe("region", &self.region);
        object.maybe("rule", &self.rule);
        object.finish()
    }
}

impl AccessLine {
    /// Returns an access of `width` bytes by the process in a slot, and how its regions decide it; `None` if the slot has no
    /// process, or `width` is 0.
    pub fn of(
        machine: &Machine,
        slot: usize,
        access: Access,
        va: Va,
        width: u64,
    ) -> Option<AccessLine> {
        if width == 0 {
            return None;
        }
        let rule = match machine.granted(slot, access, va, width)? {
            Ok(()) => None,
            Err(rule) => Some(RuleLine {
                number: rule.number(),
                name: rule.name(),
            }),
        };
        let region = match machine.region(slot, va) {
            Some(region) => Some(RegionLine::of(region)),
            None => None,
        };
        Some(AccessLine {
            access: access_name(access),
            address: Hex(va.0),
            width,
            region,
            rule,
        })
    }
}

/// Returns why an access faults that the regions grant: by the word of the leaf that it uses, and by how many references the
/// leaf's frame has. `None` exactly if the leaf permits it.
#[tactic(auto, using(crate::proofs::Reasons::is_cow, crate::proofs::Reasons::is_dirty, crate::proofs::Reasons::lets_granted))]
pub fn reason(access: Access, leaf: Option<u64>, references: Option<u16>) -> Option<&'static str>
    ensures served { is_none result ≡ is_served access leaf }
    ensures permitted { (word : ℕ) → leaf ≡ Some word → IsGrantedLeaf access word → is_none result ≡ access_allowed access word }
{
    let Some(word) = leaf else {
        return Some("the page has no leaf: to serve the fault is to give it a frame");
    };
    let entry = Entry::from_word(word);
    match access {
        Access::Fetch | Access::Load => return None,
        Access::Store => {}
    }
    if entry.has(EntryFlags::COW) {
        return Some(match references {
            Some(1) =>
                "the leaf lacks W and has C (copy-on-write), and its frame has no other reference: to serve the fault is to set W again",
            _ =>
                "the leaf lacks W and has C (copy-on-write), and its frame has another reference: to serve the fault is to copy the page",
        });
    }
    if !entry.has(EntryFlags::DIRTY) {
        return Some(
            "the leaf lacks D: to serve the fault is to mark the page to be written back to its file",
        );
    }
    None
}

/// Returns the word of the leaf in which a walk ends, `None` if it finds none.
pub fn leaf_of(walk: &[WalkLine]) -> Option<u64> {
    let word = walk.last()?.entry.word?;
    match Entry::from_word(word).kind() {
        Kind::Leaf => Some(word),
        Kind::Invalid | Kind::Pointer => None,
    }
}
