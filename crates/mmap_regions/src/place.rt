// `mapping_place`: the place of a new mapping, the greatest page at which it fits, found from TRAPFRAME downwards.

ghost use Rattle.std.specs.Prelude.{◌≡◌, ◌≤◌};
ghost use Rattle.address_space.specs.Layouts.{LaysOut};
ghost use Rattle.process_model.specs.Mappings as model;
ghost use Rattle.process_model.specs.Order.{HasOrder};
ghost use Rattle.process_model.specs.Process.{Process};
ghost use Rattle.process_model.specs.declared.limits.TheConstants.{LONGEST_MAPPING};

use address_space::Layout;
use sv39_entry::PAGE_SIZE;

/// Returns the number of the greatest page at which a run of `pages` pages fits: above the heap, below TRAPFRAME, and apart
/// from the mappings of the layout; `None` if it fits nowhere.
pub(crate) fn mapping_place(layout: &Layout, pages: u64) -> Option<u64>
    requires order { (p : Process) × LaysOut layout.now p × HasOrder 0 p }
    requires few { pages ≤ LONGEST_MAPPING }
    ensures { (p : Process) → LaysOut layout.now p → HasOrder 0 p → result ≡ model.mapping_place p pages }
{
    let mappings = layout.mappings();
    let scheme = layout.scheme();
    let mut end = scheme.trapframe().page().number();
    'mappings: for i in (0..mappings.len()).rev() {
        let mapping = mappings[i];
        if mapping.first + mapping.pages + pages <= end {
            return Some(end - pages);
        }
        end = mapping.first;
    }
    if layout.size().div_ceil(PAGE_SIZE) + pages <= end {
        return Some(end - pages);
    }
    None
}
