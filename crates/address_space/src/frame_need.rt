// `frames_needed`: how many frames a space that is built from these parts (regions with their first bytes) takes, for its
// trapframe, its pages and its page tables.

ghost use Rattle.std.specs.Prelude.{◌≡◌, ◌+◌, ◌/◌, ◌<◌, ◌≤◌, ◌∷◌, length, map};
ghost use Rattle.address_space.specs.Parts.{AreParts, build_need, numbers_of, pages_of};
ghost use Rattle.process_model.specs.PageMap.{count, numbers};
ghost use Rattle.sv39_entry.specs.Schemes.{trampoline_page, trapframe_page};

use crate::part::Part;
use sv39_entry::Scheme;

/// Returns how many frames the space of a process with these parts takes: the trapframe's, one for each page, and one for
/// each page table, with those on the way to TRAMPOLINE and TRAPFRAME. `Space::build` reserves as many. There are at most
/// 18 parts, in ascending order and apart, each ending at TRAPFRAME or below, with rights that fit a leaf and no file as
/// its source.
pub fn frames_needed(scheme: Scheme, parts: &[Part]) -> usize
    requires { AreParts scheme parts.now }
    ensures { result ≡ build_need scheme parts.now }
{
    // A table of level 2 is for 2^27 pages, one of level 1 for 2^18, and one of level 0 for 2^9 (RISC-V Privileged Architecture
    // 20211203, 4.4.1 and 4.5.1).
    let lower = tables_of_parts(scheme, parts, 1 << 18) + tables_of_parts(scheme, parts, 1 << 9);
    let frames = 2 + page_count(scheme, parts) + lower;
    match scheme {
        Scheme::Sv39 => frames as usize,
        Scheme::Sv48 => (frames + tables_of_parts(scheme, parts, 1 << 27)) as usize,
    }
}

/// How many pages the parts have.
fn page_count(scheme: Scheme, parts: &[Part]) -> u64
    requires { AreParts scheme parts.now }
    ensures count { result ≡ length (pages_of parts.now) }
    ensures few { result ≤ trapframe_page scheme }
{
    let mut count = 0;
    'parts: for part in parts {
        count += part.region.pages;
    }
    count
}

/// Returns how many tables of `pages` pages each the parts need with TRAMPOLINE and TRAPFRAME: adjacent parts can share one.
fn tables_of_parts(scheme: Scheme, parts: &[Part], pages: u64) -> u64
    requires parts { AreParts scheme parts.now }
    requires some { 0 < pages }
    requires top { trampoline_page scheme / pages ≡ trapframe_page scheme / pages }
    ensures count { result ≡ count (numbers (map (λ n. n / pages) (trampoline_page scheme ∷ trapframe_page scheme ∷ numbers_of parts.now))) }
    ensures few { result ≤ trapframe_page scheme + 1 }
{
    let mut count = 0;
    let mut counted = 0;
    'parts: for part in parts {
        let region = part.region;
        if region.pages > 0 {
            let first = (region.first / pages).max(counted);
            let end = (region.first + region.pages - 1) / pages + 1;
            count += end - first;
            counted = end;
        }
    }
    let top = scheme.trapframe().page().number() / pages;
    if counted > top { count } else { count + 1 }
}
