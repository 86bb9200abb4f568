// How many frames a fork takes (`fork_need`), counted from the list of settled pages (those in memory): the trapframe and,
// for each size of table, the page tables (`tables_of_pages`).

ghost use Rattle.std.specs.Prelude.{◌≡◌, ◌+◌, ◌/◌, ◌<◌, ◌≤◌, ◌∷◌, ℕ, length, map, Some};
ghost use Rattle.address_space.specs.SettledLists.{AreSettled};
ghost use Rattle.process_model.specs.Frames as model;
ghost use Rattle.process_model.specs.PageMap.{count, get, keys, numbers};
ghost use Rattle.process_model.specs.Process.{Page, Process};
ghost use Rattle.sv39_entry.specs.Schemes.{trampoline_page, trapframe_page};
ghost use Rattle.table_walk.specs.Tables.{Tables};

use address_space::SettledPage;
use process_model::MOST_FRAMES;
use sv39_entry::Scheme;

/// The number of frames that a fork takes: the child's trapframe, and the page tables for the listed settled pages.
pub(crate) fn fork_need(scheme: Scheme, settled: &[SettledPage]) -> usize
    requires few { length settled.now < MOST_FRAMES }
    ensures need { (t : Tables) (p : Process) → p.scheme ≡ scheme → ((n : ℕ) (s : Page) → get p.settled n ≡ Some s → n < trapframe_page p.scheme) →
        AreSettled t p 0 (trapframe_page p.scheme) settled.now → result ≡ model.fork_need p }
{
    // A table of level 2 maps 2^27 pages, one of level 1 maps 2^18, and one of level 0 maps 2^9 (RISC-V Privileged Architecture
    // 20211203, 4.4.1 and 4.5.1).
    let upper = tables_of_pages(scheme, settled, 1 << 18);
    let lower = tables_of_pages(scheme, settled, 1 << 9);
    // 2: the trapframe and the root.
    let frames = 2 + upper + lower;
    match scheme {
        Scheme::Sv39 => frames,
        Scheme::Sv48 => frames + tables_of_pages(scheme, settled, 1 << 27),
    }
}

/// The number of page tables, each for `pages` pages, that the settled pages, TRAMPOLINE and TRAPFRAME need.
fn tables_of_pages(scheme: Scheme, settled: &[SettledPage], pages: u64) -> usize
    requires few { length settled.now < MOST_FRAMES }
    requires some { 0 < pages }
    requires top { trampoline_page scheme / pages ≡ trapframe_page scheme / pages }
    ensures count { (t : Tables) (p : Process) → p.scheme ≡ scheme → ((n : ℕ) (s : Page) → get p.settled n ≡ Some s → n < trapframe_page p.scheme) →
        AreSettled t p 0 (trapframe_page p.scheme) settled.now →
        result ≡ count (numbers (map (λ n. n / pages) (trampoline_page p.scheme ∷ trapframe_page p.scheme ∷ keys p.settled))) }
    ensures few { result ≤ MOST_FRAMES }
{
    let mut count = 0;
    let mut table = 0;
    'pages: for page in settled {
        let needed = page.page.number() / pages;
        if needed >= table {
            count += 1;
            table = needed + 1;
        }
    }
    if table > scheme.trapframe().page().number() / pages {
        count
    } else {
        count + 1
    }
}
