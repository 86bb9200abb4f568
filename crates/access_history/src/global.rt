// Which page table entry makes what it maps global (`has_global`).

ghost use Rattle.std.specs.Prelude.{◌≡◌};
ghost use Rattle.access_history.specs.Held.{has_global};

use sv39_entry::Entry;

/// Returns whether a PTE makes what it maps, or what is below it, global: V and G (the standard, 4.3.1).
pub fn has_global(entry: Entry) -> bool
    ensures { result ≡ has_global entry }
{
    let word = entry.to_word();
    word % 2 == 1 && word / 32 % 2 == 1
}
