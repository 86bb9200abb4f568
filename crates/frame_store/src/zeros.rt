// `zeros_in_front`, a crate-internal function: returns how many words at the start of a slice are 0, which is the index
// of its first nonzero word, if there is one. Tests eight words at a time.

ghost use Rattle.std.specs.Prelude.{◌≡◌, ◌≢◌, ◌↔◌, ◌<◌, ◌≤◌, ℕ, length, slice_index, true};

/// Words per group that is tested at once.
const GROUP: usize = 8;

/// Returns the index of the first word that is not 0, or the number of words if all are 0.
pub(crate) fn zeros_in_front(words: &[u64]) -> usize
    ensures within { result ≤ length words.now }
    ensures zeros { (i : ℕ) → i < result → slice_index words.now i ≡ 0 }
    ensures some { result < length words.now → slice_index words.now result ≢ 0 }
{
    let mut at = 0;
    'groups: while GROUP <= words.len() - at
        && words[at] == 0
        && are_zeros(&words[at..at + GROUP])
    {
        at += GROUP;
    }
    'words: while at < words.len() && words[at] == 0 {
        at += 1;
    }
    at
}

/// Returns whether all eight words of a group are 0.
fn are_zeros(group: &[u64]) -> bool
    requires { length group.now ≡ 8 }
    ensures { (result ≡ true) ↔ ((i : ℕ) → i < 8 → slice_index group.now i ≡ 0) }
{
    let low = (group[0] == 0) & (group[1] == 0) & (group[2] == 0) & (group[3] == 0);
    let high = (group[4] == 0) & (group[5] == 0) & (group[6] == 0) & (group[7] == 0);
    low & high
}
