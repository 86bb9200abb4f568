// What the writes of satp and of PMP registers change at a hart with a profile: `satp_after`, `cut_asid`, `lock_of`.

ghost use Rattle.std.specs.Prelude.{◌≡◌, ◌<◌, length};
ghost use Rattle.mmu_lines.specs.Writes as writes;
ghost use Rattle.sv39_entry.specs.Satp as satps;

use mmu_reasons::Lock;
use mmu_requests::Profile;
use sv39_entry::Satp;
use walk_rules::PmpEntry;

/// Whether a hart has the MODE of a word of satp (RISC-V Privileged Architecture 20211203, 4.1.11).
fn has_mode(profile: &Profile, satp: Satp) -> bool
    ensures { result ≡ writes.has_mode profile.now (satps.mode satp) }
{
    match satp.mode() {
        0 => true,
        8 => profile.sv39,
        9 => profile.sv48,
        10 => profile.sv57,
        _ => false,
    }
}

/// Returns an ASID without the bits that the hart does not have (the standard, 4.1.11).
pub(crate) fn cut_asid(profile: &Profile, asid: u16) -> u16
    ensures { result ≡ writes.cut_asid profile.now asid }
{
    if profile.asid_bits < 16 {
        asid % (1 << profile.asid_bits)
    } else {
        asid
    }
}

/// Returns what a write of a word leaves in satp, without the ASID bits that the hart does not have; `None` if it lacks the MODE: the word is
/// not written (the standard, 4.1.11).
pub(crate) fn satp_written(profile: &Profile, word: Satp) -> Option<Satp>
    ensures { result ≡ writes.satp_written profile.now word }
{
    if !has_mode(profile, word) {
        return None;
    }
    let asid = u64::from(cut_asid(profile, word.asid()));
    Some(Satp::from_word((word.mode() << 60) + (asid << 44) + word.ppn()))
}

/// Returns what a write of a PMP entry leaves as it was (the standard, 3.7.1).
pub(crate) fn lock_of(entries: &[PmpEntry], number: usize) -> Lock
    requires { number < length entries.now }
    ensures { result ≡ writes.lock_of entries.now number }
{
    if entries[number].config >= 128 {
        return Lock::All;
    }
    match entries.get(number + 1) {
        // A is TOR
        Some(above) if above.config >= 128 && above.config / 8 % 4 == 1 => Lock::Address,
        _ => Lock::Nothing,
    }
}
