// Calls over a hart's history in the caller's memory: each event, and the outcomes of an access that the standard permits.

ghost use Rattle.std.specs.Prelude.{◌≡◌, ◌<◌, ◌≤◌, ◌↔◌, ◌⊎◌, ◌/◌, ◌%◌, ℕ, true, false, None, Some, length, slice_get};
ghost use Rattle.access_history.specs.declared.event.Event.TheVariants.{Fence, Store, WritePmp, WriteSatp};
ghost use Rattle.lent_history.specs.Lent.{mask_space};
ghost use Rattle.lent_history.specs.Numbers.{outcome_in, request_in};
ghost use Rattle.lent_history.specs.Recording.{Adds, Restarts, is_everything, is_full, no_word, one_word};
ghost use Rattle.xv6vm_c.specs.Answers.{address_if, asid_if};
ghost use Rattle.xv6vm_c.specs.Harts.{IsBegun, IsListed, IsVerdict, can_write, masked_if, satp_with};

use access_judge::may_end;
use lent_history::{
    LentAccess, LentEvent, LentHart, LentHistory, LentOutcome, LentPmp, fence, outcomes, store,
    write_pmp, write_satp,
};
use sv39_entry::{Satp, Va};
use walk_rules::PmpEntry;

/// The statuses that the calls return.
const OK: u32 = 0;

const UNKNOWN: u32 = 6;

const FULL: u32 = 7;

/// Begins a hart with no events, by its profile: bits 0 and 1 for Svnapot and Svpbmt, 2 and 3 for Svade and Svadu (both or none: at each access
/// either), 8, 9 and 10 for Sv39, Sv48 and Sv57. satp is 0, mstatus is 0, and each PMP entry is OFF.
#[unsafe(no_mangle)]
pub extern "C" fn xv6vm_hart_begin(
    hart: &mut LentHart,
    profile: u32,
    asid_bits: u32,
    pmp_count: u32,
)
    ensures { IsBegun profile asid_bits pmp_count hart.new }
{
    hart.profile = profile;
    hart.asid_bits = asid_bits;
    hart.mstatus = 0;
    hart.satp = 0;
    hart.pmp_count = u64::from(pmp_count);
    hart.count = 0;
    hart.pmp = [LentPmp {
        config: 0,
        address: 0,
    }; 64];
}

/// mstatus is this from now on: SUM, MXR, MPRV and MPP count.
#[unsafe(no_mangle)]
pub extern "C" fn xv6vm_hart_status(hart: &mut LentHart, mstatus: u64)
    ensures { hart.new.mstatus ≡ mstatus }
{
    hart.mstatus = mstatus;
}

/// A word of memory changes, at a physical address of which the low 3 bits do not count, from one word to another: by a store of this hart, of
/// another one or of a device, or by an update of A and D. Returns 0, or 7 if the array is full: nothing changes then.
#[unsafe(no_mangle)]
pub extern "C" fn xv6vm_hart_mem(
    hart: &mut LentHart,
    events: &mut [LentEvent],
    address: u64,
    before: u64,
    word: u64,
) -> u32
    ensures added { result ≡ 0 → Adds (Store (address / 4096) (address % 4096 / 8) word) (one_word address before) hart.old events.old hart.new events.new }
    ensures full { result ≡ 7 ↔ is_full hart.old events.old }
    ensures stays { result ≡ 7 → (hart.new ≡ hart.old) × (events.new ≡ events.old) }
    ensures code { (result ≡ 0) ⊎ (result ≡ 7) }
{
    match store(hart, events, address, before, word) {
        Ok(()) => OK,
        Err(_) => FULL,
    }
}

/// satp is written. A hart that does not have the MODE, or MODE 0 with another bit set, does not write it: 6, and nothing changes. The ASID has
/// as many bits as the hart has. Returns 0, or 7 if the array is full: nothing changes then.
#[unsafe(no_mangle)]
pub extern "C" fn xv6vm_hart_satp(hart: &mut LentHart, events: &mut [LentEvent], satp: u64) -> u32
    ensures added { result ≡ 0 → Adds (WriteSatp (satp_with hart.old satp)) no_word hart.old events.old hart.new events.new }
    ensures full { result ≡ 7 ↔ (can_write hart.old satp ≡ true) × is_full hart.old events.old }
    ensures unknown { result ≡ 6 ↔ (can_write hart.old satp ≡ false) }
    ensures stays { (result ≡ 7) ⊎ (result ≡ 6) → (hart.new ≡ hart.old) × (events.new ≡ events.old) }
    ensures code { (result ≡ 0) ⊎ ((result ≡ 6) ⊎ (result ≡ 7)) }
{
    let word = Satp::from_word(satp);
    if !can_write(hart, word) {
        return UNKNOWN;
    }
    let word = with_space(hart, word);
    match write_satp(hart, events, word) {
        Ok(()) => OK,
        Err(_) => FULL,
    }
}

/// The registers of a PMP entry become these. For a number that the hart does not have nothing changes but the array. Returns 0, or 7 if the
/// array is full: nothing changes then.
#[unsafe(no_mangle)]
pub extern "C" fn xv6vm_hart_pmp(
    hart: &mut LentHart,
    events: &mut [LentEvent],
    number: usize,
    config: u8,
    address: u64,
) -> u32
    ensures added { result ≡ 0 → Adds (WritePmp number (record { config = config; address = address })) no_word hart.old events.old hart.new events.new }
    ensures full { result ≡ 7 ↔ is_full hart.old events.old }
    ensures stays { result ≡ 7 → (hart.new ≡ hart.old) × (events.new ≡ events.old) }
    ensures code { (result ≡ 0) ⊎ (result ≡ 7) }
{
    let entry = PmpEntry { config, address };
    match write_pmp(hart, events, number, entry) {
        Ok(()) => OK,
        Err(_) => FULL,
    }
}

/// SFENCE.VMA (the standard, 4.2.1). `has_address` 0 means rs1 = x0, `has_asid` 0 rs2 = x0. With both 0 all events are dropped, and memory,
/// satp and PMP as they are now are what was before the next ones. Returns 0, or 7 if the array is full: nothing changes then.
#[unsafe(no_mangle)]
pub extern "C" fn xv6vm_hart_fence(
    hart: &mut LentHart,
    events: &mut [LentEvent],
    has_address: u32,
    address: u64,
    has_asid: u32,
    asid: u16,
) -> u32
    ensures added { result ≡ 0 → is_everything (address_if has_address address) (masked_if hart.old has_asid asid) ≡ false
        → Adds (Fence (address_if has_address address) (masked_if hart.old has_asid asid)) no_word hart.old events.old hart.new events.new }
    ensures restarts { is_everything (address_if has_address address) (masked_if hart.old has_asid asid) ≡ true → Restarts hart.old events.old hart.new }
    ensures full { result ≡ 7 ↔ is_full hart.old events.old × (is_everything (address_if has_address address) (masked_if hart.old has_asid asid) ≡ false) }
    ensures stays { result ≡ 7 → (hart.new ≡ hart.old) × (events.new ≡ events.old) }
    ensures code { (result ≡ 0) ⊎ (result ≡ 7) }
{
    let va = if has_address == 0 {
        None
    } else {
        Some(Va(address))
    };
    let asid = if has_asid == 0 {
        None
    } else {
        Some(hart.space(asid))
    };
    match fence(hart, events, va, asid) {
        Ok(()) => OK,
        Err(_) => FULL,
    }
}

/// Returns 1 if the standard permits the outcome of an access, given the history, or, of a misaligned access, that fault for its first or last
/// byte; 0 if not; 6 if a number of the access or of the outcome has no meaning.
#[unsafe(no_mangle)]
pub extern "C" fn xv6vm_hart_judge(
    hart: &LentHart,
    events: &[LentEvent],
    words: &[u64],
    base_ppn: u64,
    access: &LentAccess,
    outcome: &LentOutcome,
) -> u32
    ensures { IsVerdict (record { hart = hart.now; events = events.now; base = base_ppn; words = words.now }) (request_in access.now hart.now) (outcome_in outcome.now) result }
{
    let (Some(request), Some(outcome)) = (access.request(hart), outcome.outcome()) else {
        return UNKNOWN;
    };
    let history = LentHistory::new(hart, events, base_ppn, words);
    if may_end(&history, hart.extensions(), request, outcome) {
        1
    } else {
        0
    }
}

/// Lists the outcomes that the standard permits for an access in the first places of an array. `*listed` becomes their number, or one more than
/// there are places if there are more than that. Returns 0; 6 if a number of the access has no meaning: nothing changes then.
#[unsafe(no_mangle)]
pub extern "C" fn xv6vm_hart_outcomes(
    hart: &LentHart,
    events: &[LentEvent],
    words: &[u64],
    base_ppn: u64,
    access: &LentAccess,
    found: &mut [LentOutcome],
    listed: &mut usize,
) -> u32
    ensures listed { IsListed (record { hart = hart.now; events = events.now; base = base_ppn; words = words.now }) (request_in access.now hart.now) found.old found.new listed.new }
    ensures unknown { result ≡ 6 ↔ request_in access.now hart.now ≡ None }
    ensures stays { result ≡ 6 → (found.new ≡ found.old) × (listed.new ≡ listed.old) }
    ensures code { (result ≡ 0) ⊎ (result ≡ 6) }
{
    let Some(request) = access.request(hart) else {
        return UNKNOWN;
    };
    let history = LentHistory::new(hart, events, base_ppn, words);
    *listed = outcomes(&history, hart.extensions(), &request, found);
    OK
}

/// Whether a hart writes a word to satp: it has the MODE, and if that is 0, all else is 0.
fn can_write(hart: &LentHart, satp: Satp) -> bool
    ensures { result ≡ can_write hart.now satp }
{
    match satp.mode() {
        0 => satp.to_word() == 0,
        8 => hart.profile / 256 % 2 == 1,
        9 => hart.profile / 512 % 2 == 1,
        10 => hart.profile / 1024 % 2 == 1,
        _ => false,
    }
}

/// Returns a word of satp with the bits of the ASID that a hart has.
fn with_space(hart: &LentHart, satp: Satp) -> Satp
    ensures { result ≡ satp_with hart.now satp }
{
    let asid = u64::from(hart.space(satp.asid()));
    Satp::from_word(satp.mode() * (1 << 60) + asid * (1 << 44) + satp.ppn())
}
