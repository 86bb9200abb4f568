// Tests that each function of `walk_rules` (kinds of PTEs, rights, A and D, addresses, physical memory protection) returns the
// values that were worked by hand from the standard: a table and a loop for each. Tables are statics: the prover pays for each
// row of a local one.

use crate::rows::expect;
use sv39_entry::{Access, Entry, Kind, Mode, Satp, Va};
use walk_rules::{
    AdScheme, Extensions, Matching, MemoryType, PmpEntry, Privilege, Region, Status, has_ad,
    is_canonical, leads_to, pmp_permits, pmp_permits_read, pmp_permits_update, reach, top_level,
    with_ad,
};

const FETCH: Access = Access::Fetch;

const LOAD: Access = Access::Load;

const STORE: Access = Access::Store;

const USER: Privilege = Privilege::User;

const SUPERVISOR: Privilege = Privilege::Supervisor;

const MACHINE: Privilege = Privilege::Machine;

/// A PTE at a level, whether the hart has Svnapot and Svpbmt, and the kind.
type KindRow = (u64, u32, bool, bool, Kind);

static KINDS: [KindRow; 31] = [
    // V = 0; R = 0 and W = 1
    (0x200000ce, 0, true, true, Kind::Invalid),
    (0x20000005, 1, true, true, Kind::Invalid),
    (0x2000000d, 0, true, true, Kind::Invalid),
    // leaves
    (0x200000cf, 0, false, false, Kind::Leaf),
    (0x20000009, 4, false, false, Kind::Leaf),
    (0x20000003, 0, true, true, Kind::Leaf),
    // pointers; U, A and D are reserved in them, G is not
    (0x20000001, 1, false, false, Kind::Pointer),
    (0x20000001, 4, true, true, Kind::Pointer),
    (0x20000021, 2, true, true, Kind::Pointer),
    (0x20000001, 0, true, true, Kind::Invalid),
    (0x20000011, 1, true, true, Kind::Invalid),
    (0x20000041, 1, true, true, Kind::Invalid),
    (0x20000081, 1, true, true, Kind::Invalid),
    // bits 54 and 60
    (0x00400000200000cf, 0, true, true, Kind::Invalid),
    (0x10000000200000cf, 0, true, true, Kind::Invalid),
    (0x0040000020000001, 1, true, true, Kind::Invalid),
    // N: PPN[0] ends in 1000, at level 0
    (0x80000000000020cf, 0, true, false, Kind::Leaf),
    (0x80000000000060cf, 0, true, false, Kind::Leaf),
    (0x80000000000020cf, 0, false, true, Kind::Invalid),
    (0x80000000000020cf, 1, true, false, Kind::Invalid),
    (0x80000000000010cf, 0, true, false, Kind::Invalid),
    (0x80000000000030cf, 0, true, false, Kind::Invalid),
    (0x8000000000002001, 1, true, true, Kind::Invalid),
    // PBMT
    (0x20000000200000cf, 0, false, true, Kind::Leaf),
    (0x40000000200000cf, 2, false, true, Kind::Leaf),
    (0x60000000200000cf, 0, true, true, Kind::Invalid),
    (0x20000000200000cf, 0, true, false, Kind::Invalid),
    (0x40000000200000cf, 0, true, false, Kind::Invalid),
    (0x2000000020000001, 1, true, true, Kind::Invalid),
    (0x4000000020000001, 1, true, true, Kind::Invalid),
    // both
    (0xa0000000000020cf, 0, true, true, Kind::Leaf),
];

#[test]
fn kinds(rt: HostRuntime) {
    for number in 0..KINDS.len() {
        let (word, level, svnapot, svpbmt, kind) = KINDS[number];
        let extensions = Extensions {
            svnapot,
            svpbmt,
            ad: AdScheme::Svade,
        };
        let told = extensions.kind(Entry::from_word(word), level);
        expect(&rt, number, told, kind);
    }
}

static AD_SCHEMES: [(AdScheme, bool, bool); 3] = [
    (AdScheme::Svade, true, false),
    (AdScheme::Svadu, false, true),
    (AdScheme::Either, true, true),
];

#[test]
fn ad_schemes(rt: HostRuntime) {
    for number in 0..AD_SCHEMES.len() {
        let (ad, fault, update) = AD_SCHEMES[number];
        let told = (ad.may_fault(), ad.may_update());
        expect(&rt, number, told, (fault, update));
    }
}

static MEMORY_TYPES: [(u64, Option<MemoryType>); 5] = [
    (0x200000cf, Some(MemoryType::Pma)),
    (0x80000000000020cf, Some(MemoryType::Pma)),
    (0x20000000200000cf, Some(MemoryType::Nc)),
    (0x40000000200000cf, Some(MemoryType::Io)),
    (0x60000000200000cf, None),
];

#[test]
fn memory_types(rt: HostRuntime) {
    for number in 0..MEMORY_TYPES.len() {
        let (word, memory_type) = MEMORY_TYPES[number];
        let told = MemoryType::of_entry(Entry::from_word(word));
        expect(&rt, number, told, memory_type);
    }
}

/// The hart's mode, MPRV, MPP, the access, and the effective mode.
type EffectiveRow = (Privilege, bool, Privilege, Access, Privilege);

static EFFECTIVE: [EffectiveRow; 7] = [
    (USER, true, MACHINE, LOAD, USER),
    (SUPERVISOR, true, USER, STORE, SUPERVISOR),
    (MACHINE, false, USER, LOAD, MACHINE),
    (MACHINE, true, USER, LOAD, USER),
    (MACHINE, true, SUPERVISOR, STORE, SUPERVISOR),
    (MACHINE, true, MACHINE, STORE, MACHINE),
    (MACHINE, true, USER, FETCH, MACHINE),
];

#[test]
fn effective_privileges(rt: HostRuntime) {
    for number in 0..EFFECTIVE.len() {
        let (privilege, mprv, mpp, access, effective) = EFFECTIVE[number];
        let status = Status {
            sum: false,
            mxr: false,
            mprv,
            mpp,
        };
        expect(&rt, number, status.effective(privilege, access), effective);
    }
}

static TRANSLATION_MODES: [(Privilege, Option<Mode>); 3] = [
    (USER, Some(Mode::User)),
    (SUPERVISOR, Some(Mode::Supervisor)),
    (MACHINE, None),
];

#[test]
fn translation_modes(rt: HostRuntime) {
    for number in 0..TRANSLATION_MODES.len() {
        let (privilege, mode) = TRANSLATION_MODES[number];
        expect(&rt, number, privilege.translation_mode(), mode);
    }
}

/// A leaf at a level, SUM, MXR, the mode, the access, and whether it is allowed.
type RightsRow = (u64, u32, bool, bool, Mode, Access, bool);

static RIGHTS: [RightsRow; 31] = [
    // U = 1
    (0x200000df, 0, false, false, Mode::User, FETCH, true),
    (0x200000df, 0, false, false, Mode::User, LOAD, true),
    (0x200000df, 0, false, false, Mode::User, STORE, true),
    (0x200000df, 0, false, false, Mode::Supervisor, LOAD, false),
    (0x200000df, 0, false, false, Mode::Supervisor, STORE, false),
    (0x200000df, 0, true, false, Mode::Supervisor, LOAD, true),
    (0x200000df, 0, true, false, Mode::Supervisor, STORE, true),
    (0x200000df, 0, true, false, Mode::Supervisor, FETCH, false),
    // U = 0
    (0x200000cf, 0, true, true, Mode::User, LOAD, false),
    (0x200000cf, 0, false, false, Mode::Supervisor, FETCH, true),
    (0x200000cf, 0, false, false, Mode::Supervisor, LOAD, true),
    (0x200000cf, 0, false, false, Mode::Supervisor, STORE, true),
    // X alone
    (0x200000c9, 0, false, false, Mode::Supervisor, LOAD, false),
    (0x200000c9, 0, false, true, Mode::Supervisor, LOAD, true),
    (0x200000c9, 0, false, true, Mode::Supervisor, STORE, false),
    (0x200000c9, 0, false, false, Mode::Supervisor, FETCH, true),
    // R alone
    (0x200000c3, 0, false, false, Mode::Supervisor, LOAD, true),
    (0x200000c3, 0, false, true, Mode::Supervisor, STORE, false),
    (0x200000c3, 0, false, true, Mode::Supervisor, FETCH, false),
    // A and D are not asked
    (0x2000000f, 0, false, false, Mode::Supervisor, STORE, true),
    // MXR does not give X of a page with U
    (0x200000d9, 0, false, true, Mode::Supervisor, LOAD, false),
    (0x200000d9, 0, true, true, Mode::Supervisor, LOAD, true),
    // superpages
    (0x200800cf, 1, false, false, Mode::Supervisor, LOAD, true),
    (0x200804cf, 1, false, false, Mode::Supervisor, LOAD, false),
    (0x200804cf, 0, false, false, Mode::Supervisor, LOAD, true),
    (0x100000cf, 2, false, false, Mode::Supervisor, LOAD, true),
    (0x200800cf, 2, false, false, Mode::Supervisor, LOAD, false),
    (
        0x2000000000cf,
        3,
        false,
        false,
        Mode::Supervisor,
        LOAD,
        true,
    ),
    (0x10000000cf, 3, false, false, Mode::Supervisor, LOAD, false),
    (
        0x4000000000cf,
        4,
        false,
        false,
        Mode::Supervisor,
        LOAD,
        true,
    ),
    (
        0x2000000000cf,
        4,
        false,
        false,
        Mode::Supervisor,
        LOAD,
        false,
    ),
];

#[test]
fn leaves_allow(rt: HostRuntime) {
    for number in 0..RIGHTS.len() {
        let (word, level, sum, mxr, mode, access, allowed) = RIGHTS[number];
        let status = Status {
            sum,
            mxr,
            mprv: false,
            mpp: USER,
        };
        // changes no row; it shows the limit to the proof
        let level = level.min(4);
        let told = status.allows(mode, access, Entry::from_word(word), level);
        expect(&rt, number, told, allowed);
    }
}

/// The access, the leaf, whether A and D are as it needs, and the leaf as the hart writes it.
static ACCESSED_AND_DIRTY: [(Access, u64, bool, u64); 8] = [
    (FETCH, 0x8f, false, 0xcf),
    (LOAD, 0x0f, false, 0x4f),
    (LOAD, 0x4f, true, 0x4f),
    (STORE, 0x0f, false, 0xcf),
    (STORE, 0x4f, false, 0xcf),
    (STORE, 0x8f, false, 0xcf),
    (STORE, 0xcf, true, 0xcf),
    (STORE, 0xa00000000000210f, false, 0xa0000000000021cf),
];

#[test]
fn accessed_and_dirty(rt: HostRuntime) {
    for number in 0..ACCESSED_AND_DIRTY.len() {
        let (access, word, ready, set) = ACCESSED_AND_DIRTY[number];
        let entry = Entry::from_word(word);
        let told = (has_ad(access, entry), with_ad(access, entry).to_word());
        expect(&rt, number, told, (ready, set));
    }
}

static TOPS: [(u64, Option<u32>); 6] = [
    (0, None),
    (0x8000000000080001, Some(2)),
    (0x9fff000000080001, Some(3)),
    (0xa001000000080001, Some(4)),
    (0xb000000000080001, None),
    (0x1000000000080001, None),
];

#[test]
fn tops(rt: HostRuntime) {
    for number in 0..TOPS.len() {
        let (word, top) = TOPS[number];
        expect(&rt, number, top_level(Satp::from_word(word)), top);
    }
}

static CANONICAL: [(u32, u64, bool); 13] = [
    (2, 0x3fffffffff, true),
    (2, 0x4000000000, false),
    (2, 0xffffffc000000000, true),
    (2, 0xffffffbfffffffff, false),
    (2, 0x8000000000000000, false),
    (3, 0x7fffffffffff, true),
    (3, 0x800000000000, false),
    (3, 0xffff800000000000, true),
    (3, 0xffff7fffffffffff, false),
    (4, 0x00ffffffffffffff, true),
    (4, 0x0100000000000000, false),
    (4, 0xff00000000000000, true),
    (4, 0xfeffffffffffffff, false),
];

#[test]
fn canonical_addresses(rt: HostRuntime) {
    for number in 0..CANONICAL.len() {
        let (top, va, canonical) = CANONICAL[number];
        // changes no row; it shows the limit to the proof
        let told = is_canonical(top.min(4), Va(va));
        expect(&rt, number, told, canonical);
    }
}

/// The leaf, its level, the virtual address, how many of its low bits stay, and the physical address.
static PHYSICAL: [(u64, u32, u64, u32, u64); 7] = [
    (0x200000cf, 0, 0x1234, 12, 0x80000234),
    (0x200800cf, 1, 0x234567, 21, 0x80234567),
    (0x100000cf, 2, 0x3f12345678, 30, 0x52345678),
    (0x2000000000cf, 3, 0xffff80fffffffff8, 39, 0x807ffffffff8),
    (0x4000000000cf, 4, 0x123456789abc, 48, 0x1123456789abc),
    (0x80000000200060cf, 0, 0x7abc, 16, 0x80017abc),
    (0x80000000200060cf, 0, 0xfffffff8, 16, 0x8001fff8),
];

#[test]
fn physical_addresses(rt: HostRuntime) {
    for number in 0..PHYSICAL.len() {
        let (word, level, va, bits, pa) = PHYSICAL[number];
        let entry = Entry::from_word(word);
        // changes no row; it shows the limit to the proof
        let level = level.min(4);
        let told = (reach(entry, level), leads_to(entry, level, Va(va)));
        expect(&rt, number, told, (bits, pa));
    }
}

/// pmpcfg, pmpaddr, pmpaddr below, A, and the first byte of the region and the first one above it.
type RegionRow = (u8, u64, u64, Matching, u64, u64);

static REGIONS: [RegionRow; 9] = [
    (0x07, 0x20000000, 0, Matching::Off, 0, 0),
    (
        0x0f,
        0x20001000,
        0x20000000,
        Matching::Tor,
        0x80000000,
        0x80004000,
    ),
    (0x88, 0x20001000, 0, Matching::Tor, 0, 0x80004000),
    (0x17, 0x20000000, 9, Matching::Na4, 0x80000000, 0x80000004),
    (0x1f, 0x20000000, 9, Matching::Napot, 0x80000000, 0x80000008),
    (0x1f, 0x20000001, 9, Matching::Napot, 0x80000000, 0x80000010),
    (0x1f, 0x200001ff, 0, Matching::Napot, 0x80000000, 0x80001000),
    (
        0x1f,
        0x3fffffffffffff,
        0,
        Matching::Napot,
        0,
        0x200000000000000,
    ),
    (0x17, 0xffc0000000000001, 0, Matching::Na4, 4, 8),
];

#[test]
fn regions(rt: HostRuntime) {
    for number in 0..REGIONS.len() {
        let (config, address, below, matching, first, end) = REGIONS[number];
        let entry = PmpEntry { config, address };
        let told = (entry.matching(), entry.region(below));
        expect(&rt, number, told, (matching, Region { first, end }));
    }
}

/// The privilege mode, the access, its physical address and width, and whether it is permitted.
type PmpRow = (Privilege, Access, u64, u64, bool);

/// PMP entries, and accesses under them.
type PmpCase = (&'static [PmpEntry], &'static [PmpRow]);

static PMP: [PmpCase; 6] = [
    // no entries, and one that is OFF
    (
        &[],
        &[
            (USER, STORE, 0x80000000, 8, true),
            (MACHINE, FETCH, 0, 4, true),
        ],
    ),
    (
        &[PmpEntry {
            config: 0x07,
            address: 0x20000000,
        }],
        &[
            (USER, LOAD, 0x80000000, 8, false),
            (MACHINE, STORE, 0x80000000, 8, true),
        ],
    ),
    // 4 KiB with R, and above it 8 KiB with R and W
    (
        &[
            PmpEntry {
                config: 0x19,
                address: 0x200001ff,
            },
            PmpEntry {
                config: 0x1b,
                address: 0x200003ff,
            },
        ],
        &[
            (SUPERVISOR, LOAD, 0x80000000, 8, true),
            (SUPERVISOR, STORE, 0x80000000, 8, false),
            (MACHINE, STORE, 0x80000000, 8, true),
            (USER, STORE, 0x80001000, 8, true),
            (USER, FETCH, 0x80001000, 4, false),
            // a partial match, in M-mode too
            (SUPERVISOR, LOAD, 0x80000ffc, 8, false),
            (MACHINE, LOAD, 0x80000ffc, 8, false),
            (SUPERVISOR, LOAD, 0x80001ffc, 8, false),
            (SUPERVISOR, LOAD, 0x7ffffffc, 8, false),
            // none matches
            (SUPERVISOR, LOAD, 0x80002000, 8, false),
            (MACHINE, LOAD, 0x80002000, 8, true),
        ],
    ),
    // L
    (
        &[PmpEntry {
            config: 0x99,
            address: 0x200001ff,
        }],
        &[
            (MACHINE, LOAD, 0x80000000, 8, true),
            (MACHINE, STORE, 0x80000000, 8, false),
            (MACHINE, STORE, 0x80001000, 8, true),
        ],
    ),
    // TOR
    (
        &[
            PmpEntry {
                config: 0,
                address: 0x20000000,
            },
            PmpEntry {
                config: 0x0f,
                address: 0x20001000,
            },
        ],
        &[
            (USER, FETCH, 0x80000000, 4, true),
            (USER, LOAD, 0x80003ff8, 8, true),
            (USER, LOAD, 0x80003ffc, 8, false),
            (USER, LOAD, 0x80004000, 8, false),
            (USER, LOAD, 0x7ffffff8, 8, false),
        ],
    ),
    // an empty TOR region matches nothing
    (
        &[
            PmpEntry {
                config: 0,
                address: 0x20001000,
            },
            PmpEntry {
                config: 0x08,
                address: 0x20000000,
            },
            PmpEntry {
                config: 0x1f,
                address: 0x3fffffffffffff,
            },
        ],
        &[(USER, LOAD, 0x80000000, 8, true)],
    ),
];

#[test]
fn pmp_verdicts(rt: HostRuntime) {
    for (entries, rows) in &PMP {
        for number in 0..rows.len() {
            let (privilege, access, pa, width, permitted) = rows[number];
            let told = pmp_permits(entries, privilege, access, pa, width);
            expect(&rt, number, (pa, told), (pa, permitted));
        }
    }
}

/// 4 KiB with R, 4 KiB with W, and all else with none; each binds M-mode too.
static PMP_ENTRIES: [PmpEntry; 3] = [
    PmpEntry {
        config: 0x99,
        address: 0x200001ff,
    },
    PmpEntry {
        config: 0x9a,
        address: 0x200005ff,
    },
    PmpEntry {
        config: 0x98,
        address: 0x3fffffffffffff,
    },
];

/// A place, and whether a walk may read and update a PTE there.
static PMP_PLACES: [(u64, bool, bool); 3] = [
    (0x80000008, true, false),
    (0x80001008, false, true),
    (0x80002000, false, false),
];

#[test]
fn pmp_of_walks(rt: HostRuntime) {
    for number in 0..PMP_PLACES.len() {
        let (place, read, update) = PMP_PLACES[number];
        let told = (
            pmp_permits_read(&PMP_ENTRIES, place),
            pmp_permits_update(&PMP_ENTRIES, place),
        );
        expect(&rt, number, told, (read, update));
    }
}
