// Tests that `sv39_entry` agrees with independent test vectors, in statics: words of PTEs and of satp, kinds of PTEs, rights, parts of
// addresses, canonical addresses, numbers and special addresses of both schemes (Sv39, Sv48), exception causes, numbers and
// names of rules.

use crate::rows::expect;
use sv39_entry::{Access, Entry, FrameNo, Kind, Mode, Rights, Rule, Satp, Scheme, Va, Vpn};

/// Leaves of frame 5 for users: what they grant beside R; whether they are marked for copy-on-write; whether they are dirty;
/// and the word.
static LEAVES: [(Rights, bool, bool, u64); 4] = [
    (Rights::EXECUTE, false, true, 0x2000145b),
    (Rights::WRITE, false, true, 0x200014d7),
    (Rights::WRITE, true, true, 0x200015d3),
    (Rights::WRITE, false, false, 0x20001457),
];

#[test]
fn writes_leaves(rt: HostRuntime) {
    for number in 0..LEAVES.len() {
        let (right, cow, dirty, word) = LEAVES[number];
        let leaf = Entry::leaf(FrameNo(5), Rights::READ | right, true, cow, dirty);
        expect(&rt, number, leaf.to_word(), word);
    }
}

#[test]
fn writes_pointers(rt: HostRuntime) {
    expect(&rt, 0, Entry::pointer(FrameNo(7)).to_word(), 0x20001c01);
}

/// A scheme and an ASID, and the word of satp with the root in frame 3.
static SATPS: [(Scheme, u16, u64); 5] = [
    (Scheme::Sv39, 0, 0x8000000000080003),
    (Scheme::Sv39, 7, 0x8000700000080003),
    (Scheme::Sv48, 0, 0x9000000000080003),
    (Scheme::Sv48, 7, 0x9000700000080003),
    (Scheme::Sv39, 0x123, 0x8012300000080003),
];

#[test]
fn writes_satp(rt: HostRuntime) {
    for number in 0..SATPS.len() {
        let (scheme, asid, word) = SATPS[number];
        let written = Satp::new(scheme, asid, FrameNo(3)).to_word();
        let told = (written, Satp::from_word(word).asid());
        expect(&rt, number, told, (word, asid));
    }
}

static KINDS: [(u64, Kind); 16] = [
    (0x200800d7, Kind::Leaf),
    (0x200804d7, Kind::Leaf),
    (0x00400000200800d7, Kind::Invalid),
    (0x8000000020000801, Kind::Invalid),
    (0x20080057, Kind::Leaf),
    (0x20080097, Kind::Leaf),
    (0x200800c7, Kind::Leaf),
    (0x200800d5, Kind::Invalid),
    // pointers to frame 3 with A, D or U set
    (0x20000c41, Kind::Invalid),
    (0x20000c81, Kind::Invalid),
    (0x20000c11, Kind::Invalid),
    (0x000000d7, Kind::Leaf),
    (0x00000001, Kind::Pointer),
    (0x000000c7, Kind::Leaf),
    (0x20000801, Kind::Pointer),
    (0x20000800, Kind::Invalid),
];

#[test]
fn knows_kinds(rt: HostRuntime) {
    for number in 0..KINDS.len() {
        let (word, kind) = KINDS[number];
        expect(&rt, number, Entry::from_word(word).kind(), kind);
    }
}

static ACCESSES: [(u64, Access, Mode, bool); 8] = [
    (0x200800d7, Access::Load, Mode::User, true),
    (0x200800d7, Access::Fetch, Mode::User, false),
    (0x20080057, Access::Store, Mode::User, false),
    (0x20080057, Access::Load, Mode::User, true),
    (0x20080097, Access::Load, Mode::User, false),
    (0x200800c7, Access::Load, Mode::User, false),
    (0x200800c7, Access::Load, Mode::Supervisor, true),
    (0x200800d7, Access::Store, Mode::Supervisor, false),
];

#[test]
fn judges_accesses(rt: HostRuntime) {
    for number in 0..ACCESSES.len() {
        let (word, access, mode, permitted) = ACCESSES[number];
        let told = Entry::from_word(word).permits(access, mode);
        expect(&rt, number, told, permitted);
    }
}

#[test]
fn reads_entries_and_rights(rt: HostRuntime) {
    expect(&rt, 0, Entry::from_word(0x200015d3).ppn(), 0x80005);
    expect(&rt, 1, Rights::READ.grants(Access::Load), true);
    expect(&rt, 2, Rights::READ.grants(Access::Store), false);
}

/// The indices of a page in the tables of its walk, that of level 3 first.
type Indices = (usize, usize, usize, usize);

fn indices(page: Vpn) -> Indices {
    (page.index(3), page.index(2), page.index(1), page.index(0))
}

/// An address, the number of its page, the offset in that page, and the page's indices.
static ADDRESSES: [(u64, u64, u64, Indices); 5] = [
    (0x234567, 0x234, 0x567, (0, 0, 1, 0x34)),
    (0x3ffffff000, 0x3ffffff, 0, (0, 255, 511, 511)),
    (0x7fffffffe000, 0x7fffffffe, 0, (255, 511, 511, 510)),
    (0xffffffc000000000, 0xffffffc000000, 0, (511, 256, 0, 0)),
    (0xffff800000000000, 0xffff800000000, 0, (256, 0, 0, 0)),
];

#[test]
fn takes_addresses_apart(rt: HostRuntime) {
    for number in 0..ADDRESSES.len() {
        let va = Va(ADDRESSES[number].0);
        let (page, offset) = (va.page(), va.offset());
        let told = (page.at(offset).0, page.number(), offset, indices(page));
        expect(&rt, number, told, ADDRESSES[number]);
    }
}

/// The number of a page; `None` if there is no page.
fn number_of(page: Option<Vpn>) -> Option<u64> {
    Some(page?.number())
}

#[test]
fn takes_numbers_of_pages_and_frames(rt: HostRuntime) {
    expect(&rt, 0, number_of(Vpn::new(1 << 52)), None);
    expect(&rt, 1, number_of(Vpn::new(7)), Some(7));
    expect(&rt, 2, FrameNo::from_ppn(0x80005), Some(FrameNo(5)));
    expect(&rt, 3, FrameNo::from_ppn(0x7ffff), None);
    expect(&rt, 4, FrameNo(5).address(), 0x80005000);
}

/// An address, and whether it is canonical under Sv39 and under Sv48.
static CANONICAL: [(u64, bool, bool); 8] = [
    (0x3fffffffff, true, true),
    (0x4000000000, false, true),
    (0x7fffffffffff, false, true),
    (0x800000000000, false, false),
    (0xffff7fffffffffff, false, false),
    (0xffff800000000000, false, true),
    (0xffffffbfffffffff, false, true),
    (0xffffffc000000000, true, true),
];

#[test]
fn knows_canonical_addresses(rt: HostRuntime) {
    for number in 0..CANONICAL.len() {
        let (address, in_sv39, in_sv48) = CANONICAL[number];
        let va = Va(address);
        let told = (Scheme::Sv39.is_canonical(va), Scheme::Sv48.is_canonical(va));
        expect(&rt, number, told, (in_sv39, in_sv48));
    }
}

/// Addresses of a scheme: `maxva`, `trampoline`, `trapframe`, and the kernel stacks of slots 0, 1 and 55.
fn places(scheme: Scheme) -> [u64; 6] {
    [
        scheme.maxva().0,
        scheme.trampoline().0,
        scheme.trapframe().0,
        scheme.kernel_stack(0).0,
        scheme.kernel_stack(1).0,
        scheme.kernel_stack(55).0,
    ]
}

static PLACES: [(Scheme, [u64; 6]); 2] = [
    (
        Scheme::Sv39,
        [
            0x4000000000,
            0x3ffffff000,
            0x3fffffe000,
            0x3fffffd000,
            0x3fffffb000,
            0x3ffff8f000,
        ],
    ),
    (
        Scheme::Sv48,
        [
            0x800000000000,
            0x7ffffffff000,
            0x7fffffffe000,
            0x7fffffffd000,
            0x7fffffffb000,
            0x7ffffff8f000,
        ],
    ),
];

#[test]
fn knows_places(rt: HostRuntime) {
    for number in 0..PLACES.len() {
        let (scheme, wanted) = PLACES[number];
        expect(&rt, number, places(scheme), wanted);
    }
}

/// A scheme, the level of its root, its number of pages, and the MODE of satp.
static SCHEMES: [(Scheme, u32, u64, u64); 2] = [
    (Scheme::Sv39, 2, 0x8000000, 8),
    (Scheme::Sv48, 3, 0x1000000000, 9),
];

#[test]
fn knows_schemes(rt: HostRuntime) {
    for number in 0..SCHEMES.len() {
        let (scheme, top_level, pages, mode) = SCHEMES[number];
        let told = (scheme.top_level(), scheme.page_limit(), scheme.mode());
        expect(&rt, number, told, (top_level, pages, mode));
    }
}

/// An access, and its causes: misaligned, access fault, page fault.
static CAUSES: [(Access, u64, u64, u64); 3] = [
    (Access::Fetch, 0, 1, 12),
    (Access::Load, 4, 5, 13),
    (Access::Store, 6, 7, 15),
];

#[test]
fn numbers_causes(rt: HostRuntime) {
    for number in 0..CAUSES.len() {
        let (access, misaligned, outside, page) = CAUSES[number];
        let told = (
            access.misaligned_cause(),
            access.access_fault_cause(),
            access.page_fault_cause(),
        );
        expect(&rt, number, told, (misaligned, outside, page));
    }
}

static RULES: [(Rule, u64, &str); 2] = [
    (Rule::GuardPage, 4, "GuardPage"),
    (Rule::NoFrame, 9, "NoFrame"),
];

#[test]
fn names_rules(rt: HostRuntime) {
    for row in 0..RULES.len() {
        let (rule, number, name) = RULES[row];
        expect(&rt, row, (rule.number(), rule.name()), (number, name));
    }
}
