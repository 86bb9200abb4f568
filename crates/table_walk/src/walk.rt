// Two enums for results: `Found`, what a walk finds for an address (a leaf, no leaf, or a table's word outside the memory);
// and `Walk`, the outcome of translating an access (a leaf with the physical address, a page fault or an access fault).

/// What a walk finds for an address, whatever the rights.
#[derive(Clone, Copy, PartialEq, Eq, Debug)]
pub enum Found {
    /// The word of the leaf, its level (0 for a page of 4,096 bytes, the others for superpages), and whether it is global:
    /// it has G, or a pointer on the way to it has (RISC-V Privileged Architecture 20211203, 4.3.1).
    Leaf { word: u64, level: u32, global: bool },
    /// The address is not canonical; or the walk ends at an invalid entry, a misaligned superpage or a pointer at level 0.
    NoLeaf,
    /// A word of a table on the way lies outside the memory.
    Outside,
}

/// The outcome of the translation of an access.
#[derive(Clone, Copy, PartialEq, Eq, Debug)]
pub enum Walk {
    /// The access is permitted: the word of the leaf, its level (0 for a page of 4,096 bytes, the others for superpages),
    /// and the physical address of the accessed byte.
    Leaf { word: u64, level: u32, address: u64 },
    /// A page fault, with its exception code (12, 13 or 15).
    PageFault(u64),
    /// An access fault, with its exception code (1, 5 or 7).
    AccessFault(u64),
}
