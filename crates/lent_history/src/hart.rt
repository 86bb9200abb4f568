// `LentHart`: a struct, what is known of a hart beside its events, in a caller's memory as plain numbers. `LentPmp`: a struct, a PMP entry.

ghost use Rattle.std.specs.Prelude.{◌≡◌, map};
ghost use Rattle.lent_history.specs.Lent.{count_of, extensions_of, mask_space, pmp_in, status_of};

use sv39_entry::Satp;
use walk_rules::{AdScheme, Extensions, PmpEntry, Privilege, Status};

/// How many PMP entries a hart has at most (RISC-V Privileged Architecture 20211203, 3.7.1).
pub(crate) const MOST: usize = 64;

/// A PMP entry in a caller's memory.
#[repr(C)]
#[derive(Clone, Copy)]
pub struct LentPmp {
    /// The entry's byte of pmpcfg; only the low 8 bits count.
    pub config: u64,
    /// pmpaddr.
    pub address: u64,
}

impl LentPmp {
    /// Returns the entry.
    pub fn entry(self) -> PmpEntry
        ensures { result ≡ pmp_in self }
    {
        PmpEntry {
            config: (self.config % 256) as u8,
            address: self.address,
        }
    }

    /// Returns the place that says an entry.
    pub fn of(entry: PmpEntry) -> LentPmp
        ensures { pmp_in result ≡ entry }
    {
        LentPmp {
            config: u64::from(entry.config),
            address: entry.address,
        }
    }
}

/// What is known of a hart beside its events. Any numbers are allowed.
#[repr(C)]
#[derive(Clone, Copy)]
pub struct LentHart {
    /// Bit 0: Svnapot; 1: Svpbmt; 2: Svade; 3: Svadu (both or none: either); 8, 9, 10: Sv39, Sv48, Sv57.
    pub profile: u32,
    /// How many bits of an ASID the hart has, 0 to 16; more is 16.
    pub asid_bits: u32,
    /// mstatus, as it is now.
    pub mstatus: u64,
    /// satp, as it was before the events.
    pub satp: u64,
    /// How many PMP entries the hart has; more than 64 is 64.
    pub pmp_count: u64,
    /// How many places of the array have events; more than there are is all of them.
    pub count: u64,
    /// The PMP entries, as they were before the events.
    pub pmp: [LentPmp; MOST],
}

impl LentHart {
    /// Returns how many places of an array have events.
    pub fn used(&self, capacity: usize) -> usize
        ensures { result ≡ count_of self.now capacity }
    {
        if self.count < capacity as u64 {
            self.count as usize
        } else {
            capacity
        }
    }

    /// Returns the extensions that change what a page table entry means.
    pub fn extensions(&self) -> Extensions
        ensures { result ≡ extensions_of self.now }
    {
        let ad = match self.profile / 4 % 4 {
            1 => AdScheme::Svade,
            2 => AdScheme::Svadu,
            _ => AdScheme::Either,
        };
        Extensions {
            svnapot: self.profile % 2 == 1,
            svpbmt: self.profile / 2 % 2 == 1,
            ad,
        }
    }

    /// Returns the fields of mstatus that change accesses. MPP 2, which is reserved, counts as machine mode.
    pub fn status(&self) -> Status
        ensures { result ≡ status_of self.now }
    {
        let mpp = match self.mstatus / (1 << 11) % 4 {
            0 => Privilege::User,
            1 => Privilege::Supervisor,
            _ => Privilege::Machine,
        };
        Status {
            sum: self.mstatus / (1 << 18) % 2 == 1,
            mxr: self.mstatus / (1 << 19) % 2 == 1,
            mprv: self.mstatus / (1 << 17) % 2 == 1,
            mpp,
        }
    }

    /// Returns the bits of an ASID that the hart has.
    pub fn space(&self, asid: u16) -> u16
        ensures { result ≡ mask_space self.now asid }
    {
        if self.asid_bits < 16 {
            asid % (1 << self.asid_bits)
        } else {
            asid
        }
    }
}

/// Returns the entries in the places of a hart.
pub(crate) fn entries_in(places: &[LentPmp; MOST]) -> [PmpEntry; MOST]
    ensures { result ≡ map pmp_in places.now }
{
    let mut entries = [PmpEntry {
        config: 0,
        address: 0,
    }; MOST];
    'places: for n in 0..MOST {
        entries[n] = places[n].entry();
    }
    entries
}

/// Puts entries into the places of a hart.
pub(crate) fn put_entries(places: &mut [LentPmp; MOST], entries: &[PmpEntry; MOST])
    ensures { map pmp_in places.new ≡ entries.now }
{
    'places: for n in 0..MOST {
        places[n] = LentPmp::of(entries[n]);
    }
}
