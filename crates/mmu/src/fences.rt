// `Fences`: a struct, the numbers of the last fences of each ASID, and of those of each address; and until when each fence of an ASID was the last one.

ghost use Rattle.std.specs.Prelude.{◌≡◌, ◌<◌, ◌≤◌, ◌+◌, ◌-◌, ◌/◌, ◌^◌, ◌&&◌, ◌==◌, ℕ, Option, None, Some, OnErr, OnOk, max, nat_eq, if◌then◌else◌};
ghost use Rattle.std.specs.HashMap.{spare};
ghost use Rattle.std.specs.Option.{option_eq};
ghost use Rattle.access_judge.specs.Log.{IsReach};
ghost use Rattle.mmu.specs.Fencing.{HasRoom, of_end, of_key, of_space, with_none};

use std::alloc::{AllocError, Global};
use std::collections::HashMap;
use sv39_entry::Va;

/// The last fences.
#[derive(Drop)]
pub(crate) struct Fences {
    // by the ASID: the last fence of it with rs1 = x0
    spaces: HashMap<u16, usize>,
    // by the ASID and the number of a fence of it, 0 for none: the moment right before the next one
    ends: HashMap<(u16, usize), usize>,
    // by how many low bits are left alone, the address's others, and rs2: the last fence with an address that was valid
    addresses: HashMap<(u32, u64, Option<u16>), usize>,
}

impl Fences {
    /// Returns no fences.
    pub fn new(alloc: Global) -> Fences
        ensures spaces { (s : ℕ) → of_space result s ≡ 0 }
        ensures ends { (s epoch : ℕ) → of_end result s epoch ≡ None }
        ensures addresses { (bits page : ℕ) (s : Option ℕ) → of_key result bits page s ≡ 0 }
    {
        Fences {
            spaces: HashMap::new(alloc),
            ends: HashMap::new(alloc),
            addresses: HashMap::new(alloc),
        }
    }

    /// Makes room for one fence.
    ///
    /// # Errors
    /// `AllocError`: the host is out of memory.
    pub fn reserve(&mut self) -> Result<(), AllocError>
        ensures room { OnOk result (HasRoom self.new) }
        ensures spaces { (s : ℕ) → of_space self.new s ≡ of_space self.old s }
        ensures ends { (s epoch : ℕ) → of_end self.new s epoch ≡ of_end self.old s epoch }
        ensures addresses { (bits page : ℕ) (s : Option ℕ) → of_key self.new bits page s ≡ of_key self.old bits page s }
    {
        self.spaces.reserve(1)?;
        self.ends.reserve(1)?;
        self.addresses.reserve(5)
    }

    /// Adds a fence of an ASID, later than those that there are.
    pub fn add_space(&mut self, asid: u16, number: usize)
        requires room { HasRoom self.old }
        requires numbered { 0 < number }
        ensures spaces { (s : ℕ) → of_space self.new s ≡ (if asid == s then number else of_space self.old s) }
        ensures ends { (s epoch : ℕ) → of_end self.new s epoch
            ≡ (if asid == s && of_space self.old asid == epoch then Some (number - 1) else of_end self.old s epoch) }
        ensures addresses { self.new.addresses ≡ self.old.addresses }
    {
        let last = self.of_space(asid);
        // there is room for both
        let _ = self.ends.insert((asid, last), number - 1);
        let _ = self.spaces.insert(asid, number);
    }

    /// Adds a fence of an address for the PTEs that leave some low bits alone.
    fn put(&mut self, bits: u32, va: Va, asid: Option<u16>, number: usize)
        requires few { bits < 64 }
        requires room { 1 ≤ spare self.old.addresses }
        ensures addresses { (b page : ℕ) (s : Option ℕ) → of_key self.new b page s
            ≡ (if (nat_eq bits b && va.0 / 2 ^ bits == page) && option_eq nat_eq asid s then number else of_key self.old b page s) }
        ensures room { spare self.old.addresses ≤ spare self.new.addresses + 1 }
        ensures spaces { self.new.spaces ≡ self.old.spaces }
        ensures ends { self.new.ends ≡ self.old.ends }
    {
        // there is room for it
        let _ = self.addresses.insert((bits, va.0 >> bits, asid), number);
    }

    /// Adds a fence of an address, later than those that there are, of an ASID or of all.
    pub fn add_address(&mut self, va: Va, asid: Option<u16>, number: usize)
        requires { HasRoom self.old }
        ensures addresses { (b page : ℕ) (s : Option ℕ) → IsReach b → of_key self.new b page s
            ≡ (if va.0 / 2 ^ b == page && option_eq nat_eq asid s then number else of_key self.old b page s) }
        ensures spaces { self.new.spaces ≡ self.old.spaces }
        ensures ends { self.new.ends ≡ self.old.ends }
    {
        // pages of level 0, and those of levels 1 to 4
        self.put(12, va, asid, number);
        self.put(21, va, asid, number);
        self.put(30, va, asid, number);
        self.put(39, va, asid, number);
        self.put(48, va, asid, number);
    }

    /// Returns the number of the last fence of an ASID, 0 if there is none.
    pub fn of_space(&self, asid: u16) -> usize
        ensures { result ≡ of_space self.now asid }
    {
        self.spaces.get(&asid).copied().unwrap_or(0)
    }

    /// Returns the moment right before the fence of an ASID that followed the one with a number, or the first one for 0; `None` if none did.
    pub fn end_of(&self, asid: u16, number: usize) -> Option<usize>
        ensures { result ≡ of_end self.now asid number }
    {
        self.ends.get(&(asid, number)).copied()
    }

    /// Returns the number of the last fence of an address with just this rs2, 0 if there is none.
    fn with(&self, bits: u32, va: Va, asid: Option<u16>) -> usize
        requires { bits < 64 }
        ensures { result ≡ of_key self.now bits (va.0 / 2 ^ bits) asid }
    {
        self.addresses
            .get(&(bits, va.0 >> bits, asid))
            .copied()
            .unwrap_or(0)
    }

    /// Returns the number of the last fence of an address for an ASID: with it in rs2, or x0. `None`: with x0 alone. 0: there is none.
    pub fn of_address(&self, bits: u32, va: Va, asid: Option<u16>) -> usize
        requires { bits < 64 }
        ensures { result ≡ with_none (of_key self.now bits (va.0 / 2 ^ bits)) asid }
    {
        let all = self.with(bits, va, None);
        match asid {
            None => all,
            Some(_) => all.max(self.with(bits, va, asid)),
        }
    }

    /// Removes all fences.
    pub fn clear(&mut self)
        ensures spaces { (s : ℕ) → of_space self.new s ≡ 0 }
        ensures ends { (s epoch : ℕ) → of_end self.new s epoch ≡ None }
        ensures addresses { (bits page : ℕ) (s : Option ℕ) → of_key self.new bits page s ≡ 0 }
    {
        self.spaces.clear();
        self.ends.clear();
        self.addresses.clear();
    }
}
