// Struct `FrameNo`, the number of a frame (4,096 bytes of physical memory); its physical page number (PPN) and address, and
// the frame of a PPN. `KERNBASE`, the address of frame 0.

ghost use Rattle.std.specs.Prelude.{◌≡◌, ◌+◌, ◌*◌};
ghost use Rattle.sv39_entry.specs.Frame.{ppn_of, frame_at};

/// The physical address at which memory begins, that of frame 0 (the xv6 book, "Kernel address space").
pub const KERNBASE: u64 = 0x8000_0000;

/// The PPN of frame 0.
const FIRST_PPN: u64 = KERNBASE >> 12;

/// A frame of physical memory, by number: frame i has the physical page number 0x80000 + i.
#[derive(Clone, Copy, PartialEq, Eq, PartialOrd, Ord, Debug, Default)]
pub struct FrameNo(pub u16);

impl FrameNo {
    /// Returns the physical page number of the frame: 0x80000 plus the frame's number.
    pub fn ppn(self) -> u64
        ensures { result ≡ ppn_of self.0 }
    {
        FIRST_PPN + u64::from(self.0)
    }

    /// Returns the physical address of the frame's first byte.
    pub fn address(self) -> u64
        ensures { result ≡ 4096 * ppn_of self.0 }
    {
        self.ppn() << 12
    }

    /// Returns the frame with a physical page number, `None` exactly when that is below 0x80000 or above 0x8ffff.
    pub fn from_ppn(ppn: u64) -> Option<FrameNo>
        ensures { result ≡ frame_at ppn }
    {
        let number = ppn.checked_sub(FIRST_PPN)?;
        match u16::try_from(number) {
            Ok(number) => Some(FrameNo(number)),
            Err(_) => None,
        }
    }
}
