// The two slots of a footer.
ghost use Rattle.std.specs.Prelude.{◌≡◌};
ghost use Rattle.page.specs.Slot.{slot_offset, other};

/// One of the two places of a footer that hold a length and a checksum.
#[derive(Clone, Copy, Debug, PartialEq, Eq)]
pub enum Slot {
    First,
    Second,
}

impl Slot {
    /// Where the slot begins in the footer, in bytes.
    pub fn offset(self) -> usize
        ensures { result ≡ slot_offset self }
    {
        match self {
            Slot::First => 0,
            Slot::Second => 6,
        }
    }

    /// The other slot.
    pub fn other(self) -> Self
        ensures { result ≡ other self }
    {
        match self {
            Slot::First => Slot::Second,
            Slot::Second => Slot::First,
        }
    }
}

/// The slot that gives a page's value, with the value's length in bytes and its checksum.
#[derive(Clone, Copy, Debug, PartialEq, Eq)]
pub struct ActiveChecksum {
    pub slot: Slot,
    pub len: u16,
    pub crc: u32,
}

impl ActiveChecksum {
    /// This slot, with this length and checksum.
    pub fn new(slot: Slot, len: u16, crc: u32) -> Self
        ensures { result ≡ record { slot = slot; len = len; crc = crc } }
    {
        ActiveChecksum { slot, len, crc }
    }
}
