// The footer.
ghost use Rattle.std.specs.Prelude.{◌≡◌, ◌-◌, length};
ghost use Rattle.page.specs.Page.{active, bad_slot, slot_bytes};
ghost use Rattle.page.specs.Footer.{footer_bytes, footer_of, said, longer_slot, active_of};
ghost use Rattle.page.specs.Footer.{is_bad, is_checksum_of};
ghost use Rattle.std.specs.Int.{w16, to_be_bytes};

use crate::{ActiveChecksum, Slot, Sum};

const FOOTER: usize = 12;

/// A page's footer: two slots, each with a length in bytes and the checksum of the page's first
/// bytes of that length. Its twelve bytes are the first slot's length and checksum and then the
/// second's, each big-endian.
#[derive(Clone, Copy, Debug, PartialEq, Eq)]
pub struct Checksum {
    pub len1: u16,
    pub crc1: u32,
    pub len2: u16,
    pub crc2: u32,
}

impl Checksum {
    /// A footer with this length and checksum in its first slot, and zeros in the second.
    pub fn new(len: u16, crc: u32) -> Self
        ensures { result ≡ record { len1 = len; crc1 = crc; len2 = 0; crc2 = 0 } }
    {
        Checksum {
            len1: len,
            crc1: crc,
            len2: 0,
            crc2: 0,
        }
    }

    /// What one slot holds: a length in bytes and a checksum.
    pub fn get_slot(&self, slot: Slot) -> (u16, u32)
        ensures { result ≡ said self.now slot }
    {
        match slot {
            Slot::First => (self.len1, self.crc1),
            Slot::Second => (self.len2, self.crc2),
        }
    }

    /// The slot of the greater length, the first on equal lengths.
    pub fn authoritative(&self) -> ActiveChecksum
        ensures { result ≡ active_of self.now (longer_slot self.now) }
    {
        let slot = if self.len1 < self.len2 {
            Slot::Second
        } else {
            Slot::First
        };
        self.active(slot)
    }

    fn active(&self, slot: Slot) -> ActiveChecksum
        ensures { result ≡ active_of self.now slot }
    {
        let (len, crc) = self.get_slot(slot);
        ActiveChecksum::new(slot, len, crc)
    }

    /// The twelve bytes, which [`from_bytes`](Checksum::from_bytes) reads back.
    pub fn to_bytes(&self) -> [u8; FOOTER]
        ensures value { result ≡ footer_bytes self.now }
        ensures inverse { footer_of result ≡ self.now }
    {
        let Checksum {
            len1,
            crc1,
            len2,
            crc2,
        } = *self;
        let [a, b, c, d, e, f] = Self::slot_bytes(len1, crc1);
        let [g, h, i, j, k, l] = Self::slot_bytes(len2, crc2);
        [a, b, c, d, e, f, g, h, i, j, k, l]
    }

    /// The footer of these twelve bytes, whatever they are.
    /// [`to_bytes`](Checksum::to_bytes) gives them back.
    pub fn from_bytes(bytes: [u8; FOOTER]) -> Self
        ensures value { result ≡ footer_of bytes }
        ensures inverse { footer_bytes result ≡ bytes }
    {
        let [a, b, c, d, e, f, g, h, i, j, k, l] = bytes;
        Checksum {
            len1: u16::from_be_bytes([a, b]),
            crc1: u32::from_be_bytes([c, d, e, f]),
            len2: u16::from_be_bytes([g, h]),
            crc2: u32::from_be_bytes([i, j, k, l]),
        }
    }

    /// The six bytes of a slot: its length and its checksum, each big-endian.
    pub fn slot_bytes(len: u16, crc: u32) -> [u8; 6]
        ensures { result ≡ slot_bytes len crc }
    {
        let [a, b] = Self::slot_len_bytes(len);
        let [c, d, e, f] = crc.to_be_bytes();
        [a, b, c, d, e, f]
    }

    /// The two bytes of a slot's length, big-endian.
    pub fn slot_len_bytes(len: u16) -> [u8; 2]
        ensures { result ≡ to_be_bytes w16 len }
    {
        len.to_be_bytes()
    }

    /// The slot that gives the value of a physical page, with the value's length in bytes and its
    /// checksum. It is the slot of the greatest length among those that verify, and the first if
    /// both have that length. A slot verifies if its length is from 1 to the payload's and its
    /// checksum is that of the payload's first bytes of that length. `None` where no slot
    /// verifies, and for fewer than 12 bytes.
    // Inlined, since a scan calls it for each page, and pages may be small.
    #[inline(always)]
    pub fn validate_page<H: Sum>(page: &[u8]) -> Option<ActiveChecksum>
        ensures { result ≡ active H.sum_of (length page.now - 12) page.now }
    {
        let (payload, footer) = page.split_last_chunk::<FOOTER>()?;
        let footer = Self::from_bytes(*footer);
        let longer = footer.authoritative();
        if covers::<H>(longer, payload) {
            return Some(longer);
        }
        let shorter = footer.active(longer.slot.other());
        covers::<H>(shorter, payload).then_some(shorter)
    }

    /// The slot beside the one that gives a physical page's value, where that other slot neither
    /// verifies nor is all zero. `None` else, and also where no slot verifies, and for fewer than
    /// 12 bytes.
    pub fn bad_slot<H: Sum>(page: &[u8]) -> Option<Slot>
        ensures { result ≡ bad_slot H.sum_of (length page.now - 12) page.now }
    {
        let value = Self::validate_page::<H>(page)?;
        let (payload, footer) = page.split_last_chunk::<FOOTER>()?;
        let beside = Self::from_bytes(*footer).active(value.slot.other());
        is_bad::<H>(beside, payload).then_some(beside.slot)
    }
}

/// Whether the checksum is that of the payload's first bytes, as many as the slot's length, and the
/// length is at least 1.
fn covers<H: Sum>(checksum: ActiveChecksum, payload: &[u8]) -> bool
    ensures { result ≡ is_checksum_of H.sum_of checksum payload.now }
{
    let len = usize::from(checksum.len);
    1 <= len && len <= payload.len() && H::sum(&payload[..len]) == checksum.crc
}

/// Whether a slot with this length and checksum neither verifies over the payload nor is all zero.
fn is_bad<H: Sum>(checksum: ActiveChecksum, payload: &[u8]) -> bool
    ensures { result ≡ is_bad H.sum_of checksum payload.now }
{
    !(checksum.len == 0 && checksum.crc == 0) && !covers::<H>(checksum, payload)
}
