// What was answered, in one number.
use std::simd::u8x32;

/// A digest of numbers and bytes in their order.
#[derive(Clone, Copy)]
pub struct Digest {
    state: u64,
}

impl Digest {
    /// The digest of nothing.
    pub fn new() -> Self {
        Digest {
            state: 0x6A09_E667_F3BC_C908,
        }
    }

    /// The digest as a number.
    pub fn value(&self) -> u64 {
        self.state
    }

    /// Adds a number.
    pub fn number(&mut self, number: u64) {
        let mixed = (self.state ^ number).wrapping_mul(0x9E37_79B9_7F4A_7C15);
        self.state = mixed ^ (mixed >> 29);
    }

    /// Adds the length of some bytes, the sums of their lanes, and the sums of these sums, which
    /// depend on the order. That takes little time beside what is measured.
    pub fn bytes(&mut self, bytes: &[u8]) {
        self.number(bytes.len() as u64);
        let mut sums = u8x32::splat(0);
        let mut order = u8x32::splat(0);
        for chunk in bytes.chunks(32) {
            if chunk.len() == 32 {
                sums = sums + u8x32::from_slice(chunk);
                order = order + sums;
            } else {
                self.words(chunk);
            }
        }
        self.words(&sums.to_array());
        self.words(&order.to_array());
    }

    // Adds bytes by words of eight.
    fn words(&mut self, bytes: &[u8]) {
        for word in bytes.chunks(8) {
            match word.first_chunk::<8>() {
                Some(eight) => self.number(u64::from_le_bytes(*eight)),
                None => self.few(word),
            }
        }
    }

    // Adds fewer than eight bytes.
    fn few(&mut self, bytes: &[u8]) {
        for byte in bytes {
            self.number(u64::from(*byte));
        }
    }
}
