// Numbers, lengths and bytes that a seed gives.
ghost use Rattle.std.specs.Prelude.{◌≤◌, length};

use anyhow::Result;
use std::alloc::Global;

/// Numbers at random, the same for the same seed: the generator SplitMix64.
#[derive(Clone, Copy)]
pub struct Random {
    state: u64,
}

impl Random {
    /// The numbers of a seed; another stream gives others.
    pub fn new(seed: u64, stream: u64) -> Self {
        let mut random = Random {
            state: seed ^ stream.wrapping_mul(0xD1B5_4A32_D192_ED03),
        };
        random.next();
        random
    }

    /// The next number.
    pub fn next(&mut self) -> u64 {
        self.state = self.state.wrapping_add(0x9E37_79B9_7F4A_7C15);
        let mixed = (self.state ^ (self.state >> 30)).wrapping_mul(0xBF58_476D_1CE4_E5B9);
        let mixed = (mixed ^ (mixed >> 27)).wrapping_mul(0x94D0_49BB_1331_11EB);
        mixed ^ (mixed >> 31)
    }

    /// A number below a bound, or 0 if the bound is 0.
    pub fn below(&mut self, bound: u64) -> u64 {
        self.next() % bound.max(1)
    }

    /// A length in bytes as records of a log have them: log-normal, half below some 180, and at
    /// most 65,535.
    pub fn record_len(&mut self) -> usize
        ensures { result ≤ 65535 }
    {
        // The sum of eight parts, each of 16 bits, is near to normal. The logarithm of the length
        // is so many 65,536ths, 2.2 times as wide as the sum.
        let total = parts(self.next()) + parts(self.next());
        let log = (total * 11 / 5).saturating_sub(85_197);
        let whole = (log >> 16) as u32;
        let power = 1u64.wrapping_shl(whole);
        let len = power.saturating_add(power.saturating_mul(log & 0xFFFF) >> 16);
        len.min(65_535) as usize
    }

    /// A length in bytes from 4 KiB to 1 MiB, each size as likely as its double.
    pub fn value_len(&mut self) -> usize {
        let power = 4096u64.wrapping_shl(self.below(8).min(7) as u32);
        power.saturating_add(self.below(power)) as usize
    }

    /// One of so many things, a few of them hot and most cold: the one of rank n comes about one
    /// n-th as often as the first, and ranks are spread over all.
    pub fn hot(&mut self, count: u64) -> u64 {
        let count = count.max(1);
        let bits = u64::from(64 - count.leading_zeros());
        let power = 1u64.wrapping_shl(self.below(bits).min(63) as u32);
        let rank = power.saturating_add(self.below(power));
        rank.wrapping_mul(0x9E37_79B9_7F4A_7C15) % count
    }
}

// The sum of the four parts of 16 bits.
fn parts(number: u64) -> u64
    ensures { result ≤ 262140 }
{
    (number & 0xFFFF) + (number >> 16 & 0xFFFF) + (number >> 32 & 0xFFFF) + (number >> 48)
}

/// The bytes of the pool from which records are taken.
const POOL: u64 = 2 << 20;

/// Records and values: pieces of a pool of bytes at random.
#[derive(Drop)]
pub struct Records {
    pool: Vec<u8>,
    pub random: Random,
}

impl Records {
    /// The records of a seed; another stream gives others.
    pub fn new(alloc: Global, seed: u64, stream: u64) -> Result<Self> {
        let mut random = Random::new(seed, stream);
        let mut pool = Vec::with_capacity(alloc, POOL as usize)?;
        for _ in 0..POOL / 8 {
            pool.extend_from_slice(&random.next().to_le_bytes())?;
        }
        Ok(Records { pool, random })
    }

    /// The whole pool.
    pub fn pool(&self) -> &[u8] {
        &self.pool
    }

    /// The next record.
    pub fn next(&mut self) -> &[u8]
        ensures { length result.now ≤ 65535 }
    {
        let len = self.random.record_len();
        let start = self.random.below(POOL) as usize;
        piece(&self.pool, start, len)
    }

    /// The next value, of so many bytes.
    pub fn value(&mut self, len: usize) -> &[u8] {
        let spare = POOL.saturating_sub(len as u64);
        let start = self.random.below(spare) as usize;
        piece(&self.pool, start, len)
    }
}

// Some of the bytes from `start` on, at most so many.
fn piece(bytes: &[u8], start: usize, len: usize) -> &[u8]
    ensures { length result.now ≤ len }
{
    let (_, rest) = bytes.split_at(start.min(bytes.len()));
    let (piece, _) = rest.split_at(len.min(rest.len()));
    piece
}
