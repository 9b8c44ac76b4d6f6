// What a crash keeps of what isn't durable.
use crate::forms::named;
use scripts::parse_number;
use std::alloc::{AllocError, Global};

/// A way to go on after the tried lines: by crashes that keep some of what isn't durable, or
/// without a crash.
#[derive(Clone, Copy, PartialEq, Eq)]
pub enum Keep {
    /// No crash comes.
    AtOnce,
    /// The crash keeps nothing.
    Nothing,
    /// The crash keeps all.
    All,
    /// For each number from 0 to this one, a crash that keeps so many of the first bytes.
    First(usize),
    /// For each of so many first bytes, a crash that keeps this byte alone.
    One(usize),
    /// For each choice from so many first bytes, a crash that keeps the chosen ones.
    Every(usize),
}

// More flags than a case has unsynced bytes.
const MOST: usize = 65_536;

const KEEPS: [(&[u8], Keep); 3] = [
    (b"at-once", Keep::AtOnce),
    (b"none", Keep::Nothing),
    (b"all", Keep::All),
];

fn width(word: &[u8]) -> usize {
    parse_number(word).unwrap_or(0) as usize
}

impl Keep {
    /// The way that a word names.
    pub fn read(word: &[u8]) -> Option<Keep> {
        if let Some(count) = word.strip_prefix(b"first:") {
            return Some(Keep::First(width(count)));
        }
        if let Some(count) = word.strip_prefix(b"one:") {
            return Some(Keep::One(width(count)));
        }
        if let Some(count) = word.strip_prefix(b"every:") {
            return Some(Keep::Every(width(count).min(20)));
        }
        named(&KEEPS, word)
    }

    /// How many runs it stands for: one for each of its crashes, or one without a crash.
    pub fn count(self) -> usize {
        match self {
            Keep::AtOnce | Keep::Nothing | Keep::All => 1,
            Keep::First(count) => count.saturating_add(1),
            Keep::One(count) => count,
            Keep::Every(count) => 2usize.saturating_pow(count.min(20) as u32),
        }
    }

    /// The flags of the crash of this number.
    pub fn flags(self, alloc: Global, number: usize) -> Result<Vec<bool>, AllocError> {
        let mut flags = Vec::new(alloc);
        match self {
            Keep::AtOnce | Keep::Nothing => {}
            Keep::All => flags.resize(MOST, true)?,
            Keep::First(_) => flags.resize(number, true)?,
            Keep::One(_) => {
                flags.resize(number, false)?;
                flags.push(true)?;
            }
            Keep::Every(count) => {
                for byte in 0..count.min(20) {
                    let kept = number / 2usize.saturating_pow(byte.min(20) as u32) % 2 == 1;
                    flags.push(kept)?;
                }
            }
        }
        Ok(flags)
    }
}
