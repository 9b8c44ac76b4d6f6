// The words of a line.
ghost use Rattle.std.specs.Prelude.{◌≡◌, ◌≢◌, ◌<◌, ◌^◌, ◌↔◌, ℕ, codes, IsTrue, IfSome, IfNone};
ghost use Rattle.std.specs.Prelude.{IfOk, MatchOption, ⊤, map, vec_len};
ghost use Rattle.std.specs.Fmt.{decimal};
ghost use Rattle.std.specs.Int.NonZero.{non_zero_u64_get};
ghost use Rattle.std.specs.List.{list_any};
ghost use Rattle.std.specs.Char.{is_ascii_uppercase};
ghost use Rattle.scripts.specs.Text.{hex_of};
ghost use Rattle.scripts.specs.Script.{IsReadAs, IsU64, HasLead, AreByteValues, flag_digit};
ghost use Rattle.scripts.specs.Script.{flags_text, IsRangeOfU64, AreRangesOfU64, range_word};
ghost use Rattle.scripts.specs.Script.{ranges_words, IsCallNumber, parts_of};

use hex::FromHexError;
use std::alloc::{AllocError, AllocFailed, Global};
use std::num::NonZeroU64;

/// Why a word or a line can't be read.
#[derive(Clone, Copy, Debug, PartialEq, Eq)]
pub enum ReadError {
    /// No value is written as this word, or no line as these words.
    Unreadable,
    /// A request for memory was refused.
    OutOfMemory,
}

impl From<AllocError> for ReadError {
    ghost use Rattle.std.specs.Prelude.{◌≡◌};
    ghost use Rattle.scripts.specs.declared.word.ReadError.TheVariants.{OutOfMemory};

    ghost from_gives = { λ _ e. e ≡ OutOfMemory };

    fn from(_: AllocError) -> Self {
        ReadError::OutOfMemory
    }
}

impl<T: Drop> From<AllocFailed<T>> for ReadError {
    ghost use Rattle.std.specs.Prelude.{◌≡◌};
    ghost use Rattle.scripts.specs.declared.word.ReadError.TheVariants.{OutOfMemory};

    ghost from_gives = { λ _ e. e ≡ OutOfMemory };

    fn from(_: AllocFailed<T>) -> Self {
        ReadError::OutOfMemory
    }
}

impl From<FromHexError> for ReadError {
    ghost use Rattle.std.specs.Prelude.{◌≡◌};
    ghost use Rattle.scripts.specs.Script.{hex_refused};

    ghost from_gives = { λ from e. e ≡ hex_refused from };

    fn from(error: FromHexError) -> Self {
        match error {
            FromHexError::OutOfMemory => ReadError::OutOfMemory,
            _ => ReadError::Unreadable,
        }
    }
}

// The parts of some bytes, split at each byte that equals `at`. There is at least one part.
pub fn parts<'a>(alloc: Global, bytes: &'a [u8], at: u8) -> Result<Vec<&'a [u8]>, AllocError>
    ensures parts { IfOk result (λ parts.
        map (λ part. part.now) parts.items ≡ parts_of at bytes.now) }
    ensures some { IfOk result (λ parts. 0 < vec_len parts) }
{
    bytes.split(|byte| *byte == at).collect(alloc)
}

/// Reads a number below 2^64: decimal digits, with no sign and no zero in front of another digit.
/// [`ReadError::Unreadable`] for any other word.
pub fn parse_number(word: &[u8]) -> Result<u64, ReadError>
    ensures reads { IsReadAs decimal IsU64 word.now result }
{
    number(word).ok_or(ReadError::Unreadable)
}

fn number(word: &[u8]) -> Option<u64>
    ensures value { IfSome result (λ n. word.now ≡ decimal n) }
    ensures none { IfNone result ((n : ℕ) → n < 2 ^ 64 → word.now ≢ decimal n) }
{
    if has_lead(word) {
        return None;
    }
    match str::from_utf8(word) {
        Ok(digits) => digits.parse().ok(),
        Err(_) => None,
    }
}

// Reads the number of a device call, from 1 on.
pub fn parse_call_number(word: &[u8]) -> Result<NonZeroU64, ReadError>
    ensures reads { IsReadAs (λ number. decimal (non_zero_u64_get number))
        (λ number. IsCallNumber (non_zero_u64_get number)) word.now result }
{
    match NonZeroU64::new(parse_number(word)?) {
        Some(number) => Ok(number),
        None => Err(ReadError::Unreadable),
    }
}

// Whether the word begins with `+`, or with a `0` that another byte follows.
fn has_lead(word: &[u8]) -> bool
    ensures { IsTrue result ↔ HasLead word.now }
{
    match word.first() {
        Some(b'+') => true,
        Some(b'0') => word.len() > 1,
        _ => false,
    }
}

/// Reads bytes: lower-case hexadecimal digits, two a byte, or `-` for no bytes.
/// [`ReadError::Unreadable`] for any other word, [`ReadError::OutOfMemory`] if there is no memory
/// for the bytes.
pub fn parse_hex(alloc: Global, word: &[u8]) -> Result<Vec<u8>, ReadError>
    ensures reads { IsReadAs (λ bytes. hex_of bytes.items) (λ bytes. AreByteValues bytes.items)
        word.now
        result }
{
    if is_none(word) {
        return Ok(Vec::new(alloc));
    }
    if word.is_empty() || has_upper(word) {
        return Err(ReadError::Unreadable);
    }
    Ok(hex::decode(alloc, word)?)
}

// Whether the word stands for no bytes, or no flags.
fn is_none(word: &[u8]) -> bool
    ensures { IsTrue result ↔ (word.now ≡ codes "-") }
{
    word == b"-".as_slice()
}

fn has_upper(word: &[u8]) -> bool
    ensures { result ≡ list_any is_ascii_uppercase word.now }
{
    word.iter().any(u8::is_ascii_uppercase)
}

// Reads a range of bytes: an offset and a length, with a colon between them.
pub fn parse_range(word: &[u8]) -> Result<(u64, usize), ReadError>
    ensures reads { IsReadAs range_word IsRangeOfU64 word.now result }
{
    let Some(colon) = word.iter().position(|byte| *byte == b':') else {
        return Err(ReadError::Unreadable);
    };
    let offset = parse_number(&word[..colon])?;
    let len = parse_number(&word[colon + 1..])? as usize;
    Ok((offset, len))
}

/// Reads ranges of bytes, one a word. There must be at least one.
pub fn parse_ranges(alloc: Global, words: &[&[u8]]) -> Result<Vec<(u64, usize)>, ReadError>
    ensures reads { IsReadAs (λ ranges. ranges_words ranges.items)
        (λ ranges. AreRangesOfU64 ranges.items) (map (λ word. word.now) words.now) result }
{
    if words.is_empty() {
        return Err(ReadError::Unreadable);
    }
    let mut ranges = Vec::with_capacity(alloc, words.len())?;
    for word in words {
        ranges.push(parse_range(word)?)?;
    }
    Ok(ranges)
}

/// Reads flags: digits 0 and 1, or `-` for no flags.
pub fn parse_flags(alloc: Global, word: &[u8]) -> Result<Vec<bool>, ReadError>
    ensures reads { IsReadAs (λ flags. flags_text flags.items) (λ _. ⊤) word.now result }
{
    if is_none(word) {
        return Ok(Vec::new(alloc));
    }
    if word.is_empty() {
        return Err(ReadError::Unreadable);
    }
    let mut flags = Vec::with_capacity(alloc, word.len())?;
    for digit in word {
        let Some(flag) = flag(*digit) else {
            return Err(ReadError::Unreadable);
        };
        flags.push(flag)?;
    }
    Ok(flags)
}

fn flag(digit: u8) -> Option<bool>
    ensures { MatchOption result ((digit ≢ 48) × (digit ≢ 49)) (λ flag. flag_digit flag ≡ digit) }
{
    match digit {
        b'0' => Some(false),
        b'1' => Some(true),
        _ => None,
    }
}
