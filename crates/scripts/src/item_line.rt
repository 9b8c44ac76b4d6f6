// The lines of a script of items: what each asks for.
ghost use Rattle.std.specs.Prelude.{◌≡◌, [], ◌∷◌, codes};
ghost use Rattle.scripts.specs.Script.{IsItemLine, IsReadAs, item_line_words, words_of};

use crate::word::{ReadError, parse_call_number, parse_flags, parse_hex, parse_number, parts};
use items::ItemStep;
use std::alloc::Global;
use std::num::NonZeroU64;

/// A line after the first in a script of items.
#[derive(Drop)]
pub enum ItemLine {
    /// A step of the items.
    Step(ItemStep),
    /// Makes the device call of this number fail, and no other one: the next call is number 1.
    Fail(NonZeroU64),
    /// Crashes the blob. Of what isn't durable, each byte of a write and each resize whose flag is
    /// true is kept, in order; a missing flag is false.
    Crash(Vec<bool>),
    /// Recovers the items after a crash.
    Recover,
    /// Writes the blob's readable bytes, which are physical, in hexadecimal.
    Dump,
}

/// Reads a line after the first, in a script of items. [`ReadError::Unreadable`] if no line is
/// written so, [`ReadError::OutOfMemory`] if there is no memory to read it.
pub fn parse_item_line(alloc: Global, line: &[u8]) -> Result<ItemLine, ReadError>
    ensures reads { IsReadAs item_line_words IsItemLine (words_of line.now) result }
{
    let words = parts(alloc, line, b' ')?;
    match words.as_slice() {
        [name] => parse_name(name),
        [name, word] => parse_name_and_word(alloc, name, word),
        _ => Err(ReadError::Unreadable),
    }
}

// A line of one word.
fn parse_name(name: &[u8]) -> Result<ItemLine, ReadError>
    ensures reads { IsReadAs item_line_words IsItemLine (name.now ∷ []) result }
{
    match name {
        b"len" => Ok(ItemLine::Step(ItemStep::Len)),
        b"sync" => Ok(ItemLine::Step(ItemStep::Sync)),
        b"recover" => Ok(ItemLine::Recover),
        b"dump" => Ok(ItemLine::Dump),
        _ => Err(ReadError::Unreadable),
    }
}

// A line of two words.
fn parse_name_and_word(alloc: Global, name: &[u8], word: &[u8]) -> Result<ItemLine, ReadError>
    ensures reads { IsReadAs item_line_words IsItemLine (name.now ∷ word.now ∷ []) result }
{
    match name {
        b"push" => parse_push(alloc, word),
        b"get" => parse_get(word),
        b"fail" => parse_item_fail(word),
        b"crash" => parse_item_crash(alloc, word),
        _ => Err(ReadError::Unreadable),
    }
}

fn parse_push(alloc: Global, word: &[u8]) -> Result<ItemLine, ReadError>
    ensures reads { IsReadAs item_line_words IsItemLine (codes "push" ∷ word.now ∷ []) result }
{
    let item = parse_hex(alloc, word)?;
    Ok(ItemLine::Step(ItemStep::Push(item)))
}

fn parse_get(word: &[u8]) -> Result<ItemLine, ReadError>
    ensures reads { IsReadAs item_line_words IsItemLine (codes "get" ∷ word.now ∷ []) result }
{
    let i = parse_number(word)?;
    Ok(ItemLine::Step(ItemStep::Get(i)))
}

fn parse_item_fail(word: &[u8]) -> Result<ItemLine, ReadError>
    ensures reads { IsReadAs item_line_words IsItemLine (codes "fail" ∷ word.now ∷ []) result }
{
    let number = parse_call_number(word)?;
    Ok(ItemLine::Fail(number))
}

fn parse_item_crash(alloc: Global, word: &[u8]) -> Result<ItemLine, ReadError>
    ensures reads { IsReadAs item_line_words IsItemLine (codes "crash" ∷ word.now ∷ []) result }
{
    let keep = parse_flags(alloc, word)?;
    Ok(ItemLine::Crash(keep))
}
