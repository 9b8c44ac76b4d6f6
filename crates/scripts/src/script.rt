// Scripts: what each line asks for.
ghost use Rattle.std.specs.Prelude.{◌≡◌, ◌≢◌, [], ◌∷◌, ℕ, List, codes, map};
ghost use Rattle.std.specs.Fmt.{decimal};
ghost use Rattle.std.specs.Int.NonZero.{non_zero_usize_get};
ghost use Rattle.scripts.specs.Script.{IsBufferSize, IsItemLine, IsLine, IsReadAs, ReadsLines};
ghost use Rattle.scripts.specs.Script.{ReadsScript, item_line_words, line_words, lines_of};
ghost use Rattle.scripts.specs.Script.{without_last_feed, words_of};

use crate::item_line::{ItemLine, parse_item_line};
use crate::start::{First, ItemStart, Start, SumName, parse_first};
use crate::stop::Stop;
use crate::word::{
    ReadError, parse_call_number, parse_flags, parse_hex, parse_number, parse_ranges, parts,
};
use session::Step;
use std::alloc::Global;
use std::num::{NonZeroU64, NonZeroUsize};

/// A whole script, of one of two forms: what it runs over, and the lines after the first.
#[derive(Drop)]
pub enum Script {
    /// Steps of a session.
    Session(Start, Vec<Line>),
    /// Steps of items.
    Items(ItemStart, Vec<ItemLine>),
}

impl Script {
    /// The name of the script's checksum function.
    pub fn sum(&self) -> SumName {
        match self {
            Script::Session(start, _) => start.sum,
            Script::Items(start, _) => start.settings.sum,
        }
    }
}

/// A line after the first in a script of a session.
#[derive(Drop)]
pub enum Line {
    /// A step of the session.
    Step(Step),
    /// Makes the device call of this number fail, and no other one: the next call is number 1.
    Fail(NonZeroU64),
    /// Crashes the blob. Of what isn't durable, each byte of a write and each resize whose flag is
    /// true is kept, in order; a missing flag is false.
    Crash(Vec<bool>),
    /// Recovers the blob after a crash.
    Recover,
    /// Writes the blob's readable bytes, which are physical, in hexadecimal.
    Dump,
}

/// A line after the first, in one of the two forms of a script.
trait AnyLine: Drop + Sized {
    /// The words of a line.
    ghost words: { Self → List (List ℕ) };

    /// The line has words, and its numbers and bytes are in range.
    ghost is_line: { Self → Type 0 };

    /// Reads a line.
    fn parse(alloc: Global, line: &[u8]) -> Result<Self, ReadError>
        ensures reads { IsReadAs words is_line (words_of line.now) result };
}

impl AnyLine for Line {
    ghost words = { line_words };

    ghost is_line = { IsLine };

    fn parse(alloc: Global, line: &[u8]) -> Result<Self, ReadError> {
        parse_line(alloc, line)
    }
}

impl AnyLine for ItemLine {
    ghost words = { item_line_words };

    ghost is_line = { IsItemLine };

    fn parse(alloc: Global, line: &[u8]) -> Result<Self, ReadError> {
        parse_item_line(alloc, line)
    }
}

/// Reads a whole script. Its lines end in a line feed, which the last may lack.
pub fn parse(alloc: Global, input: &[u8]) -> Result<Script, Stop>
    ensures script { ReadsScript (lines_of input.now) result }
{
    let text = without_last_feed(input);
    let lines = parts(alloc, text, b'\n')?;
    match lines.as_slice() {
        [first, others @ ..] => parse_script(alloc, first, others),
        [] => unreachable!(),
    }
}

pub fn without_last_feed(input: &[u8]) -> &[u8]
    ensures { result.now ≡ without_last_feed input.now }
{
    input.strip_suffix(b"\n").unwrap_or(input)
}

// Reads the first line, and then the others in the form that the first one names.
fn parse_script(alloc: Global, first: &[u8], others: &[&[u8]]) -> Result<Script, Stop>
    ensures reads { ReadsScript (first.now ∷ map (λ line. line.now) others.now) result }
{
    match parse_first(alloc, first) {
        Ok(First::Session(start)) => {
            let lines = parse_lines(alloc, others)?;
            Ok(Script::Session(start, lines))
        }
        Ok(First::Items(start)) => {
            let lines = parse_lines(alloc, others)?;
            Ok(Script::Items(start, lines))
        }
        Err(error) => Err(Stop::at(1, error)),
    }
}

// Reads the lines after the first, all in one form.
fn parse_lines<L: AnyLine>(alloc: Global, others: &[&[u8]]) -> Result<Vec<L>, Stop>
    ensures reads { ReadsLines L.words L.is_line (map (λ line. line.now) others.now) result }
{
    let mut lines = Vec::with_capacity(alloc, others.len())?;
    for (index, line) in others.iter().enumerate() {
        match L::parse(alloc, line) {
            Ok(line) => lines.push(line)?,
            Err(error) => return Err(Stop::at(index as u64 + 2, error)),
        }
    }
    Ok(lines)
}

/// Reads a line after the first, in a script of a session. [`ReadError::Unreadable`] if no line is
/// written so, [`ReadError::OutOfMemory`] if there is no memory to read it.
pub fn parse_line(alloc: Global, line: &[u8]) -> Result<Line, ReadError>
    ensures reads { IsReadAs line_words IsLine (words_of line.now) result }
{
    let words = parts(alloc, line, b' ')?;
    parse_words(alloc, &words)
}

fn parse_words(alloc: Global, words: &[&[u8]]) -> Result<Line, ReadError>
    ensures reads { IsReadAs line_words IsLine (map (λ word. word.now) words.now) result }
{
    match words {
        [name, others @ ..] => parse_named(alloc, name, others),
        [] => Err(ReadError::Unreadable),
    }
}

// Reads a line from its first word, which names what the line asks for, and the words after it.
fn parse_named(alloc: Global, name: &[u8], others: &[&[u8]]) -> Result<Line, ReadError>
    ensures reads { IsReadAs line_words IsLine
        (name.now ∷ map (λ word. word.now) others.now) result }
{
    match name {
        b"ranges" => parse_read_ranges(alloc, others),
        b"cached-ranges" => parse_try_read_ranges(alloc, others),
        _ => parse_few_words(alloc, name, others),
    }
}

// A line of at most four words.
fn parse_few_words(alloc: Global, name: &[u8], others: &[&[u8]]) -> Result<Line, ReadError>
    requires read { name.now ≢ codes "ranges" }
    requires cached { name.now ≢ codes "cached-ranges" }
    ensures reads { IsReadAs line_words IsLine
        (name.now ∷ map (λ word. word.now) others.now) result }
{
    match others {
        [] => parse_one_word(name),
        [word] => parse_two_words(alloc, name, word),
        [first, second] => parse_three_words(name, first, second),
        [first, second, third] => parse_four_words(name, first, second, third),
        _ => Err(ReadError::Unreadable),
    }
}

// A line of one word.
fn parse_one_word(name: &[u8]) -> Result<Line, ReadError>
    ensures reads { IsReadAs line_words IsLine (name.now ∷ []) result }
{
    match name {
        b"sync" => Ok(Line::Step(Step::Sync)),
        b"start-sync" => Ok(Line::Step(Step::StartSync)),
        b"wait" => Ok(Line::Step(Step::Wait)),
        b"needs" => Ok(Line::Step(Step::Needs)),
        b"size" => Ok(Line::Step(Step::Size)),
        b"begin" => Ok(Line::Step(Step::Begin)),
        b"snapshot" => Ok(Line::Step(Step::Snapshot)),
        b"try-snapshot" => Ok(Line::Step(Step::TrySnapshot)),
        b"seal" => Ok(Line::Step(Step::Seal)),
        b"recover" => Ok(Line::Recover),
        b"dump" => Ok(Line::Dump),
        _ => Err(ReadError::Unreadable),
    }
}

// A line of two words.
fn parse_two_words(alloc: Global, name: &[u8], word: &[u8]) -> Result<Line, ReadError>
    requires read { name.now ≢ codes "ranges" }
    requires cached { name.now ≢ codes "cached-ranges" }
    ensures reads { IsReadAs line_words IsLine (name.now ∷ word.now ∷ []) result }
{
    match name {
        b"append" => parse_append(alloc, word),
        b"owned" => parse_owned(alloc, word),
        b"wait-sync" => parse_wait_sync(word),
        b"truncate" => parse_truncate(word),
        b"replay" => parse_replay(word),
        b"try" => parse_try(alloc, word),
        b"fail" => parse_fail(word),
        b"crash" => parse_crash(alloc, word),
        _ => Err(ReadError::Unreadable),
    }
}

// A line of three words.
fn parse_three_words(name: &[u8], first: &[u8], second: &[u8]) -> Result<Line, ReadError>
    requires read { name.now ≢ codes "ranges" }
    requires cached { name.now ≢ codes "cached-ranges" }
    ensures reads { IsReadAs line_words IsLine (name.now ∷ first.now ∷ second.now ∷ []) result }
{
    match name {
        b"read" => parse_read(first, second),
        b"upto" => parse_read_up_to(first, second),
        b"cached" => parse_try_read(first, second),
        b"ensure" => parse_ensure(first, second),
        b"take" => parse_take(first, second),
        b"seek" => parse_seek(first, second),
        _ => Err(ReadError::Unreadable),
    }
}

// A line of four words.
fn parse_four_words(
    name: &[u8],
    first: &[u8],
    second: &[u8],
    third: &[u8],
) -> Result<Line, ReadError>
    requires read { name.now ≢ codes "ranges" }
    requires cached { name.now ≢ codes "cached-ranges" }
    ensures reads { IsReadAs line_words IsLine
        (name.now ∷ first.now ∷ second.now ∷ third.now ∷ []) result }
{
    match name {
        b"snap" => parse_snap(first, second, third),
        b"scan" => parse_scan(first, second, third),
        _ => Err(ReadError::Unreadable),
    }
}

fn parse_append(alloc: Global, word: &[u8]) -> Result<Line, ReadError>
    ensures reads { IsReadAs line_words IsLine (codes "append" ∷ word.now ∷ []) result }
{
    let bytes = parse_hex(alloc, word)?;
    Ok(Line::Step(Step::Append(bytes)))
}

fn parse_owned(alloc: Global, word: &[u8]) -> Result<Line, ReadError>
    ensures reads { IsReadAs line_words IsLine (codes "owned" ∷ word.now ∷ []) result }
{
    let bytes = parse_hex(alloc, word)?;
    Ok(Line::Step(Step::Owned(bytes)))
}

fn parse_wait_sync(word: &[u8]) -> Result<Line, ReadError>
    ensures reads { IsReadAs line_words IsLine (codes "wait-sync" ∷ word.now ∷ []) result }
{
    let name = parse_number(word)?;
    Ok(Line::Step(Step::WaitSync(name)))
}

fn parse_truncate(word: &[u8]) -> Result<Line, ReadError>
    ensures reads { IsReadAs line_words IsLine (codes "truncate" ∷ word.now ∷ []) result }
{
    let size = parse_number(word)?;
    Ok(Line::Step(Step::Truncate(size)))
}

fn parse_replay(word: &[u8]) -> Result<Line, ReadError>
    ensures reads { IsReadAs line_words IsLine (codes "replay" ∷ word.now ∷ []) result }
{
    let buffer_size = parse_buffer_size(word)?;
    Ok(Line::Step(Step::Replay(buffer_size)))
}

fn parse_buffer_size(word: &[u8]) -> Result<NonZeroUsize, ReadError>
    ensures reads { IsReadAs (λ size. decimal (non_zero_usize_get size))
        (λ size. IsBufferSize (non_zero_usize_get size)) word.now result }
{
    match NonZeroUsize::new(parse_number(word)? as usize) {
        Some(size) => Ok(size),
        None => Err(ReadError::Unreadable),
    }
}

fn parse_try(alloc: Global, word: &[u8]) -> Result<Line, ReadError>
    ensures reads { IsReadAs line_words IsLine (codes "try" ∷ word.now ∷ []) result }
{
    let bytes = parse_hex(alloc, word)?;
    Ok(Line::Step(Step::TryAppend(bytes)))
}

fn parse_fail(word: &[u8]) -> Result<Line, ReadError>
    ensures reads { IsReadAs line_words IsLine (codes "fail" ∷ word.now ∷ []) result }
{
    let number = parse_call_number(word)?;
    Ok(Line::Fail(number))
}

fn parse_crash(alloc: Global, word: &[u8]) -> Result<Line, ReadError>
    ensures reads { IsReadAs line_words IsLine (codes "crash" ∷ word.now ∷ []) result }
{
    let keep = parse_flags(alloc, word)?;
    Ok(Line::Crash(keep))
}

fn parse_read(offset: &[u8], len: &[u8]) -> Result<Line, ReadError>
    ensures reads { IsReadAs line_words IsLine (codes "read" ∷ offset.now ∷ len.now ∷ []) result }
{
    let offset = parse_number(offset)?;
    let len = parse_number(len)? as usize;
    Ok(Line::Step(Step::Read(offset, len)))
}

fn parse_read_up_to(offset: &[u8], len: &[u8]) -> Result<Line, ReadError>
    ensures reads { IsReadAs line_words IsLine (codes "upto" ∷ offset.now ∷ len.now ∷ []) result }
{
    let offset = parse_number(offset)?;
    let len = parse_number(len)? as usize;
    Ok(Line::Step(Step::ReadUpTo(offset, len)))
}

fn parse_try_read(offset: &[u8], len: &[u8]) -> Result<Line, ReadError>
    ensures reads { IsReadAs line_words IsLine (codes "cached" ∷ offset.now ∷ len.now ∷ []) result }
{
    let offset = parse_number(offset)?;
    let len = parse_number(len)? as usize;
    Ok(Line::Step(Step::TryRead(offset, len)))
}

fn parse_ensure(index: &[u8], count: &[u8]) -> Result<Line, ReadError>
    ensures reads { IsReadAs line_words IsLine (codes "ensure" ∷ index.now ∷ count.now ∷ [])
        result }
{
    let index = parse_number(index)? as usize;
    let count = parse_number(count)? as usize;
    Ok(Line::Step(Step::Ensure(index, count)))
}

fn parse_take(index: &[u8], count: &[u8]) -> Result<Line, ReadError>
    ensures reads { IsReadAs line_words IsLine (codes "take" ∷ index.now ∷ count.now ∷ []) result }
{
    let index = parse_number(index)? as usize;
    let count = parse_number(count)? as usize;
    Ok(Line::Step(Step::Take(index, count)))
}

fn parse_seek(index: &[u8], offset: &[u8]) -> Result<Line, ReadError>
    ensures reads { IsReadAs line_words IsLine (codes "seek" ∷ index.now ∷ offset.now ∷ []) result }
{
    let index = parse_number(index)? as usize;
    let offset = parse_number(offset)?;
    Ok(Line::Step(Step::Seek(index, offset)))
}

fn parse_snap(index: &[u8], offset: &[u8], len: &[u8]) -> Result<Line, ReadError>
    ensures reads { IsReadAs line_words IsLine
        (codes "snap" ∷ index.now ∷ offset.now ∷ len.now ∷ []) result }
{
    let index = parse_number(index)? as usize;
    let offset = parse_number(offset)?;
    let len = parse_number(len)? as usize;
    Ok(Line::Step(Step::Snap(index, offset, len)))
}

fn parse_scan(proven: &[u8], most: &[u8], buffer_size: &[u8]) -> Result<Line, ReadError>
    ensures reads { IsReadAs line_words IsLine
        (codes "scan" ∷ proven.now ∷ most.now ∷ buffer_size.now ∷ []) result }
{
    let proven = parse_number(proven)?;
    let most = parse_number(most)?;
    let buffer_size = parse_buffer_size(buffer_size)?;
    Ok(Line::Step(Step::Scan(proven, most, buffer_size)))
}

fn parse_read_ranges(alloc: Global, words: &[&[u8]]) -> Result<Line, ReadError>
    ensures reads { IsReadAs line_words IsLine
        (codes "ranges" ∷ map (λ word. word.now) words.now) result }
{
    let ranges = parse_ranges(alloc, words)?;
    Ok(Line::Step(Step::ReadRanges(ranges)))
}

fn parse_try_read_ranges(alloc: Global, words: &[&[u8]]) -> Result<Line, ReadError>
    ensures reads { IsReadAs line_words IsLine
        (codes "cached-ranges" ∷ map (λ word. word.now) words.now) result }
{
    let ranges = parse_ranges(alloc, words)?;
    Ok(Line::Step(Step::TryReadRanges(ranges)))
}
