// The tip's buffer: steps of it, and what it holds.
ghost use Rattle.std.specs.Prelude.{◌≡◌, ◌<◌, ◌≤◌, ◌+◌, ◌*◌, ◌%◌, ◌^◌, length};

use crate::devices::say_pieces;
use crate::forms::Argument::{Bytes, Number};
use crate::forms::{Form, read_step};
use crate::line::Row;
use crate::subject::Subject;
use crate::words::{out_of_memory, say_done, say_error, say_whether, unreadable};
use bytes::BufMut;
use disk::{Error, IoBuf, IoBufs};
use page::{Buffer, EncodeSize, Write as Encode, split_pages};
use scripts::Hex;
use std::alloc::{AllocError, Global};
use std::io;
use std::io::Write;

// What a step asks of a buffer.
#[derive(Clone, Copy)]
enum Verb {
    Append,
    Try,
    TryValue,
    Drain,
    DrainPages,
    Replace,
    Parts,
    Holds,
    Capacity,
    BothSides,
}

const STEPS: [Form<Verb>; 10] = [
    (b"append", &[Number], Verb::Append),
    (b"try", &[Number], Verb::Try),
    (b"try-value", &[Number, Number], Verb::TryValue),
    (b"drain", &[], Verb::Drain),
    (b"drain-pages", &[], Verb::DrainPages),
    (b"replace", &[Number, Bytes], Verb::Replace),
    (b"parts", &[], Verb::Parts),
    (b"holds", &[Number, Bytes], Verb::Holds),
    (b"capacity", &[], Verb::Capacity),
    (b"both-sides", &[Number], Verb::BothSides),
];

/// A buffer, and the byte that is appended next: they count up.
#[derive(Drop)]
pub struct Buffered {
    buffer: Buffer,
    count: usize,
}

// One byte, so many times.
#[derive(Clone, Copy)]
struct Run {
    byte: u8,
    len: usize,
}

impl EncodeSize for Run {
    ghost use Rattle.std.specs.Prelude.{replicate};

    ghost encoded = { λ run. replicate run.len run.byte };

    fn encode_size(&self) -> usize {
        self.len
    }
}

impl Encode for Run {
    fn write<O: BufMut>(&self, out: &mut O) -> Result<(), AllocError> {
        out.put_bytes(self.byte, self.len)
    }
}

/// Bytes that count up, and on after the last ones.
pub fn counted(alloc: Global, count: &mut usize, len: usize) -> Result<Vec<u8>, AllocError> {
    let mut bytes = Vec::new(alloc);
    for _ in 0..len {
        bytes.push((*count % 251) as u8)?;
        *count = count.wrapping_add(1);
    }
    Ok(bytes)
}

fn say_appended(answer: Result<bool, Error>, said: &mut Vec<u8>) -> io::Result<()> {
    match answer {
        Ok(passed) => say_whether(passed, said),
        Err(error) => say_error(error, said),
    }
}

fn say_tried(answer: Result<Option<u64>, Error>, said: &mut Vec<u8>) -> io::Result<()> {
    match answer {
        Ok(Some(offset)) => write!(said, "at {offset}"),
        Ok(None) => write!(said, "none"),
        Err(error) => say_error(error, said),
    }
}

// How long chunks are.
fn say_lengths(bufs: &IoBufs, said: &mut Vec<u8>) -> io::Result<()> {
    write!(said, "chunks")?;
    for buf in bufs.as_slice() {
        write!(said, " {}", buf.len())?;
    }
    Ok(())
}

fn as_io<T: Drop>(answer: Result<T, Error>) -> io::Result<T> {
    match answer {
        Ok(value) => Ok(value),
        Err(_) => Err(out_of_memory()),
    }
}

/// Whether the buffer is these bytes at this offset, by all calls that report its content.
fn holds(alloc: Global, buffer: &Buffer, offset: u64, bytes: &[u8]) -> Result<bool, Error> {
    if buffer.len() < buffer.page_size() && buffer.partial() != bytes {
        return Ok(false);
    }
    let (chunks, tail) = buffer.parts();
    let mut all = Vec::from_slice(alloc, chunks.coalesce()?.as_ref())?;
    all.extend_from_slice(tail)?;
    let mut copied = Vec::new(alloc);
    copied.resize(buffer.len(), 0)?;
    buffer.copy_to(0, &mut copied);
    Ok(
        all.as_slice() == bytes
            && copied.as_slice() == bytes
            && buffer.is_empty() == bytes.is_empty()
            && buffer.offset() == offset
            && buffer.size().checked_sub(offset) == Some(bytes.len() as u64),
    )
}

impl Buffered {
    /// An empty buffer at an offset. Its capacity must be whole pages.
    pub fn new(
        alloc: Global,
        offset: u64,
        capacity: usize,
        page_size: usize,
    ) -> io::Result<Box<Buffered>> {
        if page_size == 0 || capacity % page_size != 0 {
            return Err(unreadable());
        }
        let buffer = as_io(Buffer::from(alloc, offset, &[], capacity, page_size))?;
        Ok(Box::new(alloc, Buffered { buffer, count: 1 })?)
    }

    fn append(&mut self, alloc: Global, len: usize, said: &mut Vec<u8>) -> io::Result<()> {
        let bytes = counted(alloc, &mut self.count, len)?;
        say_appended(self.buffer.append(&bytes), said)
    }

    fn try_append(&mut self, alloc: Global, len: usize, said: &mut Vec<u8>) -> io::Result<()> {
        let bytes = counted(alloc, &mut self.count, len)?;
        say_tried(self.buffer.try_append(&bytes), said)
    }

    fn try_value(&mut self, byte: u64, len: usize, said: &mut Vec<u8>) -> io::Result<()> {
        let byte = (byte % 256) as u8;
        say_tried(self.buffer.try_append_value(&Run { byte, len }), said)
    }

    fn drain(&mut self, said: &mut Vec<u8>) -> io::Result<()> {
        let chunks = as_io(self.buffer.drain_full_pages())?;
        say_lengths(&chunks, said)
    }

    // Drains the full pages, and writes each.
    fn drain_pages(&mut self, alloc: Global, said: &mut Vec<u8>) -> io::Result<()> {
        let page_size = self.buffer.page_size();
        if page_size == 0 {
            return Err(unreadable());
        }
        let Ok(chunks) = self.buffer.drain_full_pages() else {
            return Err(out_of_memory());
        };
        let pages = as_io(split_pages(alloc, &chunks, page_size))?;
        write!(said, "pages")?;
        say_pieces(&pages, said)
    }

    fn replace(&mut self, offset: u64, bytes: &[u8], said: &mut Vec<u8>) -> io::Result<()> {
        if bytes.len() >= self.buffer.page_size() {
            return Err(unreadable());
        }
        say_done(self.buffer.replace(offset, bytes), said)
    }

    // The lengths of the frozen chunks and of the tail.
    fn say_parts(&self, said: &mut Vec<u8>) -> io::Result<()> {
        let (chunks, tail) = self.buffer.parts();
        say_lengths(chunks, said)?;
        write!(said, " tail {}", tail.len())
    }

    // Writes whether the buffer is these bytes at this offset, or else what it holds.
    fn say_held(
        &self,
        alloc: Global,
        offset: u64,
        bytes: &[u8],
        said: &mut Vec<u8>,
    ) -> io::Result<()> {
        if as_io(holds(alloc, &self.buffer, offset, bytes))? {
            return write!(said, "yes");
        }
        let (chunks, tail) = self.buffer.parts();
        write!(said, "fault at {}", self.buffer.offset())?;
        say_pieces(chunks.as_slice(), said)?;
        write!(said, " {}", Hex(tail))
    }
}

impl Subject for Buffered {
    fn play(&mut self, alloc: Global, row: &Row, said: &mut Vec<u8>) -> io::Result<()> {
        let Some((verb, words)) = read_step(alloc, &STEPS, &row.step)? else {
            return Err(unreadable());
        };
        let (number, len, bytes) = (words.number(0), words.length(0), words.bytes());
        match verb {
            Verb::Append => self.append(alloc, len, said),
            Verb::Try => self.try_append(alloc, len, said),
            Verb::TryValue => self.try_value(number, words.length(1), said),
            Verb::Drain => self.drain(said),
            Verb::DrainPages => self.drain_pages(alloc, said),
            Verb::Replace => self.replace(number, bytes, said),
            Verb::Parts => self.say_parts(said),
            Verb::Holds => self.say_held(alloc, number, bytes, said),
            Verb::Capacity => write!(said, "capacity {}", self.buffer.capacity()),
            Verb::BothSides => say_both_sides(alloc, len, said),
        }
    }
}

/// Whether each range of the buffer is that of these bytes.
fn reads(alloc: Global, buffer: &Buffer, all: &[u8]) -> Result<bool, Error> {
    if buffer.len() != all.len() {
        return Ok(false);
    }
    for start in 0..=all.len() {
        if !reads_from(alloc, buffer, all, start)? {
            return Ok(false);
        }
    }
    Ok(true)
}

fn reads_from(alloc: Global, buffer: &Buffer, all: &[u8], start: usize) -> Result<bool, Error>
    requires same { length buffer.now.bytes ≡ length all.now }
{
    for end in start..=all.len() {
        if read(alloc, buffer, start, end)?.as_ref() != &all[start..end] {
            return Ok(false);
        }
    }
    Ok(true)
}

fn read(alloc: Global, buffer: &Buffer, start: usize, end: usize) -> Result<IoBuf, Error>
    requires ordered { start ≤ end }
    requires there { end ≤ length buffer.now.bytes }
{
    let mut bufs = IoBufs::new(alloc);
    buffer.read_into(&mut bufs, start, end)?;
    bufs.coalesce()
}

/// Whether a buffer that gets so many bytes, and then so many more, is the plain list of them,
/// before its full pages are handed out and after.
fn is_plain(alloc: Global, page_size: usize, fill: usize, len: usize) -> Result<bool, Error>
    requires some { 0 < page_size }
    requires whole { 2 * page_size % page_size ≡ 0 }
    requires small { 2 * page_size < 2 ^ 64 }
    requires fits { fill + len < 2 ^ 64 }
{
    let mut count = 1;
    let all = counted(alloc, &mut count, fill + len)?;
    let mut buffer = Buffer::from(alloc, 0, &[], 2 * page_size, page_size)?;
    keeps_both(alloc, &mut buffer, fill, &all)
}

// Whether an empty buffer that gets the first `fill` of these bytes, and then the others, is the
// plain list of them, before its full pages are handed out and after.
fn keeps_both(alloc: Global, buffer: &mut Buffer, fill: usize, all: &[u8]) -> Result<bool, Error> {
    let (first, second) = all.split_at(fill.min(all.len()));
    buffer.append(first)?;
    buffer.append(second)?;
    Ok(
        holds(alloc, buffer, 0, all)?
            && reads(alloc, buffer, all)?
            && hands_out(alloc, buffer, all)?,
    )
}

// Whether a buffer that holds these bytes hands out their full pages, and keeps the others.
fn hands_out(alloc: Global, buffer: &mut Buffer, all: &[u8]) -> Result<bool, Error> {
    let page_size = buffer.page_size().max(1);
    let (full, rest) = all.split_at(all.len() / page_size * page_size);
    let drained = buffer.drain_full_pages()?.coalesce()?;
    Ok(drained.as_ref() == full && holds(alloc, buffer, full.len() as u64, rest)?)
}

fn are_plain(alloc: Global, page_size: usize) -> Result<bool, Error>
    requires some { 0 < page_size }
    requires small { page_size < 16 }
    requires whole { 2 * page_size % page_size ≡ 0 }
{
    for fill in 0..=3 * page_size {
        for len in 0..=3 * page_size {
            if !is_plain(alloc, page_size, fill, len)? {
                return Ok(false);
            }
        }
    }
    Ok(true)
}

// Bytes on both sides of each boundary of pages, in buffers of two pages.
fn say_both_sides(alloc: Global, page_size: usize, said: &mut Vec<u8>) -> io::Result<()> {
    if page_size == 0 || page_size >= 16 || 2 * page_size % page_size != 0 {
        return Err(unreadable());
    }
    say_whether(as_io(are_plain(alloc, page_size))?, said)
}
