// The cache, by its own calls.
ghost use Rattle.std.specs.Prelude.{◌≡◌, true};
ghost use Rattle.cache.specs.CacheState.{IsPiece};

use crate::forms::Argument::{Bytes, Number};
use crate::forms::{Arguments, Form, read_step};
use crate::line::Row;
use crate::refuse::has_refused;
use crate::subject::Subject;
use crate::words::{out_of_memory, say_done, say_size, say_whether, unreadable};
use cache::{CacheRef, Piece};
use scripts::Hex;
use std::alloc::Global;
use std::io;
use std::io::Write;
use std::num::{NonZeroU16, NonZeroUsize};

// What a step asks of a cache.
#[derive(Clone, Copy)]
enum Verb {
    Page,
    NextId,
    Put,
    Keep,
    Fill,
    Read,
    Piece,
    Has,
    Len,
    Skipped,
}

const STEPS: [Form<Verb>; 10] = [
    (b"page", &[Number], Verb::Page),
    (b"next-id", &[], Verb::NextId),
    (b"put", &[Number, Number, Bytes], Verb::Put),
    (b"keep", &[Number, Number, Bytes], Verb::Keep),
    (b"buffer", &[Bytes], Verb::Fill),
    (b"read", &[Number, Number], Verb::Read),
    (
        b"piece",
        &[Number, Number, Number, Number, Number],
        Verb::Piece,
    ),
    (b"has", &[Number, Number], Verb::Has),
    (b"len", &[], Verb::Len),
    (b"skipped", &[], Verb::Skipped),
];

// The piece of a step, after the id.
fn piece_of(words: &Arguments) -> Piece {
    Piece {
        page: words.number(1),
        skip: words.length(2),
        place: words.length(3),
        len: words.length(4),
    }
}

/// A cache, and the buffer to which its bytes are read.
#[derive(Drop)]
pub struct Cached {
    cache: CacheRef,
    buf: Vec<u8>,
}

// Whether a piece is of one page, and there is room for it.
fn is_piece(page_size: usize, room: usize, piece: Piece) -> bool
    ensures { result ≡ true → IsPiece page_size room piece }
{
    piece.len <= page_size
        && piece.skip <= page_size - piece.len
        && piece.len <= room
        && piece.place <= room - piece.len
}

impl Cached {
    /// A cache of so many pages of this size.
    pub fn new(alloc: Global, page_size: NonZeroU16, pages: usize) -> io::Result<Box<Cached>> {
        let pages = NonZeroUsize::new(pages).unwrap_or(NonZeroUsize::MIN);
        let Ok(cache) = CacheRef::new(alloc, page_size, pages) else {
            return Err(out_of_memory());
        };
        let buf = Vec::new(alloc);
        Ok(Box::new(alloc, Cached { cache, buf })?)
    }

    fn say_page(&self, offset: u64, said: &mut Vec<u8>) -> io::Result<()> {
        let (page, skip) = self.cache.offset_to_page(offset);
        write!(said, "page {page} skip {skip}")
    }

    // Puts the whole pages of some bytes, which begin where a page does.
    fn put(&mut self, id: u64, offset: u64, bytes: &[u8], said: &mut Vec<u8>) -> io::Result<()> {
        if offset % u64::from(self.cache.page_size().get()) != 0 {
            return Err(unreadable());
        }
        let left = self.cache.cache(id, bytes, offset);
        write!(said, "left {left}")
    }

    fn keep(&mut self, id: u64, page: u64, bytes: &[u8], said: &mut Vec<u8>) -> io::Result<()> {
        if bytes.len() != usize::from(self.cache.page_size().get()) {
            return Err(unreadable());
        }
        self.cache.keep(id, page, bytes);
        say_done(Ok(()), said)
    }

    // Reads to the buffer, over the bytes that it has.
    fn read(&mut self, id: u64, offset: u64, said: &mut Vec<u8>) -> io::Result<()> {
        let count = self.cache.read_cached(id, &mut self.buf, offset);
        write!(said, "read {count} {}", Hex(&self.buf))
    }

    // Reads a piece of a page to its place, if the page is held.
    fn read_piece(&mut self, id: u64, piece: Piece, said: &mut Vec<u8>) -> io::Result<()> {
        let page_size = usize::from(self.cache.page_size().get());
        if !is_piece(page_size, self.buf.len(), piece) {
            return Err(unreadable());
        }
        let Ok(left) = self.cache.read_cached_many(id, &mut self.buf, &[piece]) else {
            return Err(out_of_memory());
        };
        let word = if left.is_empty() { "read" } else { "left" };
        write!(said, "{word} {}", Hex(&self.buf))
    }

    fn fill(&mut self, alloc: Global, bytes: &[u8], said: &mut Vec<u8>) -> io::Result<()> {
        self.buf = Vec::from_slice(alloc, bytes)?;
        say_done(Ok(()), said)
    }
}

impl Cached {
    fn go(
        &mut self,
        alloc: Global,
        verb: Verb,
        words: &Arguments,
        said: &mut Vec<u8>,
    ) -> io::Result<()> {
        let (first, second, bytes) = (words.number(0), words.number(1), words.bytes());
        match verb {
            Verb::Page => self.say_page(first, said),
            Verb::NextId => say_size("id", self.cache.next_id(), said),
            Verb::Put => self.put(first, second, bytes, said),
            Verb::Keep => self.keep(first, second, bytes, said),
            Verb::Fill => self.fill(alloc, bytes, said),
            Verb::Read => self.read(first, second, said),
            Verb::Piece => self.read_piece(first, piece_of(words), said),
            Verb::Has => say_whether(self.cache.holds(first, second), said),
            Verb::Len => write!(said, "len {}", self.cache.len()),
            Verb::Skipped => write!(said, "skipped {}", self.cache.skipped()),
        }
    }
}

// Whether a step may take memory once it is read and there is room for its reply: of the calls of a
// cache only a read of many pieces does.
fn takes_memory(verb: Verb) -> bool {
    match verb {
        Verb::Fill | Verb::Piece => true,
        _ => false,
    }
}

// More bytes than most replies have.
const ROOM: usize = 4096;

impl Subject for Cached {
    fn play(&mut self, alloc: Global, row: &Row, said: &mut Vec<u8>) -> io::Result<()> {
        let Some((verb, words)) = read_step(alloc, &STEPS, &row.step)? else {
            return Err(unreadable());
        };
        said.try_reserve(ROOM)?;
        let before = has_refused(alloc);
        self.go(alloc, verb, &words, said)?;
        if !before && has_refused(alloc) && !takes_memory(verb) {
            said.extend_from_slice(b", but fault memory was asked for")?;
        }
        Ok(())
    }
}
