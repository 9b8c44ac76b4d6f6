// Reads of a blob of full pages with a tip after them, also where a byte of a page was changed.
ghost use Rattle.std.specs.Prelude.{◌≡◌, ◌<◌, ◌*◌, [], length, sum_by, IfSome, IfOk};
ghost use Rattle.std.specs.Int.NonZero.{non_zero_u16_get, non_zero_usize_get};
ghost use Rattle.page.specs.Geometry.{AreInOrder};
ghost use Rattle.disk.specs.History.{life_of};
ghost use Rattle.paged_read.specs.Batch.{ranges_of};
ghost use Rattle.paged_read.specs.Tail.{tail_at, IsView, CanRead};

use crate::calls::say_calls;
use crate::forms::Argument::{Number, Numbers, Ranges};
use crate::forms::{Form, read_step};
use crate::in_order::len_together;
use crate::line::Row;
use crate::subject::Subject;
use crate::words::{out_of_memory, say_done, say_error, say_whether, unreadable};
use cache::CacheRef;
use disk::{Blob, Error, IoBufs, MemBlob};
use page::{AddSum, Buffer, CHECKSUM_SIZE, Checksum, Sum};
use paged::View;
use std::alloc::{AllocError, Global};
use std::io;
use std::io::Write;
use std::num::{NonZeroU16, NonZeroUsize};

// The logical bytes of a page, those in full pages, and those after them.
const PAGE: usize = 103;

const BELOW: usize = 309;

const TIP: usize = 37;

// What a step asks of a view.
#[derive(Clone, Copy)]
enum Verb {
    ReadInto,
    ReadAt,
    UpTo,
    Cached,
    Ranges,
    Fours,
    CachedRanges,
    CachedFours,
    Has,
    Fail,
    Backwards,
}

const STEPS: [Form<Verb>; 11] = [
    (b"read-into", &[Number, Number], Verb::ReadInto),
    (b"read-at", &[Number, Number], Verb::ReadAt),
    (b"up-to", &[Number, Number], Verb::UpTo),
    (b"cached", &[Number, Number], Verb::Cached),
    (b"ranges", &[Ranges], Verb::Ranges),
    (b"fours", &[Numbers], Verb::Fours),
    (b"cached-ranges", &[Ranges], Verb::CachedRanges),
    (b"cached-fours", &[Numbers], Verb::CachedFours),
    (b"has", &[Number], Verb::Has),
    (b"fail", &[Number], Verb::Fail),
    (b"backwards", &[], Verb::Backwards),
];

/// A blob of three full pages and 37 bytes after them, whose byte i is i modulo 251, with its cache.
#[derive(Drop)]
pub struct Viewed {
    alloc: Global,
    page_size: NonZeroU16,
    id: u64,
    blob: MemBlob,
    cache: CacheRef,
    tip: Buffer,
    ghost view: { IsView (non_zero_u16_get page_size) tip },
    ghost can: { CanRead (tail_at page_size id tip) cache (life_of blob).present },
}

// Bytes of the content from an offset on.
fn content(alloc: Global, from: usize, len: usize) -> Result<Vec<u8>, Error> {
    let mut bytes = Vec::new(alloc);
    for index in 0..len {
        bytes.push((from.wrapping_add(index) % 251) as u8)?;
    }
    Ok(bytes)
}

// The three physical pages.
fn pages(alloc: Global) -> Result<Vec<u8>, Error> {
    let mut bytes = Vec::new(alloc);
    for page in 0..3usize {
        let payload = content(alloc, page * PAGE, PAGE)?;
        bytes.extend_from_slice(&payload)?;
        bytes.extend_from_slice(&Checksum::new(PAGE as u16, AddSum::sum(&payload)).to_bytes())?;
    }
    Ok(bytes)
}

// The bytes after the three pages.
fn tip(alloc: Global) -> Result<Buffer, Error> {
    let mut tip = Buffer::from(alloc, BELOW as u64, &[], 2 * PAGE, PAGE)?;
    tip.append(&content(alloc, BELOW, TIP)?)?;
    Ok(tip)
}

// The ranges of 4 bytes at these offsets.
fn fours(alloc: Global, offsets: &[u64]) -> Result<Vec<(u64, usize)>, AllocError>
    ensures { IfOk result (λ ranges. ranges.items ≡ ranges_of 4 offsets.now) }
{
    offsets.iter().map(|offset| (*offset, 4)).collect(alloc)
}

// Writes how many bytes were read, or ranges served: `None` if the bytes aren't the content's.
fn say_count(
    word: &str,
    answer: Result<Option<usize>, Error>,
    said: &mut Vec<u8>,
) -> io::Result<()> {
    match answer {
        Ok(Some(count)) => write!(said, "{word} {count}"),
        Ok(None) => write!(said, "fault other bytes"),
        Err(error) => say_error(error, said),
    }
}

fn say_missed(answer: Result<Vec<usize>, Error>, said: &mut Vec<u8>) -> io::Result<()> {
    let Ok(numbers) = answer else {
        return Err(out_of_memory());
    };
    write!(said, "missed")?;
    for number in &numbers {
        write!(said, " {number}")?;
    }
    Ok(())
}

impl Viewed {
    /// A new one, with a cache of so many pages. If the blob has a byte at the physical offset
    /// `changed`, that byte is changed.
    pub fn new(alloc: Global, capacity: usize, changed: usize) -> io::Result<Box<Viewed>> {
        match Viewed::of_changed(alloc, capacity, changed) {
            Ok(viewed) => Ok(Box::new(alloc, viewed)?),
            Err(_) => Err(out_of_memory()),
        }
    }

    fn of_changed(alloc: Global, capacity: usize, changed: usize) -> Result<Self, Error> {
        let mut bytes = pages(alloc)?;
        if let Some(byte) = bytes.get_mut(changed) {
            *byte ^= 1;
        }
        let page_size = NonZeroU16::new(PAGE as u16).unwrap_or(NonZeroU16::MIN);
        let capacity = NonZeroUsize::new(capacity).unwrap_or(NonZeroUsize::MIN);
        let mut cache = CacheRef::new(alloc, page_size, capacity)?;
        let id = cache.next_id()?;
        let blob = MemBlob::from_bytes(alloc, &bytes)?;
        Viewed::of_parts(alloc, page_size, id, blob, cache, tip(alloc)?)
    }

    // Tests what a view asks for: that the pages end where the tip begins, and are there.
    fn of_parts(
        alloc: Global,
        page_size: NonZeroU16,
        id: u64,
        blob: MemBlob,
        cache: CacheRef,
        tip: Buffer,
    ) -> Result<Self, Error>
        requires empty { cache.pages ≡ [] }
        requires given { id < cache.ids_given }
        requires page_size { cache.page_size ≡ non_zero_u16_get page_size }
    {
        let size = u64::from(page_size.get());
        let count = tip.offset() / size;
        let end = count.checked_mul(size + CHECKSUM_SIZE);
        let end = end.ok_or(Error::OffsetOverflow)?;
        if count * size != tip.offset() || blob.len() < end {
            return Err(Error::BlobInsufficientLength);
        }
        Ok(Viewed {
            alloc,
            page_size,
            id,
            blob,
            cache,
            tip,
        })
    }

    // This count, if the bytes are the content's.
    fn compared(&self, bytes: &[u8], offset: u64, count: usize) -> Result<Option<usize>, Error> {
        let want = content(self.alloc, offset as usize, bytes.len())?;
        Ok((bytes == want.as_slice()).then_some(count))
    }

    fn read_into(&mut self, offset: u64, len: usize) -> Result<Option<usize>, Error> {
        let mut buf = Vec::new(self.alloc);
        buf.resize(len, 0)?;
        let view = View::<MemBlob, AddSum>::new(self.alloc, self.page_size, self.id, &self.tip);
        view.read_into(&mut self.blob, &mut self.cache, &mut buf, offset)?;
        self.compared(&buf, offset, len)
    }

    fn read_at(&mut self, offset: u64, len: usize) -> Result<Option<usize>, Error> {
        let view = View::<MemBlob, AddSum>::new(self.alloc, self.page_size, self.id, &self.tip);
        let bufs: IoBufs = view.read_at(&mut self.blob, &mut self.cache, offset, len)?;
        self.compared(bufs.coalesce()?.as_ref(), offset, len)
    }

    fn read_up_to(&mut self, offset: u64, len: usize) -> Result<Option<usize>, Error> {
        let old = content(self.alloc, 9, 5)?;
        let view = View::<MemBlob, AddSum>::new(self.alloc, self.page_size, self.id, &self.tip);
        let (bytes, count) = view.read_up_to(&mut self.blob, &mut self.cache, offset, len, old)?;
        self.compared(&bytes, offset, count)
    }

    // Whether these bytes are read without the device. `InvalidChecksum` if they aren't the
    // content's.
    fn try_read(&self, offset: u64, len: usize) -> Result<bool, Error> {
        let mut buf = Vec::new(self.alloc);
        buf.resize(len, 0)?;
        let view = View::<MemBlob, AddSum>::new(self.alloc, self.page_size, self.id, &self.tip);
        if !view.try_read_sync_into(&self.cache, &mut buf, offset) {
            return Ok(false);
        }
        let read = self.compared(&buf, offset, len)?;
        read.map(|_| true).ok_or(Error::InvalidChecksum)
    }

    // This count, if the bytes are the content's of these ranges, joined.
    fn compared_ranges(
        &self,
        bytes: &[u8],
        ranges: &[(u64, usize)],
        count: usize,
    ) -> Result<Option<usize>, Error> {
        let mut want = Vec::new(self.alloc);
        for &(offset, len) in ranges {
            want.extend_from_slice(&content(self.alloc, offset as usize, len)?)?;
        }
        Ok((bytes == want.as_slice()).then_some(count))
    }

    fn read_ranges(&mut self, ranges: &[(u64, usize)], len: usize) -> Result<Option<usize>, Error>
        requires in_order { AreInOrder ranges.now }
        requires filled { len ≡ sum_by (λ range. range.1) ranges.now }
    {
        let mut buf = Vec::new(self.alloc);
        buf.resize(len, 0)?;
        let view = View::<MemBlob, AddSum>::new(self.alloc, self.page_size, self.id, &self.tip);
        let served = view.read_ranges_into(&mut self.blob, &mut self.cache, &mut buf, ranges)?;
        self.compared_ranges(&buf, ranges, served)
    }

    // Ranges of 4 bytes at these offsets.
    fn read_fours(
        &mut self,
        ranges: &[(u64, usize)],
        offsets: &[u64],
        len: usize,
    ) -> Result<Option<usize>, Error>
        requires ranges { ranges.now ≡ ranges_of 4 offsets.now }
        requires in_order { AreInOrder ranges.now }
        requires filled { len ≡ length offsets.now * 4 }
    {
        let four = NonZeroUsize::new(4).ok_or(Error::OutOfMemory)?;
        let mut buf = Vec::new(self.alloc);
        buf.resize(len, 0)?;
        let view = View::<MemBlob, AddSum>::new(self.alloc, self.page_size, self.id, &self.tip);
        let served = view.read_many_into(&mut self.blob, &mut self.cache, &mut buf, offsets, four)?;
        self.compared_ranges(&buf, ranges, served)
    }

    // The numbers of the ranges that would need the device.
    fn missed(&self, ranges: &[(u64, usize)], len: usize) -> Result<Vec<usize>, Error>
        requires in_order { AreInOrder ranges.now }
        requires filled { len ≡ sum_by (λ range. range.1) ranges.now }
    {
        let mut buf = Vec::new(self.alloc);
        buf.resize(len, 0)?;
        let view = View::<MemBlob, AddSum>::new(self.alloc, self.page_size, self.id, &self.tip);
        view.try_read_ranges_sync_into(&self.cache, &mut buf, ranges)
    }

    // The numbers of the ranges of 4 bytes that would need the device.
    fn missed_fours(&self, offsets: &[u64], len: usize) -> Result<Vec<usize>, Error>
        requires in_order { AreInOrder (ranges_of 4 offsets.now) }
        requires filled { len ≡ length offsets.now * 4 }
    {
        let four = NonZeroUsize::new(4).ok_or(Error::OutOfMemory)?;
        let mut buf = Vec::new(self.alloc);
        buf.resize(len, 0)?;
        let view = View::<MemBlob, AddSum>::new(self.alloc, self.page_size, self.id, &self.tip);
        view.try_read_many_sync_into(&self.cache, &mut buf, offsets, four)
    }

    fn play_ranges(&mut self, ranges: &[(u64, usize)], said: &mut Vec<u8>) -> io::Result<()> {
        match len_together(ranges) {
            Some(len) => say_count("served", self.read_ranges(ranges, len), said),
            None => Err(unreadable()),
        }
    }

    fn play_fours(&mut self, alloc: Global, offsets: &[u64], said: &mut Vec<u8>) -> io::Result<()> {
        let ranges = fours(alloc, offsets)?;
        if len_together(&ranges).is_none() {
            return Err(unreadable());
        }
        let Some(len) = offsets.len().checked_mul(4) else {
            return Err(unreadable());
        };
        say_count("served", self.read_fours(&ranges, offsets, len), said)
    }

    fn play_missed(&self, ranges: &[(u64, usize)], said: &mut Vec<u8>) -> io::Result<()> {
        let Some(len) = len_together(ranges) else {
            return Err(unreadable());
        };
        say_missed(self.missed(ranges, len), said)
    }

    fn play_missed_fours(
        &self,
        alloc: Global,
        offsets: &[u64],
        said: &mut Vec<u8>,
    ) -> io::Result<()> {
        let ranges = fours(alloc, offsets)?;
        match (len_together(&ranges), offsets.len().checked_mul(4)) {
            (Some(_), Some(len)) => say_missed(self.missed_fours(offsets, len), said),
            _ => Err(unreadable()),
        }
    }

    fn play_held(&self, offset: u64, len: usize, said: &mut Vec<u8>) -> io::Result<()> {
        match self.try_read(offset, len) {
            Ok(held) => say_whether(held, said),
            Err(error) => say_error(error, said),
        }
    }
}

impl Subject for Viewed {
    fn play(&mut self, alloc: Global, row: &Row, said: &mut Vec<u8>) -> io::Result<()> {
        let Some((verb, words)) = read_step(alloc, &STEPS, &row.step)? else {
            return Err(unreadable());
        };
        let (first, len) = (words.number(0), words.length(1));
        match verb {
            Verb::ReadInto => say_count("read", self.read_into(first, len), said),
            Verb::ReadAt => say_count("read", self.read_at(first, len), said),
            Verb::UpTo => say_count("read", self.read_up_to(first, len), said),
            Verb::Cached => self.play_held(first, len, said),
            Verb::Ranges => self.play_ranges(&words.ranges, said),
            Verb::Fours => self.play_fours(alloc, &words.numbers, said),
            Verb::CachedRanges => self.play_missed(&words.ranges, said),
            Verb::CachedFours => self.play_missed_fours(alloc, &words.numbers, said),
            Verb::Has => say_whether(self.cache.holds(self.id, first), said),
            Verb::Fail => {
                self.blob.fail_at(first.max(1));
                say_done(Ok(()), said)
            }
            Verb::Backwards => {
                self.blob.deliver_backwards(true);
                say_done(Ok(()), said)
            }
        }
    }

    fn calls(&self) -> usize {
        self.blob.calls().len()
    }

    fn say_calls(&self, first: usize, said: &mut Vec<u8>) -> io::Result<()> {
        say_calls(self.blob.calls(), first, said)
    }
}
