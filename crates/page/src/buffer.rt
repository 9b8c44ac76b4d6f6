// The tip of a blob: the bytes after its full pages.
ghost use Rattle.std.specs.Prelude.{◌≡◌, ◌==◌, ◌<◌, ◌≤◌, ◌+◌, ◌-◌, ◌^◌, ◌%◌, ◌↔◌, ◌++◌, length};
ghost use Rattle.std.specs.Prelude.{take, drop, slice_range, IsTrue, OnOk, IsOkUnless};
ghost use Rattle.std.specs.List.{concat};
ghost use Rattle.page.specs.Tip.{tip_size, AreWholePages, TipAppendGoes, TipTryAppendGoes};
ghost use Rattle.page.specs.Tip.{TipDrainGoes, TipReplaceGoes, TipStartGoes};

use crate::tail::{Tail, next_limit};
use crate::{EncodeSize, Write};
use disk::{Error, IoBuf, IoBufs};
use std::alloc::Global;
use std::marker::Model;
use std::mem;

/// A tip: bytes that are appended after a logical offset of a blob, in pages of one size.
///
/// The bytes stand in frozen chunks, each a whole number of pages, and one tail after them that
/// still grows. An append copies each byte once. Full pages are handed out where they stand. After
/// an error the buffer is as it was.
pub struct Buffer {
    alloc: Global,
    page_size: usize,
    capacity: usize,
    offset: u64,
    chunks: IoBufs,
    tail: Tail,
}

// By hand, so that an owner lets one go by one call: of a derived drop, a proof follows each field
// at each exit.
impl Drop for Buffer {
    fn drop(self) {
        let Buffer {
            alloc: _,
            page_size: _,
            capacity: _,
            offset: _,
            chunks: _,
            tail: _,
        } = self;
    }
}

impl Model for Buffer {
    ghost use Rattle.std.specs.Prelude.{◌++◌};
    ghost use Rattle.std.specs.List.{concat};
    ghost use Rattle.page.specs.Tip.{Tip, IsBuffer};

    ghost Value = { Tip };

    ghost view = { λ b. record {
      page_size = b.page_size;
      capacity = b.capacity;
      offset = b.offset;
      bytes = concat b.chunks ++ b.tail.bytes.items;
    } };

    ghost invariant = { λ b. IsBuffer b.page_size b.capacity b.offset b.chunks b.tail.bytes.items
        b.tail.limit };
}

/// Whether `len` bytes at an offset end within the greatest offset.
fn has_offsets(offset: u64, len: usize) -> bool
    ensures { IsTrue result ↔ offset + len < 2 ^ 64 }
{
    offset.checked_add(len as u64).is_some()
}

/// Adds the bytes of a chunk from `start` to before `end`, shared with it. The only error is
/// `OutOfMemory`.
fn append_part(bufs: &mut IoBufs, chunk: &IoBuf, start: usize, end: usize) -> Result<(), Error>
    requires order { start ≤ end }
    requires within { end ≤ length chunk.now }
    ensures ok { OnOk result
        (concat bufs.new ≡ concat bufs.old ++ slice_range chunk.now start end) }
    ensures err { IsOkUnless result Error.OutOfMemory }
{
    if start == end {
        return Ok(());
    }
    bufs.append(chunk.slice(start, end)?)
}

/// Adds a copy of these bytes. The only error is `OutOfMemory`.
fn append_copy(alloc: Global, bufs: &mut IoBufs, bytes: &[u8]) -> Result<(), Error>
    ensures ok { OnOk result (concat bufs.new ≡ concat bufs.old ++ bytes.now) }
    ensures err { IsOkUnless result Error.OutOfMemory }
{
    if bytes.is_empty() {
        return Ok(());
    }
    bufs.append(IoBuf::copy_from_slice(alloc, bytes)?)
}

/// Copies bytes into a buffer after its first `done` bytes, and answers how many bytes of it are
/// filled then.
fn copy_after(buf: &mut [u8], done: usize, bytes: &[u8]) -> usize
    requires { done + length bytes.now ≤ length buf.old }
    ensures done { result ≡ done + length bytes.now }
    ensures size { length buf.new ≡ length buf.old }
    ensures bytes { take result buf.new ≡ take done buf.old ++ bytes.now }
{
    let end = done + bytes.len();
    buf[done..end].copy_from_slice(bytes);
    end
}

impl Buffer {
    /// A buffer of these bytes, fewer than a page, at a logical offset. It is to hold `capacity`
    /// bytes, a whole number of pages; memory for them is taken only as they come.
    ///
    /// `OffsetOverflow` where the bytes pass the greatest offset, and else no error except
    /// `OutOfMemory`.
    pub fn from(
        alloc: Global,
        offset: u64,
        bytes: &[u8],
        capacity: usize,
        page_size: usize,
    ) -> Result<Self, Error>
        requires some { 0 < page_size }
        requires whole { capacity % page_size ≡ 0 }
        requires short { length bytes.now < page_size }
        ensures { TipStartGoes (record {
          page_size = page_size;
          capacity = capacity;
          offset = offset;
          bytes = bytes.now;
        }) result }
    {
        if !has_offsets(offset, bytes.len()) {
            return Err(Error::OffsetOverflow);
        }
        Ok(Buffer {
            alloc,
            page_size,
            capacity,
            offset,
            chunks: IoBufs::new(alloc),
            tail: Tail::partial(alloc, bytes, page_size)?,
        })
    }

    /// The logical size of the blob with what is buffered, in bytes.
    pub fn size(&self) -> u64
        ensures { result ≡ tip_size self.now }
    {
        self.offset + self.len() as u64
    }

    /// The number of bytes that are buffered.
    pub fn len(&self) -> usize
        ensures { result ≡ length self.now.bytes }
    {
        self.chunks.len() + self.tail.bytes.len()
    }

    /// Whether no byte is buffered.
    pub fn is_empty(&self) -> bool
        ensures { result ≡ (length self.now.bytes == 0) }
    {
        self.len() == 0
    }

    /// The logical offset of the first byte.
    pub fn offset(&self) -> u64
        ensures { result ≡ self.now.offset }
    {
        self.offset
    }

    /// How many bytes the buffer is to hold.
    pub fn capacity(&self) -> usize
        ensures { result ≡ self.now.capacity }
    {
        self.capacity
    }

    /// The logical size of a page, in bytes.
    pub fn page_size(&self) -> usize
        ensures { result ≡ self.now.page_size }
    {
        self.page_size
    }

    /// The buffered bytes: frozen chunks, each of whole pages, and the tail after them.
    pub fn parts(&self) -> (&IoBufs, &[u8])
        ensures bytes { concat result.0.now ++ result.1.now ≡ self.now.bytes }
        ensures whole { AreWholePages self.now.page_size result.0.now }
    {
        (&self.chunks, &self.tail.bytes)
    }

    /// The buffered bytes, where they are fewer than a page.
    pub fn partial(&self) -> &[u8]
        requires { length self.now.bytes < self.now.page_size }
        ensures { result.now ≡ self.now.bytes }
    {
        &self.tail.bytes
    }

    /// Adds the buffered bytes from `start` to before `end` to `bufs`, counted from the first
    /// buffered one. The only error is `OutOfMemory`.
    pub fn read_into(&self, bufs: &mut IoBufs, start: usize, end: usize) -> Result<(), Error>
        requires order { start ≤ end }
        requires within { end ≤ length self.now.bytes }
        ensures ok { OnOk result
            (concat bufs.new ≡ concat bufs.old ++ take (end - start) (drop start self.now.bytes)) }
        ensures err { IsOkUnless result Error.OutOfMemory }
    {
        let mut at = 0;
        for chunk in self.chunks.as_slice() {
            let from = start.saturating_sub(at).min(chunk.len());
            let to = end.saturating_sub(at).min(chunk.len());
            append_part(bufs, chunk, from, to)?;
            at += chunk.len();
        }
        let bytes = &self.tail.bytes[start.saturating_sub(at)..end.saturating_sub(at)];
        append_copy(self.alloc, bufs, bytes)
    }

    /// Fills `buf` with the buffered bytes from byte `offset` on, counted from the first buffered
    /// one. It takes no memory.
    pub fn copy_to(&self, offset: usize, buf: &mut [u8])
        requires { offset + length buf.old ≤ length self.now.bytes }
        ensures { buf.new ≡ take (length buf.old) (drop offset self.now.bytes) }
    {
        let chunks = self.chunks.as_slice();
        let end = offset + buf.len();
        let mut at = 0;
        let mut done = 0;
        for chunk in chunks {
            let from = offset.saturating_sub(at).min(chunk.len());
            let to = end.saturating_sub(at).min(chunk.len());
            done = copy_after(buf, done, &chunk.as_ref()[from..to]);
            at += chunk.len();
        }
        let bytes = &self.tail.bytes[offset.saturating_sub(at)..end.saturating_sub(at)];
        copy_after(buf, done, bytes);
    }

    /// Appends bytes, and answers whether more bytes are now buffered than the capacity.
    ///
    /// `OffsetOverflow`, before anything else, where the new size passes the greatest offset;
    /// `OutOfMemory`.
    pub fn append(&mut self, bytes: &[u8]) -> Result<bool, Error>
        ensures { TipAppendGoes self.old bytes.now self.new result }
    {
        let len = self.len();
        if !has_offsets(self.size(), bytes.len()) {
            return Err(Error::OffsetOverflow);
        }
        let end = len + bytes.len();
        let spare = self.tail.spare();
        if bytes.len() <= spare {
            self.tail.bytes.extend_from_slice(bytes)?;
            return Ok(end > self.capacity);
        }
        let limit = next_limit(
            len + spare,
            bytes.len() - spare,
            self.capacity,
            self.page_size,
        )?;
        self.tail
            .extend(self.alloc, &mut self.chunks, bytes, limit)?;
        Ok(end > self.capacity)
    }

    /// Appends bytes where they fit into the capacity, and answers the logical offset of the first;
    /// `None`, with nothing changed, where they don't fit.
    ///
    /// `OffsetOverflow`, before anything else, where the new size passes the greatest offset;
    /// `OutOfMemory`.
    pub fn try_append(&mut self, bytes: &[u8]) -> Result<Option<u64>, Error>
        ensures { TipTryAppendGoes self.old bytes.now self.new result }
    {
        let offset = self.size();
        if !has_offsets(offset, bytes.len()) {
            return Err(Error::OffsetOverflow);
        }
        if self.len() + bytes.len() > self.capacity {
            return Ok(None);
        }
        self.append(bytes)?;
        Ok(Some(offset))
    }

    /// Appends a value's encoded bytes where they fit into the capacity, and answers the logical
    /// offset of the first. `None`, with nothing changed, where they don't fit: then the value
    /// isn't encoded.
    ///
    /// `OffsetOverflow`, before anything else, where the new size passes the greatest offset;
    /// `OutOfMemory`.
    pub fn try_append_value<T: EncodeSize + Write>(
        &mut self,
        value: &T,
    ) -> Result<Option<u64>, Error>
        ensures { TipTryAppendGoes self.old (T.encoded value.now) self.new result }
    {
        let size = value.encode_size();
        let offset = self.size();
        if !has_offsets(offset, size) {
            return Err(Error::OffsetOverflow);
        }
        if self.len() + size > self.capacity {
            return Ok(None);
        }
        if size <= self.tail.spare() {
            self.tail.bytes.try_reserve(size)?;
            value.write(&mut self.tail.bytes)?;
            return Ok(Some(offset));
        }
        let mut bytes = Vec::with_capacity(self.alloc, size)?;
        value.write(&mut bytes)?;
        self.append(&bytes)?;
        Ok(Some(offset))
    }

    /// Hands out the full pages, in order, in chunks of whole pages, and keeps the bytes after
    /// them. The only error is `OutOfMemory`, and none comes where no page is full.
    pub fn drain_full_pages(&mut self) -> Result<IoBufs, Error>
        ensures { TipDrainGoes self.old self.new result }
    {
        let full_len = self.len() / self.page_size * self.page_size;
        if full_len == 0 {
            return Ok(IoBufs::new(self.alloc));
        }
        self.tail
            .freeze_full_pages(self.alloc, &mut self.chunks, self.page_size)?;
        self.offset += full_len as u64;
        Ok(mem::replace(&mut self.chunks, IoBufs::new(self.alloc)))
    }

    /// Replaces all that is buffered by other bytes, fewer than a page, at another logical offset.
    ///
    /// `OffsetOverflow` where they pass the greatest offset, and else no error except
    /// `OutOfMemory`.
    pub fn replace(&mut self, offset: u64, bytes: &[u8]) -> Result<(), Error>
        requires { length bytes.now < self.old.page_size }
        ensures { TipReplaceGoes self.old offset bytes.now self.new result }
    {
        if !has_offsets(offset, bytes.len()) {
            return Err(Error::OffsetOverflow);
        }
        self.tail = Tail::partial(self.alloc, bytes, self.page_size)?;
        self.chunks = IoBufs::new(self.alloc);
        self.offset = offset;
        Ok(())
    }
}
