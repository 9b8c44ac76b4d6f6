// The end of a tip: the one chunk that grows.
ghost use Rattle.std.specs.Prelude.{◌≡◌, ◌<◌, ◌≤◌, ◌+◌, ◌-◌, ◌*◌, ◌/◌, ◌++◌, length, take, drop};
ghost use Rattle.std.specs.Prelude.{IfOk, OnOk, OnErr, IsOkUnless};
ghost use Rattle.disk.specs.Bufs.{with_buf};
ghost use Rattle.page.specs.Tip.{page_limit, grown_limit, kept_limit, AreSame};

use disk::{Error, IoBufs};
use std::alloc::Global;
use std::mem;

/// The bytes of a tip after its frozen chunks. Once they fill the limit they are frozen too, where
/// they stand.
#[derive(Drop)]
pub(crate) struct Tail {
    pub bytes: Vec<u8>,
    /// How many bytes the tail has room for: whole pages, or 0 where no memory was taken.
    pub limit: usize,
}

/// How many bytes the next tail has room for, where a tip of `filled` bytes in whole pages gets
/// `needed` bytes more. The answer is as many as are buffered already, so that the chunks grow with
/// the tip, and not past the capacity. Where a page or the needed bytes are more, it is that. It is
/// rounded up to whole pages. `OutOfMemory` where the answer passes `usize`.
pub(crate) fn next_limit(
    filled: usize,
    needed: usize,
    capacity: usize,
    page_size: usize,
) -> Result<usize, Error>
    requires { 0 < page_size }
    ensures limit { IfOk result (λ limit. limit ≡ grown_limit filled needed capacity page_size) }
    ensures err { IsOkUnless result Error.OutOfMemory }
{
    let left = capacity.saturating_sub(filled);
    needed
        .max(page_size)
        .max(filled.min(left))
        .checked_next_multiple_of(page_size)
        .ok_or(Error::OutOfMemory)
}

impl Tail {
    /// A tail that begins with these bytes. The only error is `OutOfMemory`.
    fn new(alloc: Global, bytes: &[u8], limit: usize) -> Result<Self, Error>
        ensures bytes { IfOk result (λ t. t.bytes.items ≡ bytes.now) }
        ensures limit { IfOk result (λ t. t.limit ≡ limit) }
        ensures err { IsOkUnless result Error.OutOfMemory }
    {
        let mut tail = Vec::with_capacity(alloc, limit)?;
        tail.extend_from_slice(bytes)?;
        Ok(Tail { bytes: tail, limit })
    }

    /// A tail of fewer bytes than a page: with room for a page, or for nothing where there is no
    /// byte. The only error is `OutOfMemory`.
    pub fn partial(alloc: Global, bytes: &[u8], page_size: usize) -> Result<Self, Error>
        ensures bytes { IfOk result (λ t. t.bytes.items ≡ bytes.now) }
        ensures limit { IfOk result (λ t. t.limit ≡ page_limit bytes.now page_size) }
        ensures err { IsOkUnless result Error.OutOfMemory }
    {
        let limit = if bytes.is_empty() { 0 } else { page_size };
        Tail::new(alloc, bytes, limit)
    }

    /// How many bytes more the tail has room for.
    pub fn spare(&self) -> usize
        requires { length self.now.bytes.items ≤ self.now.limit }
        ensures { result ≡ self.now.limit - length self.now.bytes.items }
    {
        self.limit - self.bytes.len()
    }

    /// Adds bytes, at least as many as the tail has room for. The first ones fill the tail, which
    /// is then frozen, and the others begin a new tail with this limit. The only error is
    /// `OutOfMemory`, and after it nothing has changed.
    pub fn extend(
        &mut self,
        alloc: Global,
        chunks: &mut IoBufs,
        bytes: &[u8],
        limit: usize,
    ) -> Result<(), Error>
        requires room { length self.old.bytes.items ≤ self.old.limit }
        requires enough { self.old.limit ≤ length self.old.bytes.items + length bytes.now }
        ensures chunks { let old = self.old.bytes.items in
            let front = take (self.old.limit - length old) bytes.now in
            OnOk result (chunks.new ≡ with_buf chunks.old (old ++ front)) }
        ensures tail { let rest = drop (self.old.limit - length self.old.bytes.items) bytes.now in
            OnOk result (AreSame self.new.bytes.items self.new.limit rest limit) }
        ensures same_chunks { OnErr result (chunks.new ≡ chunks.old) }
        ensures same_tail { OnErr result
            (AreSame self.new.bytes.items self.new.limit self.old.bytes.items self.old.limit) }
        ensures err { IsOkUnless result Error.OutOfMemory }
    {
        let (front, rest) = bytes.split_at(self.spare());
        let next = Tail::new(alloc, rest, limit)?;
        self.retire(chunks, front, next)
    }

    /// Fills the tail with these bytes and freezes it after the chunks; the next tail takes its
    /// place. The only error is `OutOfMemory`, and after it nothing has changed.
    fn retire(&mut self, chunks: &mut IoBufs, front: &[u8], next: Tail) -> Result<(), Error>
        ensures chunks { OnOk result
            (chunks.new ≡ with_buf chunks.old (self.old.bytes.items ++ front.now)) }
        ensures tail { OnOk result
            (AreSame self.new.bytes.items self.new.limit next.bytes.items next.limit) }
        ensures same_chunks { OnErr result (chunks.new ≡ chunks.old) }
        ensures same_tail { OnErr result
            (AreSame self.new.bytes.items self.new.limit self.old.bytes.items self.old.limit) }
        ensures err { IsOkUnless result Error.OutOfMemory }
    {
        let len = self.bytes.len();
        self.bytes.extend_from_slice(front)?;
        let end = self.bytes.len();
        let filled = mem::replace(&mut self.bytes, next.bytes);
        if let Err(refused) = chunks.append_front(filled, end) {
            self.bytes = refused.value;
            self.bytes.truncate(len);
            return Err(Error::OutOfMemory);
        }
        self.limit = next.limit;
        Ok(())
    }

    /// Freezes the tail's full pages after the chunks, and keeps the bytes after those pages. A
    /// tail with a full page, or with room for more than one, moves these bytes to memory of their
    /// own. The only error is `OutOfMemory`, and after it nothing has changed.
    pub fn freeze_full_pages(
        &mut self,
        alloc: Global,
        chunks: &mut IoBufs,
        page_size: usize,
    ) -> Result<(), Error>
        requires { 0 < page_size }
        ensures chunks { let old = self.old.bytes.items in
            let pages = take (length old / page_size * page_size) old in
            OnOk result (chunks.new ≡ with_buf chunks.old pages) }
        ensures bytes { let old = self.old.bytes.items in
            OnOk result (self.new.bytes.items ≡ drop (length old / page_size * page_size) old) }
        ensures limit { OnOk result
            (self.new.limit ≡ kept_limit self.old.bytes.items self.old.limit page_size) }
        ensures same_chunks { OnErr result (chunks.new ≡ chunks.old) }
        ensures same_tail { OnErr result
            (AreSame self.new.bytes.items self.new.limit self.old.bytes.items self.old.limit) }
        ensures err { IsOkUnless result Error.OutOfMemory }
    {
        if self.bytes.len() < page_size && self.limit <= page_size {
            return Ok(());
        }
        let full = self.bytes.len() / page_size * page_size;
        let rest = Tail::partial(alloc, &self.bytes[full..], page_size)?;
        let filled = mem::replace(&mut self.bytes, rest.bytes);
        if let Err(refused) = chunks.append_front(filled, full) {
            self.bytes = refused.value;
            return Err(Error::OutOfMemory);
        }
        self.limit = rest.limit;
        Ok(())
    }
}
