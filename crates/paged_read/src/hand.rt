// The bytes that a replay has at hand.
ghost use Rattle.std.specs.Prelude.{◌≡◌, ◌≤◌, ◌<◌, ◌+◌, ◌^◌, ◌++◌, [], length, take, drop, IfOk};
ghost use Rattle.std.specs.Prelude.{IfErr, OnErr, OnOk, IsOkUnless, All, ℕ, List, min, ◌-◌, ◌≢◌};
ghost use Rattle.std.specs.List.{flat_map};
ghost use Rattle.std.specs.Int.NonZero.{non_zero_u16_get};
ghost use Rattle.paged_read.specs.Hand.{payloads, payloads_from, payloads_at, IsCursor};

use bytes::Bytes;
use disk::{Error, IoBuf};
use page::CHECKSUM_SIZE;
use std::alloc::Global;
use std::collections::VecDeque;
use std::marker::Model;
use std::num::NonZeroU16;

/// The bytes of a footer.
const FOOTER: usize = CHECKSUM_SIZE as usize;

/// Why bytes aren't copied to a slice: fewer remain than the slice has room for. Nothing was taken.
#[derive(Clone, Copy, Debug, PartialEq, Eq)]
pub struct TooFew {
    /// How many bytes the slice has room for.
    pub requested: usize,
    /// How many bytes remain.
    pub available: usize,
}

/// The payloads of pages that were read, without the footers between them: runs of physical pages,
/// taken from the front.
#[derive(Drop)]
pub struct Hand {
    alloc: Global,
    page_size: NonZeroU16,
    // Whole physical pages each, or the bytes of a page that has no footer; none is empty.
    runs: VecDeque<IoBuf>,
    at: Cursor,
    remaining: usize,
}

/// A cursor into runs of pages: in which run, where in it the next byte stands, and how many bytes
/// of its page are left from there on. After the last page `left` is 0.
#[derive(Clone, Copy)]
struct Cursor {
    run: usize,
    start: usize,
    left: usize,
}

impl Cursor {
    /// A cursor at the first byte of a run.
    fn first(runs: &VecDeque<IoBuf>, page_size: usize, run: usize) -> Self
        requires some { 0 < page_size }
        requires runs { All (λ run. 0 < length run) runs.now.items }
        ensures run { result.run ≡ run }
        ensures cursor { IsCursor (drop run runs.now.items) result.start result.left }
        ensures fits { result.start + result.left < 2 ^ 64 }
        ensures bytes { let rest = drop run runs.now.items in
            payloads_from page_size rest result.start result.left
            ≡ flat_map (payloads page_size) rest }
    {
        let left = match runs.get(run) {
            None => 0,
            Some(run) => run.len().min(page_size),
        };
        Cursor {
            run,
            start: 0,
            left,
        }
    }

    /// A cursor at the first byte after this cursor's page.
    fn after(self, runs: &VecDeque<IoBuf>, page_size: usize) -> Self
        requires some { 0 < page_size }
        requires runs { All (λ run. 0 < length run) runs.now.items }
        requires cursor { IsCursor (drop self.run runs.now.items) self.start self.left }
        requires within { self.run < length runs.now.items }
        ensures run { (self.run ≤ result.run) × (result.run ≤ length runs.now.items) }
        ensures cursor { IsCursor (drop result.run runs.now.items) result.start result.left }
        ensures fits { result.start + result.left < 2 ^ 64 }
        ensures bytes { let P = page_size in let all = runs.now.items in
            drop self.left (payloads_at P all self.run self.start self.left)
            ≡ payloads_at P all result.run result.start result.left }
    {
        let len = runs[self.run].len();
        let end = self.start + self.left;
        let after = len - end;
        if after <= FOOTER {
            return Cursor::first(runs, page_size, self.run + 1);
        }
        Cursor {
            run: self.run,
            start: end + FOOTER,
            left: (after - FOOTER).min(page_size),
        }
    }

    /// The bytes that are left of this cursor's page.
    fn chunk(self, runs: &VecDeque<IoBuf>) -> &[u8]
        requires run { self.run ≤ length runs.now.items }
        requires cursor { IsCursor (drop self.run runs.now.items) self.start self.left }
        ensures len { length result.now ≡ self.left }
        ensures bytes { (P : ℕ) → let all = runs.now.items in
            result.now ≡ take self.left (payloads_at P all self.run self.start self.left) }
    {
        match runs.get(self.run) {
            None => &[],
            Some(run) => &run.as_ref()[self.start..self.start + self.left],
        }
    }

    /// This cursor once a run of `len` bytes is added. Where there was no run yet, a cursor at the
    /// byte `skip` of the new one.
    fn beside(self, runs: &VecDeque<IoBuf>, page_size: usize, len: usize, skip: usize) -> Self
        requires skip { (skip < page_size) × (skip < len) }
        ensures none { runs.now.items ≡ [] → result
            ≡ record { run = 0; start = skip; left = min len page_size - skip } }
        ensures some { runs.now.items ≢ [] → result ≡ self }
    {
        if !runs.is_empty() {
            return self;
        }
        Cursor {
            run: 0,
            start: skip,
            left: len.min(page_size) - skip,
        }
    }

    /// A cursor `count` bytes after this one, where there are as many.
    fn passed(self, runs: &VecDeque<IoBuf>, page_size: usize, count: usize) -> Self
        requires some { 0 < page_size }
        requires runs { All (λ run. 0 < length run) runs.now.items }
        requires run { self.run ≤ length runs.now.items }
        requires cursor { IsCursor (drop self.run runs.now.items) self.start self.left }
        requires fits { self.start + self.left < 2 ^ 64 }
        requires there { let P = page_size in let all = runs.now.items in
            count ≤ length (payloads_at P all self.run self.start self.left) }
        ensures run { result.run ≤ length runs.now.items }
        ensures cursor { IsCursor (drop result.run runs.now.items) result.start result.left }
        ensures fits { result.start + result.left < 2 ^ 64 }
        ensures bytes { let P = page_size in let all = runs.now.items in
            payloads_at P all result.run result.start result.left
            ≡ drop count (payloads_at P all self.run self.start self.left) }
    {
        let mut at = self;
        let mut more = count;
        while at.left > 0 && at.left <= more {
            more -= at.left;
            at = at.after(runs, page_size);
        }
        Cursor {
            run: at.run,
            start: at.start + more,
            left: at.left - more,
        }
    }
}

/// A copy of the `count` bytes from a cursor on. `OutOfMemory` alone.
fn copied(
    alloc: Global,
    runs: &VecDeque<IoBuf>,
    page_size: usize,
    from: Cursor,
    count: usize,
) -> Result<Vec<u8>, Error>
    requires some { 0 < page_size }
    requires runs { All (λ run. 0 < length run) runs.now.items }
    requires run { from.run ≤ length runs.now.items }
    requires cursor { IsCursor (drop from.run runs.now.items) from.start from.left }
    requires there { let P = page_size in let all = runs.now.items in
        count ≤ length (payloads_at P all from.run from.start from.left) }
    ensures bytes { let P = page_size in let all = runs.now.items in
        IfOk result (λ bytes.
        bytes.items ≡ take count (payloads_at P all from.run from.start from.left)) }
    ensures err { IsOkUnless result Error.OutOfMemory }
{
    let mut bytes = Vec::with_capacity(alloc, count)?;
    let mut at = from;
    while bytes.len() < count {
        let chunk = at.chunk(runs);
        let len = chunk.len().min(count - bytes.len());
        bytes.extend_from_slice(&chunk[..len])?;
        at = at.after(runs, page_size);
    }
    Ok(bytes)
}

/// How many bytes of payloads a run of `len` bytes has.
fn payload_bytes(page_size: usize, len: usize) -> usize
    requires { page_size + 12 < 2 ^ 64 }
    ensures { (run : List ℕ) → length run ≡ len → result ≡ length (payloads page_size run) }
{
    let size = page_size + FOOTER;
    len / size * page_size + (len % size).min(page_size)
}

/// Drops the first `count` runs.
fn drop_front(runs: &mut VecDeque<IoBuf>, count: usize)
    ensures { runs.new.items ≡ drop count runs.old.items }
{
    for _ in 0..count {
        runs.pop_front();
    }
}

impl Model for Hand {
    ghost use Rattle.std.specs.Prelude.{◌≡◌};
    ghost use Rattle.std.specs.Int.NonZero.{non_zero_u16_get};
    ghost use Rattle.paged_read.specs.Hand.{HandState, IsHand, payloads_from};

    ghost Value = { HandState };

    ghost view = { λ h. let P = non_zero_u16_get h.page_size in
        record { page_size = P; bytes = payloads_from P h.runs.items h.at.start h.at.left } };

    ghost invariant = { λ h. (h.at.run ≡ 0)
        × IsHand (non_zero_u16_get h.page_size) h.runs.items h.at.start h.at.left h.remaining };
}

impl Hand {
    /// An empty hand, for pages of `page_size` logical bytes.
    pub fn new(alloc: Global, page_size: NonZeroU16) -> Self
        ensures page_size { result.page_size ≡ non_zero_u16_get page_size }
        ensures bytes { result.bytes ≡ [] }
    {
        Hand {
            alloc,
            page_size,
            runs: VecDeque::new(alloc),
            at: Cursor {
                run: 0,
                start: 0,
                left: 0,
            },
            remaining: 0,
        }
    }

    /// How many bytes the hand has.
    pub fn remaining(&self) -> usize
        ensures { result ≡ length self.now.bytes }
    {
        self.remaining
    }

    /// The first bytes, up to the end of their page, without a copy. Empty only where the hand is
    /// empty.
    pub fn chunk(&self) -> &[u8]
        ensures chunk { result.now ≡ take (length result.now) self.now.bytes }
        ensures some { result.now ≡ [] → self.now.bytes ≡ [] }
    {
        self.at.chunk(&self.runs)
    }

    /// Drops all bytes.
    pub fn clear(&mut self)
        ensures page_size { self.new.page_size ≡ self.old.page_size }
        ensures bytes { self.new.bytes ≡ [] }
    {
        self.runs.clear();
        self.at.start = 0;
        self.at.left = 0;
        self.remaining = 0;
    }

    /// Passes over `count` bytes, or over all if there are fewer.
    pub fn advance(&mut self, count: usize)
        ensures page_size { self.new.page_size ≡ self.old.page_size }
        ensures bytes { self.new.bytes ≡ drop count self.old.bytes }
    {
        let count = count.min(self.remaining);
        let page_size = usize::from(self.page_size.get());
        let at = self.at.passed(&self.runs, page_size, count);
        drop_front(&mut self.runs, at.run);
        self.at = Cursor {
            run: 0,
            start: at.start,
            left: at.left,
        };
        self.remaining -= count;
    }

    /// Adds a run of physical pages, without the first `skip` bytes of its first page. `skip` must
    /// be 0 unless the hand is empty. The only error is `OutOfMemory`, and it leaves the hand as it
    /// was.
    pub fn push(&mut self, run: IoBuf, skip: usize) -> Result<(), Error>
        requires skip { (skip < self.old.page_size) × (0 < length self.old.bytes → skip ≡ 0) }
        requires fits { length self.old.bytes + length run < 2 ^ 64 }
        ensures page_size { self.new.page_size ≡ self.old.page_size }
        ensures bytes { let more = drop skip (payloads self.old.page_size run) in
            OnOk result (self.new.bytes ≡ self.old.bytes ++ more) }
        ensures same { OnErr result (self.new ≡ self.old) }
        ensures err { IsOkUnless result Error.OutOfMemory }
    {
        if run.len() <= skip {
            return Ok(());
        }
        let page_size = usize::from(self.page_size.get());
        let at = self.at.beside(&self.runs, page_size, run.len(), skip);
        let more = payload_bytes(page_size, run.len()) - skip;
        self.runs.try_reserve(1)?;
        self.runs.push_back_reserved(run);
        self.at = at;
        self.remaining += more;
        Ok(())
    }

    /// Takes the first `count` bytes, which must be there. If they lie in one page they share its
    /// memory, else they are copied. The only error is `OutOfMemory`, and then nothing is taken.
    pub fn copy_to_bytes(&mut self, count: usize) -> Result<IoBuf, Error>
        requires { count ≤ length self.old.bytes }
        ensures page_size { self.new.page_size ≡ self.old.page_size }
        ensures taken { IfOk result (λ bytes. bytes ≡ take count self.old.bytes) }
        ensures bytes { OnOk result (self.new.bytes ≡ drop count self.old.bytes) }
        ensures same { OnErr result (self.new ≡ self.old) }
        ensures err { IsOkUnless result Error.OutOfMemory }
    {
        let bytes = match self.runs.front() {
            Some(run) if count <= self.at.left => {
                run.slice(self.at.start, self.at.start + count)?
            }
            _ => {
                let page_size = usize::from(self.page_size.get());
                let bytes = copied(self.alloc, &self.runs, page_size, self.at, count)?;
                IoBuf::from(Bytes::from_vec(bytes)?)
            }
        };
        self.advance(count);
        Ok(bytes)
    }

    /// Takes as many bytes as the slice has room for. Where fewer remain the call answers `TooFew`,
    /// and nothing changes.
    pub fn try_copy_to_slice(&mut self, out: &mut [u8]) -> Result<(), TooFew>
        ensures page_size { self.new.page_size ≡ self.old.page_size }
        ensures taken { OnOk result (out.new ≡ take (length out.old) self.old.bytes) }
        ensures bytes { OnOk result (self.new.bytes ≡ drop (length out.old) self.old.bytes) }
        ensures same { OnErr result ((self.new ≡ self.old) × (out.new ≡ out.old)) }
        ensures few { IfErr result (λ few. (few.requested ≡ length out.old)
            × (few.available ≡ length self.old.bytes) × (few.available < few.requested)) }
        ensures enough { OnOk result (length out.old ≤ length self.old.bytes) }
    {
        if self.remaining < out.len() {
            return Err(TooFew {
                requested: out.len(),
                available: self.remaining,
            });
        }
        let mut done = 0;
        while done < out.len() {
            let chunk = self.chunk();
            let len = chunk.len().min(out.len() - done);
            out[done..done + len].copy_from_slice(&chunk[..len]);
            self.advance(len);
            done += len;
        }
        Ok(())
    }
}
