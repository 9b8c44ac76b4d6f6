// The cache alone, full of pages.
ghost use Rattle.std.specs.Prelude.{◌≡◌, length};

use crate::done::{Done, Start};
use crate::play::record;
use crate::reads::scattered;
use crate::stage::{PAGE_SIZE, Stage};
use anyhow::Result;
use cache::CacheRef;
use std::alloc::Global;

/// What an operation does with a full cache.
#[derive(Clone, Copy)]
enum Held {
    /// Reads so many bytes at random in the last so many pages.
    Read(usize, u64),
    /// Puts a new page.
    Put,
}

/// Something that is played with a full cache round by round.
#[derive(Clone, Copy)]
pub struct HeldWorkload {
    pub name: &'static str,
    /// How many pages the cache holds.
    pages: u64,
    held: Held,
    /// The operations of a round.
    count: u64,
}

impl HeldWorkload {
    fn reading(name: &'static str, pages: u64, last: u64) -> Self {
        HeldWorkload {
            name,
            pages,
            held: Held::Read(100, last),
            count: 4096,
        }
    }

    fn putting(name: &'static str, pages: u64) -> Self {
        HeldWorkload {
            name,
            pages,
            held: Held::Put,
            count: 1024,
        }
    }

    /// The bytes that an operation is asked for.
    fn bytes(&self) -> usize {
        match self.held {
            Held::Read(len, _) => len,
            Held::Put => usize::from(PAGE_SIZE),
        }
    }
}

/// All workloads of a full cache, in the order in which they are played.
pub fn held_workloads() -> [HeldWorkload; 6] {
    [
        HeldWorkload::reading("cache of 1000, read 100 B", 1000, 1000),
        HeldWorkload::reading("cache of 1000, read 100 B of the last 100", 1000, 100),
        HeldWorkload::putting("cache of 1000, put", 1000),
        HeldWorkload::reading("cache of 100000, read 100 B", 100_000, 100_000),
        HeldWorkload::reading("cache of 100000, read 100 B of the last 100", 100_000, 100),
        HeldWorkload::putting("cache of 100000, put", 100_000),
    ]
}

/// Plays so many rounds of a workload. A round of puts goes on where the one before it ended, so
/// that each puts new pages.
pub fn play_held(rt: &HostRuntime, workload: &HeldWorkload, rounds: u64) -> Result<Done> {
    let mut done = Done::default();
    let mut stage = Stage::holding(rt.alloc(), workload.pages)?;
    let page = record(rt.alloc(), usize::from(stage.cache.page_size().get()))?;
    put_all(&mut stage.cache, &page, 0, workload.pages);
    let mut buf = record(rt.alloc(), workload.bytes())?;
    let offsets = offsets_of(rt.alloc(), workload)?;
    let mut next = workload.pages;
    for _ in 0..rounds {
        let start = Start::now(rt, &stage.blob)?;
        match workload.held {
            Held::Read(..) => {
                read_all_held(&stage.cache, &mut buf, &offsets);
            }
            Held::Put => put_all(&mut stage.cache, &page, next, workload.count),
        }
        start.end(rt, &stage.blob, &mut done)?;
        next = next.saturating_add(workload.count);
    }
    done.operations = rounds.saturating_mul(workload.count);
    done.bytes = done.operations.saturating_mul(workload.bytes() as u64);
    Ok(done)
}

/// Where the reads of a workload begin: at random in the pages that were put last.
fn offsets_of(alloc: Global, workload: &HeldWorkload) -> Result<Vec<u64>> {
    let Held::Read(len, last) = workload.held else {
        return Ok(Vec::new(alloc));
    };
    let size = u64::from(PAGE_SIZE);
    let span = last.saturating_mul(size).saturating_sub(len as u64);
    let begin = workload.pages.saturating_sub(last).saturating_mul(size);
    let mut offsets = scattered(alloc, workload.count, span)?;
    for offset in offsets.iter_mut() {
        *offset = offset.saturating_add(begin);
    }
    Ok(offsets)
}

/// Puts so many pages of these bytes, the first of them under this number.
fn put_all(cache: &mut CacheRef, page: &[u8], first: u64, count: u64)
    requires { length page.now ≡ cache.old.page_size }
    ensures { cache.new.page_size ≡ cache.old.page_size }
{
    for i in 0..count {
        cache.keep(0, first.saturating_add(i), page);
    }
}

/// Reads bytes at each of these offsets, as far as pages in the cache have them, and answers how
/// many bytes there were.
fn read_all_held(cache: &CacheRef, buf: &mut [u8], offsets: &[u64]) -> u64 {
    let mut had = 0u64;
    for &offset in offsets {
        had = had.saturating_add(cache.read_cached(0, buf, offset) as u64);
    }
    had
}
