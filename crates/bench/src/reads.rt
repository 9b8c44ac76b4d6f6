// What is read.
ghost use Rattle.std.specs.Prelude.{◌≡◌, true};
ghost use Rattle.page.specs.Geometry.{AreInOrder};
ghost use Rattle.paged_read.specs.Batch.{ranges_of};

use crate::stage::PAGE_SIZE;
use crate::workload::{MANY, Work, Workload};
use anyhow::Result;
use std::alloc::Global;

/// How far apart reads below the tip begin, in bytes: about two to a page, and some in two pages.
const STRIDE: u64 = 2000;

/// The logical bytes in which reads at random begin.
const SPAN: u64 = 4 << 20;

/// What a workload reads: where its reads begin, and the blob of which it reads.
#[derive(Drop)]
pub struct Reads {
    pub offsets: Vec<u64>,
    /// The logical bytes of the blob, or some less.
    pub size: u64,
    /// Whether the blob is synced, so that full pages are read.
    pub synced: bool,
    /// Whether the cache may hold all of its pages, or else one.
    pub cached: bool,
}

impl Reads {
    /// What this workload reads. A synced blob has a page more than that, since its last bytes
    /// stand in the tip.
    pub fn of(alloc: Global, workload: &Workload) -> Result<Self> {
        let (count, len) = (workload.count, workload.bytes() as u64);
        let (offsets, end, cached) = match workload.work {
            Work::ReadRandom(_, cached) => (scattered(alloc, count, SPAN)?, SPAN, cached),
            Work::ReadMany(len, cached) => {
                let part = SPAN / MANY as u64;
                (spread(alloc, MANY as u64, part, len as u64)?, SPAN, cached)
            }
            Work::ReadBelow(_) => (
                strided(alloc, count, STRIDE)?,
                count.saturating_mul(STRIDE),
                false,
            ),
            _ => (
                strided(alloc, count, len)?,
                count.saturating_mul(len),
                false,
            ),
        };
        let synced = !matches!(workload.work, Work::ReadTip(_));
        let spare = if synced { u64::from(PAGE_SIZE) } else { 0 };
        Ok(Reads {
            offsets,
            size: end.saturating_add(spare),
            synced,
            cached,
        })
    }
}

/// Offsets that begin so many bytes apart, the first at 0.
fn strided(alloc: Global, count: u64, stride: u64) -> Result<Vec<u64>> {
    let offsets = (0..count).map(|i| i.saturating_mul(stride)).collect(alloc)?;
    Ok(offsets)
}

/// Offsets below `span` at random, and the same ones each time: the upper bits of a linear
/// congruential generator, with the numbers that Knuth's MMIX takes.
pub fn scattered(alloc: Global, count: u64, span: u64) -> Result<Vec<u64>> {
    let mut offsets = Vec::new(alloc);
    let mut state = 1u64;
    for _ in 0..count {
        state = state
            .wrapping_mul(6_364_136_223_846_793_005)
            .wrapping_add(1_442_695_040_888_963_407);
        offsets.push((state >> 33) % span.max(1))?;
    }
    Ok(offsets)
}

/// One offset at random in each of `count` parts of `part` bytes, at least `len` bytes before the
/// end of the part.
fn spread(alloc: Global, count: u64, part: u64, len: u64) -> Result<Vec<u64>> {
    let mut offsets = Vec::new(alloc);
    let mut begin = 0u64;
    let within = scattered(alloc, count, part.saturating_sub(len))?;
    for &offset in &within {
        offsets.push(begin.saturating_add(offset))?;
        begin = begin.saturating_add(part);
    }
    Ok(offsets)
}

/// Whether ranges of `len` bytes at these offsets are in order, without overlaps.
pub fn are_in_order(offsets: &[u64], len: usize) -> bool
    ensures { result ≡ true → AreInOrder (ranges_of len offsets.now) }
{
    let mut end = 0u64;
    for &offset in offsets {
        if offset < end {
            return false;
        }
        let Some(next) = offset.checked_add(len as u64) else {
            return false;
        };
        end = next;
    }
    true
}
