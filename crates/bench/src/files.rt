// Appends on a file of the system, beside a plain file that is asked for the same.
ghost use Rattle.cache.specs.Pages.{IsFresh};

use crate::stage::{PAGE_SIZE, PHYSICAL_PAGE, recovered};
use crate::work::append_synced;
use anyhow::Result;
use cache::CacheRef;
use disk::Blob;
use file::FileBlob;
use page::Sum;
use std::fs::{File, OpenOptions};
use std::num::{NonZeroU16, NonZeroUsize};
use std::os::unix::fs::FileExt;
use std::time::Instant;
use std::{fmt, fs};

/// The logical bytes of an append.
const RECORD: usize = 100;

/// What the layer and a plain file took for as many appends, each with a sync.
#[derive(Clone, Copy)]
pub struct Compared {
    appends: u64,
    layer: u128,
    plain: u128,
}

impl fmt::Display for Compared {
    fn fmt<W: fmt::Write>(&self, f: &mut fmt::Formatter<W>) -> fmt::Result {
        let each = |nanoseconds: u128| nanoseconds / 1000 / u128::from(self.appends.max(1));
        let percent = self.layer.saturating_mul(100) / self.plain.max(1);
        write!(
            f,
            "{} appends of {RECORD} B with a sync each: {} us on a blob over a file, {} us on a plain \
             file, {}.{:02} times as long",
            self.appends,
            each(self.layer),
            each(self.plain),
            percent / 100,
            percent % 100
        )
    }
}

/// Appends records to a new file, each with a sync, by the layer, and then writes and syncs the
/// same pages of another by the system's calls alone. Both are removed again.
pub fn compare<H: Sum>(rt: &HostRuntime, path: &str, appends: u64) -> Result<Compared> {
    // This fails if the file is already there, which then stays as it is.
    drop(File::create_new(rt, path)?);
    let layer = append_by_layer::<H>(rt, path, appends)?;
    fs::remove_file(rt, path)?;
    let plain = append_plainly(rt, path, appends)?;
    fs::remove_file(rt, path)?;
    Ok(Compared {
        appends,
        layer,
        plain,
    })
}

// The nanoseconds that the layer takes.
fn append_by_layer<H: Sum>(rt: &HostRuntime, path: &str, appends: u64) -> Result<u128> {
    let mut blob = opened(rt, path)?;
    let page_size = NonZeroU16::new(PAGE_SIZE).unwrap_or(NonZeroU16::MIN);
    let mut cache = CacheRef::new(rt.alloc(), page_size, NonZeroUsize::MIN)?;
    append_to::<H>(rt, &mut *blob, &mut cache, appends)
}

// A file as a blob, in a box, since whoever owns one lets it go wherever a call may fail.
fn opened(rt: &HostRuntime, path: &str) -> Result<Box<FileBlob>> {
    let blob = file::open(rt, path)?;
    Ok(Box::new(rt.alloc(), blob)?)
}

// The nanoseconds of the appends, each with a sync.
fn append_to<H: Sum>(
    rt: &HostRuntime,
    blob: &mut FileBlob,
    cache: &mut CacheRef,
    appends: u64,
) -> Result<u128>
    requires fresh { IsFresh cache.old }
{
    let size = blob.len();
    let reads = NonZeroUsize::MIN;
    let writer = recovered::<FileBlob, H>(rt.alloc(), blob, size, cache, reads)?;
    let start = Instant::now(rt)?;
    append_synced(writer, blob, cache, &[0x5A; RECORD], appends, 1)?;
    Ok(start.elapsed(rt)?.as_nanos())
}

// The nanoseconds that the system takes for the pages that each of these appends touches.
fn append_plainly(rt: &HostRuntime, path: &str, appends: u64) -> Result<u128> {
    let file = OpenOptions::new()
        .read(true)
        .write(true)
        .create_new(true)
        .open(rt, path)?;
    let pages = [0x5A; 2 * PHYSICAL_PAGE as usize];
    let page_size = u64::from(PAGE_SIZE);
    let start = Instant::now(rt)?;
    for append in 0..appends {
        let begin = append.saturating_mul(RECORD as u64);
        let first = begin / page_size;
        let last = begin.saturating_add(RECORD as u64 - 1) / page_size;
        let len = if first == last {
            pages.len() / 2
        } else {
            pages.len()
        };
        file.write_all_at(&pages[..len], first.saturating_mul(PHYSICAL_PAGE))?;
        file.sync_all()?;
    }
    Ok(start.elapsed(rt)?.as_nanos())
}
