// The blob that workloads are played on.
ghost use Rattle.std.specs.Prelude.{◌≡◌, length, IfOk};
ghost use Rattle.cache.specs.Pages.{IsFresh};
ghost use Rattle.disk.specs.History.{life_of};
ghost use Rattle.paged.specs.Ready.{IsReady};

use anyhow::Result;
use cache::CacheRef;
use disk::{Blob, Counted, Error, VecBlob};
use page::{CHECKSUM_SIZE, Sum};
use paged::{Writer, recover};
use std::alloc::Global;
use std::num::{NonZeroU16, NonZeroUsize};

/// The logical bytes of a page; with its footer it has 4,096.
pub const PAGE_SIZE: u16 = 4084;

/// How many bytes a writer buffers.
pub const CAPACITY: usize = 65536;

/// The physical bytes of a page.
pub const PHYSICAL_PAGE: u64 = PAGE_SIZE as u64 + CHECKSUM_SIZE;

/// A blob in memory that counts what it is asked for.
pub type Device = Counted<VecBlob>;

/// A blob and its cache.
#[derive(Drop)]
pub struct Stage {
    pub alloc: Global,
    pub blob: Device,
    pub cache: CacheRef,
}

impl Stage {
    /// An empty blob, with memory for the pages of so many logical bytes. All of that memory was
    /// written to before. The cache may hold all of the pages if `cached`, or else one. It stands
    /// in a box, since whoever owns it lets it go wherever a call may fail.
    pub fn new(alloc: Global, bytes: u64, cached: bool) -> Result<Box<Self>>
        ensures { IfOk result (λ stage. IsFresh stage.value.cache) }
    {
        let page_size = NonZeroU16::new(PAGE_SIZE).unwrap_or(NonZeroU16::MIN);
        let pages = (bytes / u64::from(PAGE_SIZE)).saturating_add(2);
        let room = pages.saturating_mul(PHYSICAL_PAGE) as usize;
        let held = if cached { pages as usize } else { 1 };
        let held = NonZeroUsize::new(held).unwrap_or(NonZeroUsize::MIN);
        let mut memory = Vec::with_capacity(alloc, room)?;
        memory.resize(room, 0)?;
        memory.clear();
        let cache = CacheRef::new(alloc, page_size, held)?;
        Ok(Self::over(alloc, memory, cache)?)
    }

    /// An empty blob, and a cache that may hold so many pages.
    pub fn holding(alloc: Global, pages: u64) -> Result<Box<Self>> {
        let page_size = NonZeroU16::new(PAGE_SIZE).unwrap_or(NonZeroU16::MIN);
        let held = NonZeroUsize::new(pages as usize).unwrap_or(NonZeroUsize::MIN);
        let cache = CacheRef::new(alloc, page_size, held)?;
        Ok(Self::over(alloc, Vec::new(alloc), cache)?)
    }

    // A blob with these bytes, and this cache, in a box.
    fn over(alloc: Global, bytes: Vec<u8>, cache: CacheRef) -> Result<Box<Self>, Error>
        ensures { IfOk result (λ stage. stage.value.cache ≡ cache) }
    {
        let blob = Counted::new(VecBlob::from_vec(bytes));
        Ok(Box::new(alloc, Stage { alloc, blob, cache })?)
    }

    /// Empties the blob, and answers its writer.
    pub fn restart<H: Sum>(&mut self) -> Result<Writer<Device, H>, Error>
        requires { IsFresh self.old.cache }
        ensures { IfOk result (λ writer.
            IsReady H.sum_of writer self.new.cache (life_of self.new.blob.inner.history)) }
    {
        self.blob.resize(0)?;
        self.recover::<H>(NonZeroUsize::MIN)
    }

    /// Recovers the blob with a buffer of so many bytes, and answers its writer.
    pub fn recover<H: Sum>(&mut self, buffer_size: NonZeroUsize) -> Result<Writer<Device, H>, Error>
        requires { IsFresh self.old.cache }
        ensures { IfOk result (λ writer.
            IsReady H.sum_of writer self.new.cache (life_of self.new.blob.inner.history)) }
    {
        let size = self.blob.inner.len();
        recovered(
            self.alloc,
            &mut self.blob,
            size,
            &mut self.cache,
            buffer_size,
        )
    }
}

/// Recovers a blob of `size` physical bytes with a buffer of so many bytes, and answers its writer.
pub fn recovered<B: Blob, H: Sum>(
    alloc: Global,
    blob: &mut B,
    size: u64,
    cache: &mut CacheRef,
    buffer_size: NonZeroUsize,
) -> Result<Writer<B, H>, Error>
    requires fresh { IsFresh cache.old }
    requires length { size ≡ length (B.life blob.old).present.readable }
    ensures { IfOk result (λ writer. IsReady H.sum_of writer cache.new (B.life blob.new)) }
{
    let recovery = recover::<B, H>(alloc, blob, size, CAPACITY, cache, buffer_size)?;
    Ok(Writer::from(recovery))
}
