// How a blob is served.
use std::num::{NonZeroU16, NonZeroUsize};

/// How a blob is served. The default has the default sizes of `pagedd`, and lets a recovery give up
/// 4,096 physical bytes. `pagedd` itself looks at the file first, and computes from it how many
/// bytes may go.
#[derive(Clone, Copy, Debug)]
pub struct Setting {
    /// The logical bytes of a page.
    pub page_size: NonZeroU16,
    /// How many logical bytes the writer may hold back. They are rounded up to whole pages, at
    /// least two pages.
    pub capacity: usize,
    /// The size in bytes of a read of the recovery, which reads as many whole pages as fit, and at
    /// least one.
    pub buffer_size: NonZeroUsize,
    /// The pages that the cache may hold.
    pub pages: NonZeroUsize,
    /// Whether the client may only read. Then each request is refused that changes the content,
    /// syncs, or ends the recovery. The recovery itself still runs, and may cut the file: if the
    /// file must not change, serve a copy of it in memory.
    pub read_only: bool,
    /// How many physical bytes at the end the recovery may give up: those that it cuts, and if the
    /// last page of the text (what a recovery keeps) is torn, those of that page. [`paged::Survey`]
    /// has what torn means.
    pub allowed: u64,
}

impl Default for Setting {
    fn default() -> Self {
        Setting {
            page_size: NonZeroU16::new(4084).unwrap(),
            capacity: 65_536,
            buffer_size: NonZeroUsize::new(65_536).unwrap(),
            pages: NonZeroUsize::new(1024).unwrap(),
            read_only: false,
            allowed: 4096,
        }
    }
}
