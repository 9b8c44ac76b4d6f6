// Sizes for a program that has no reason for others.
ghost use Rattle.std.specs.Prelude.{◌≡◌, IfOk, IsOkUnless};
ghost use Rattle.std.specs.Int.NonZero.{non_zero_u16_get, non_zero_usize_get};
ghost use Rattle.cache.specs.CacheState.{empty_cache};

use cache::CacheRef;
use disk::Error;
use std::alloc::Global;
use std::num::{NonZeroU16, NonZeroUsize};

/// How many logical bytes a writer's buffer may hold: 64 KiB. It is for the `capacity` of
/// [`crate::Writer::new`] and [`crate::recover`].
pub const RECOMMENDED_CAPACITY: usize = 65_536;

/// How many physical bytes a recovery may cut although a page among them has a value: 1 MiB. It is
/// for the `limit` of [`crate::Survey::verdict`]. A crash leaves such pages of what was written
/// after the last completed sync; a program that writes more between two syncs wants a greater
/// limit.
pub const RECOMMENDED_LIMIT: u64 = 1_048_576;

/// The logical size of a page, in bytes: 4,084. With its footer of 12 bytes such a page has 4,096
/// physical bytes, as a block of most disks has.
pub fn recommended_page_size() -> NonZeroU16
    ensures { non_zero_u16_get result ≡ 4084 }
{
    NonZeroU16::new(4_084).unwrap()
}

/// The most physical bytes that one read of a recovery or of a replay has: 64 KiB. It is for the
/// `buffer_size` of [`crate::recover`] and [`crate::survey`].
pub fn recommended_buffer_size() -> NonZeroUsize
    ensures { non_zero_usize_get result ≡ 65536 }
{
    NonZeroUsize::new(65_536).unwrap()
}

/// A cache of at most 64 pages of [`recommended_page_size`] logical bytes, which holds none and has
/// given no id. It takes 256 KiB. The only error is `OutOfMemory`.
pub fn recommended_cache(alloc: Global) -> Result<CacheRef, Error>
    ensures made { IfOk result (λ c. c ≡ empty_cache 4084 64) }
    ensures err { IsOkUnless result Error.OutOfMemory }
{
    CacheRef::new(
        alloc,
        recommended_page_size(),
        NonZeroUsize::new(64).unwrap(),
    )
}
