// Where items of one size stand, by their numbers.
ghost use Rattle.std.specs.Prelude.{◌*◌, ◌<◌, ◌^◌};
ghost use Rattle.std.specs.Int.NonZero.{non_zero_usize_get};
ghost use Rattle.items.specs.Calls.{FindsAll, ItemIsAt, ItemsAreAt};

use disk::Error;
use std::alloc::Global;
use std::num::NonZeroUsize;

/// The logical offset at which the item of a number begins, of `count` items of `size` bytes.
///
/// `OffsetOverflow` where the item would begin or end past the greatest `u64`, else
/// `BlobInsufficientLength` where there is no such item.
pub fn offset_of(i: u64, count: u64, size: NonZeroUsize) -> Result<u64, Error>
    requires { count * non_zero_usize_get size < 2 ^ 64 }
    ensures { ItemIsAt (non_zero_usize_get size) count i result }
{
    let len = size.get() as u64;
    let Some(offset) = i.checked_mul(len) else {
        return Err(Error::OffsetOverflow);
    };
    if offset.checked_add(len).is_none() {
        return Err(Error::OffsetOverflow);
    }
    if count <= i {
        return Err(Error::BlobInsufficientLength);
    }
    Ok(offset)
}

/// Whether there are items of all these numbers, of `count` items. The first number that is no
/// item's decides the error.
fn find_all(indices: &[u64], count: u64, size: NonZeroUsize) -> Result<(), Error>
    requires { count * non_zero_usize_get size < 2 ^ 64 }
    ensures { FindsAll (non_zero_usize_get size) count indices.now result }
{
    for i in indices {
        offset_of(*i, count, size)?;
    }
    Ok(())
}

/// Where the items of these numbers begin, of `count` items. The first number that is no item's
/// decides the error, before memory is asked for.
pub fn offsets_of(
    alloc: Global,
    indices: &[u64],
    count: u64,
    size: NonZeroUsize,
) -> Result<Vec<u64>, Error>
    requires { count * non_zero_usize_get size < 2 ^ 64 }
    ensures { ItemsAreAt (non_zero_usize_get size) count indices.now result }
{
    find_all(indices, count, size)?;
    let len = size.get() as u64;
    let mut offsets = Vec::with_capacity(alloc, indices.len())?;
    for i in indices {
        offsets.push(*i * len)?;
    }
    Ok(offsets)
}
