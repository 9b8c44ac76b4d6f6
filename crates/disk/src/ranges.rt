// Several ranges of bytes: lists of them, and the bytes that stand there.
ghost use Rattle.std.specs.Prelude.{◌≡◌, ◌↔◌, ◌++◌, ◌∷◌, [], IfOk, OnOk, true, false};
ghost use Rattle.disk.specs.Disk.{IsWithin};
ghost use Rattle.disk.specs.Memory.{AreRanges, AreRangesInOrder, delivery};
ghost use Rattle.disk.specs.StartedRead.{answer_of};

use crate::{Error, IoBuf};
use std::alloc::{AllocError, Global};
use std::marker::Model;
use std::snapshot::Snapshot;

/// Ranges of bytes, each an offset and a length.
#[derive(Drop)]
pub struct Ranges {
    ranges: Vec<(u64, usize)>,
}

impl Model for Ranges {
    ghost use Rattle.std.specs.Prelude.{List, ℕ};

    ghost Value = { List (ℕ × ℕ) };

    ghost view = { λ r. r.ranges.items };
}

impl Ranges {
    /// A copy of these ranges.
    pub fn from_slice(alloc: Global, ranges: &[(u64, usize)]) -> Result<Self, AllocError>
        ensures { IfOk result (λ copy. copy ≡ ranges.now) }
    {
        Ok(Ranges {
            ranges: Vec::from_slice(alloc, ranges)?,
        })
    }

    /// A copy of the ranges as a vector.
    pub fn to_vec(&self, alloc: Global) -> Result<Vec<(u64, usize)>, AllocError>
        ensures { IfOk result (λ copy. copy.items ≡ self.now) }
    {
        Vec::from_slice(alloc, &self.ranges)
    }
}

/// Ranges as ghost data: nothing of them is left at run time.
#[cycle(listed)]
#[derive(Drop)]
pub struct Listed {
    last: Range,
}

// The last range, after a list of the others.
#[cycle(listed)]
#[derive(Drop)]
enum Range {
    Nothing,
    After(Snapshot<Snapshot<Listed>>, u64, usize),
}

impl Model for Listed {
    ghost use Rattle.std.specs.Prelude.{List, ℕ, length};

    ghost Value = { List (ℕ × ℕ) };

    ghost use Rattle.disk.specs.Past.{listed_of};

    ghost view = { λ l. listed_of l.last };

    ghost size = { λ ranges. length ranges };

    ghost use Rattle.std.proofs.Common.{arith, length-append};

    ghost size_decreases = { λ a h. Prim.grind (arith, length-append) };
}

impl Listed {
    /// The list of these ranges.
    pub fn of(ranges: &[(u64, usize)]) -> Snapshot<Self>
        ensures { result.value ≡ ranges.now }
    {
        let mut listed = Listed::nothing();
        for &(offset, len) in ranges {
            listed = Listed::after(&listed, offset, len);
        }
        listed
    }

    // The list of no ranges.
    fn nothing() -> Snapshot<Self>
        ensures { result.value ≡ [] }
    {
        let listed = Listed {
            last: Range::Nothing,
        };
        Snapshot::of(&listed)
    }

    // The list with one range more at its end.
    fn after(before: &Snapshot<Self>, offset: u64, len: usize) -> Snapshot<Self>
        ensures { result.value ≡ before.now.value ++ (offset, len) ∷ [] }
    {
        let listed = Listed {
            last: Range::After(Snapshot::of(before), offset, len),
        };
        Snapshot::of(&listed)
    }
}

/// Puts a copy of each range's bytes into `out`, with the range's number, in rising order; what
/// `out` held is gone. `BlobInsufficientLength` where a range passes the end of `bytes`, and else
/// no error except `OutOfMemory`.
pub fn copy_ranges(
    alloc: Global,
    bytes: &[u8],
    ranges: &[(u64, usize)],
    out: &mut Vec<(usize, IoBuf)>,
) -> Result<(), Error>
    ensures ranges { AreRanges ranges.now bytes.now out.new.items result }
    ensures rising { OnOk result (out.new.items ≡ delivery false ranges.now bytes.now) }
{
    // No memory is asked for before all ranges are known to lie within.
    if !are_within(ranges, bytes) {
        return Err(Error::BlobInsufficientLength);
    }
    out.clear();
    out.try_reserve(ranges.len())?;
    for (index, &(offset, len)) in ranges.iter().enumerate() {
        let start = offset as usize;
        let range = IoBuf::copy_from_slice(alloc, &bytes[start..start + len])?;
        out.push((index, range))?;
    }
    Ok(())
}

/// A copy of each range's bytes, in the order of the ranges. `BlobInsufficientLength` where a range
/// passes the end of `bytes`, and else no error except `OutOfMemory`.
pub fn copy_in_order(
    alloc: Global,
    bytes: &[u8],
    ranges: &[(u64, usize)],
) -> Result<Vec<IoBuf>, Error>
    ensures { AreRangesInOrder ranges.now bytes.now (answer_of result) }
{
    if !are_within(ranges, bytes) {
        return Err(Error::BlobInsufficientLength);
    }
    let mut bufs = Vec::with_capacity(alloc, ranges.len())?;
    for &(offset, len) in ranges {
        let start = offset as usize;
        bufs.push(IoBuf::copy_from_slice(alloc, &bytes[start..start + len])?)?;
    }
    Ok(bufs)
}

// Whether each of the ranges lies within these bytes.
fn are_within(ranges: &[(u64, usize)], bytes: &[u8]) -> bool
    ensures { (result ≡ true) ↔ IsWithin ranges.now bytes.now }
{
    for &(offset, len) in ranges {
        if bytes.len() < len || ((bytes.len() - len) as u64) < offset {
            return false;
        }
    }
    true
}
