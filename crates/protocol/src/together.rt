// Requests whose bytes encode records, or ranges.
ghost use Rattle.std.specs.Prelude.{◌≡◌, ◌<◌, ◌+◌, ◌^◌, is_some, take, drop, length, IfSome};
ghost use Rattle.std.specs.Prelude.{IfOk};
ghost use Rattle.std.specs.List.{flat_map, sum};
ghost use Rattle.protocol.specs.Output.{PutsBytes};
ghost use Rattle.protocol.specs.Request.{number_bytes};
ghost use Rattle.protocol.specs.Together.{tells_ranges, tells_records, lengths_in, lengths_size};
ghost use Rattle.protocol.specs.Together.{ranges_in, record_starts};

use crate::output::put;
use crate::request::MOST_BYTES;
use crate::stop::Stop;
use std::alloc::{AllocError, Global};
use std::io::Write;

// How many bytes encode a range: an offset and a length, eight bytes each.
const RANGE: usize = 16;

/// The lengths of the records that a request's bytes encode, four bytes each. `None` if the bytes
/// encode no records, or an answer can't hold the offsets of so many.
pub fn record_lengths(fields: &[u8]) -> Option<&[u8]>
    requires { length fields.now < 2 ^ 32 }
    ensures tells { is_some result ≡ tells_records fields.now }
    ensures lengths { IfSome result (λ lengths.
        lengths.now ≡ take (lengths_size fields.now) (drop 4 fields.now)) }
{
    let (head, rest) = fields.split_first_chunk::<4>()?;
    let size = u32::from_le_bytes(*head) as usize * 4;
    if size > rest.len() || 2 * size as u64 + 9 > MOST_BYTES {
        return None;
    }
    let (lengths, records) = rest.split_at(size);
    if total(lengths) != records.len() as u64 {
        return None;
    }
    Some(lengths)
}

// The sum of these lengths.
fn total(lengths: &[u8]) -> u64
    requires { length lengths.now < 2 ^ 32 }
    ensures { result ≡ sum (lengths_in lengths.now) }
{
    let mut total = 0;
    let mut rest = lengths;
    while let Some((length, after)) = rest.split_first_chunk::<4>() {
        total += u64::from(u32::from_le_bytes(*length));
        rest = after;
    }
    total
}

/// Writes the logical offset of each record, if the first one begins at `first`.
#[tactic(auto, unfolding(crate::specs::Request::number_bytes))]
pub fn write_starts<W: Write>(out: &mut W, first: u64, lengths: &[u8]) -> Result<(), Stop>
    requires { first + sum (lengths_in lengths.now) < 2 ^ 64 }
    ensures { let starts = flat_map number_bytes (record_starts first (lengths_in lengths.now)) in
        PutsBytes starts (W.contents out.old) (W.contents out.new) result }
{
    let mut at = first;
    let mut rest = lengths;
    while let Some((length, after)) = rest.split_first_chunk::<4>() {
        put(out, &at.to_le_bytes())?;
        at += u64::from(u32::from_le_bytes(*length));
        rest = after;
    }
    Ok(())
}

/// The ranges that a request's bytes encode, each a logical offset and a length in bytes. `None` if
/// the bytes encode no ranges, or an answer can't hold what the ranges ask for.
pub fn ranges_of(alloc: Global, fields: &[u8]) -> Result<Option<Vec<(u64, usize)>>, AllocError>
    requires { length fields.now < 2 ^ 32 }
    ensures tells { IfOk result (λ ranges. is_some ranges ≡ tells_ranges fields.now) }
    ensures ranges { IfOk result (λ ranges. IfSome ranges (λ ranges.
        ranges.items ≡ ranges_in fields.now)) }
{
    if fields.len() % RANGE != 0 {
        return Ok(None);
    }
    let mut ranges = Vec::with_capacity(alloc, fields.len() / RANGE)?;
    let mut left = MOST_BYTES - 8;
    let mut rest = fields;
    while let Some((offset, after)) = rest.split_first_chunk::<8>() {
        let Some((len, after)) = after.split_first_chunk::<8>() else {
            return Ok(None);
        };
        let len = u64::from_le_bytes(*len);
        if len > left {
            return Ok(None);
        }
        left -= len;
        ranges.push_reserved((u64::from_le_bytes(*offset), len as usize));
        rest = after;
    }
    Ok(Some(ranges))
}
