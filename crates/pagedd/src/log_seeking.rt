// Answering where a record of a segment stands, and where to go on behind damage.
ghost use Rattle.segments.specs.Log.{IsLog};

use crate::log_answer::write_answer;
use crate::log_status::AT_END;
use crate::log_taking::{Client, begun_at, failure_of, refuse, refuse_kept};
use digest::Digest;
use disk::Blob;
use page::Sum;
use protocol::{Cause, Stop};
use segments::{Folder, Place, SegmentedLog};
use std::alloc::Global;
use std::io::Write;

/// Answers where frame `n` of a segment begins, the first being frame 0.
pub fn take_nth<F: Folder<B> + Drop, B: Blob + Cause + Drop, H: Sum, D: Digest, W: Write>(
    alloc: Global,
    client: &Client,
    log: &mut SegmentedLog<F, B, H, H, D>,
    segment: u64,
    n: u64,
    out: &mut W,
) -> Result<(), Stop>
    requires log { IsLog H.sum_of H.sum_of log.old }
    ensures log { IsLog H.sum_of H.sum_of log.new }
{
    match log.nth(segment, n) {
        Ok(Some(place)) => write_answer(out, &[place.segment, place.offset], &[]),
        Ok(None) => refuse(alloc, client, out, AT_END),
        Err(error) => refuse_kept(alloc, client, out, &error, failure_of(log)),
    }
}

/// Answers where to go on behind the damaged page that a place is in, how many bytes of its segment
/// are passed, and how many frames begin in them: the greatest number if nobody knows.
pub fn take_pass_damage<F: Folder<B> + Drop, B: Blob + Cause + Drop, H: Sum, D: Digest, W: Write>(
    alloc: Global,
    client: &Client,
    log: &mut SegmentedLog<F, B, H, H, D>,
    place: Place,
    out: &mut W,
) -> Result<(), Stop>
    requires log { IsLog H.sum_of H.sum_of log.old }
    ensures log { IsLog H.sum_of H.sum_of log.new }
{
    let mut behind = begun_at(log, place);
    match log.pass_damage(&mut behind) {
        Ok(passed) => {
            let frames = passed.frames.unwrap_or(u64::MAX);
            let numbers = [behind.segment, behind.offset, passed.bytes, frames];
            write_answer(out, &numbers, &[])
        }
        Err(error) => refuse_kept(alloc, client, out, &error, failure_of(log)),
    }
}
