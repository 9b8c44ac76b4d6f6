// A walk through a journal's content: frames, one after another.
ghost use Rattle.std.specs.Prelude.{◌≡◌, ◌<◌, ◌≤◌, ◌+◌, ◌^◌, ◌++◌, ℕ, List, length, take, drop};
ghost use Rattle.std.specs.Prelude.{IfOk, OnOk, IsOkUnless};
ghost use Rattle.journal.specs.Frame.{listed, records, whole_frames};
ghost use Rattle.journal.specs.Walk.{PassesFrame};

use crate::frame::{AFTER, Found, IN_FRONT, record_before, record_len_of};
use disk::{Error, IoBuf};
use page::Sum;
use paged::Hand;
use std::alloc::Global;

// Fills the slice with the first of the bytes at hand, which are enough. It takes no memory.
fn take_into(hand: &mut Hand, out: &mut [u8])
    requires { length out.old ≤ length hand.old.bytes }
    ensures taken { hand.new.bytes ≡ drop (length out.old) hand.old.bytes }
    ensures bytes { out.new ≡ take (length out.old) hand.old.bytes }
{
    match hand.try_copy_to_slice(out) {
        Ok(()) => (),
        Err(_) => unreachable!(),
    }
}

// Passes the frame that begins at an offset, from which on the bytes are at hand, and answers it.
// `None` where the frame isn't whole: so a length that passes what is left asks for no memory.
fn next_frame<R: Sum>(hand: &mut Hand, offset: u64) -> Result<Option<Found>, Error>
    requires fits { offset + length hand.old.bytes < 2 ^ 64 }
    ensures passes { (content : List ℕ) → hand.old.bytes ≡ drop offset content
        → offset ≤ length content
        → PassesFrame R.sum_of content offset hand.new.bytes result }
    ensures err { IsOkUnless result Error.OutOfMemory }
{
    if hand.remaining() < IN_FRONT {
        return Ok(None);
    }
    let mut head = [0; IN_FRONT];
    take_into(hand, &mut head);
    let len = record_len_of(&head);
    if hand.remaining() < len + AFTER {
        return Ok(None);
    }
    let bytes = hand.copy_to_bytes(len)?;
    let mut after = [0; AFTER];
    take_into(hand, &mut after);
    Ok(Some(Found {
        bytes: record_before::<R>(bytes, &after),
        end: offset + (IN_FRONT + len + AFTER) as u64,
    }))
}

// Adds a record, if there is one.
fn push_record(found: &mut Vec<IoBuf>, more: Option<IoBuf>) -> Result<(), Error>
    ensures adds { OnOk result (found.new.items ≡ found.old.items ++ listed more) }
    ensures err { IsOkUnless result Error.OutOfMemory }
{
    if let Some(bytes) = more {
        found.push(bytes)?;
    }
    Ok(())
}

/// The records of a content, in order, and the offset after its last whole frame. A record that
/// lies in one page shares that page's bytes. The only error is `OutOfMemory`.
pub fn records_of<R: Sum>(alloc: Global, mut content: Hand) -> Result<(Vec<IoBuf>, u64), Error>
    ensures records { IfOk result (λ r. r.0.items ≡ records R.sum_of content.bytes) }
    ensures whole { IfOk result (λ r. r.1 ≡ length (whole_frames content.bytes)) }
    ensures err { IsOkUnless result Error.OutOfMemory }
{
    let size = content.remaining() as u64;
    let mut found = Vec::new(alloc);
    let mut offset = 0;
    while offset < size {
        let Some(frame) = next_frame::<R>(&mut content, offset)? else {
            break;
        };
        push_record(&mut found, frame.bytes)?;
        offset = frame.end;
    }
    Ok((found, offset))
}
