// Two devices that must answer alike.
use crate::devices::{DURABLE, add_copy, read};
use crate::random::Numbers;
use crate::words::{is_refusal, out_of_memory, say_done, say_started};
use disk::{Blob, Error, IoBufs, StartedSync, WriteOptions};
use std::alloc::Global;
use std::io;
use std::io::Write;

// Syncs, and then writes durably.
fn write_durably<B: Blob>(blob: &mut B, offset: u64, bufs: &IoBufs) -> Result<(), Error> {
    blob.sync()?;
    blob.write_at(offset, bufs, DURABLE)
}

// What is written: one piece, or two.
#[derive(Drop)]
struct Written {
    one: IoBufs,
    two: IoBufs,
}

fn new_written(alloc: Global) -> Result<Written, Error> {
    let mut one = IoBufs::new(alloc);
    add_copy(alloc, &mut one, &[1, 2, 3, 4, 5])?;
    let mut two = IoBufs::new(alloc);
    add_copy(alloc, &mut two, &[6, 7])?;
    add_copy(alloc, &mut two, &[8, 9, 10, 11, 12, 13, 14, 15, 16])?;
    Ok(Written { one, two })
}

// A call of a kind, at an offset.
fn call<B: Blob>(
    alloc: Global,
    blob: &mut B,
    kind: usize,
    offset: u64,
    written: &Written,
    said: &mut Vec<u8>,
) -> io::Result<()> {
    let options = WriteOptions::default();
    match kind {
        0 => read(alloc, blob, offset, 5, said),
        1 => read(alloc, blob, offset, 15, said),
        2 => say_done(blob.write_at(offset, &written.one, options), said),
        3 => say_done(blob.write_at(offset, &written.two, options), said),
        4 => say_done(write_durably(blob, offset, &written.one), said),
        5 => say_done(blob.resize(offset), said),
        6 => say_done(blob.sync(), said),
        7 => say_started(blob.start_sync(), said),
        _ => say_done(blob.wait_sync(StartedSync::Named(offset % 8)), said),
    }
}

fn answers_alike<A: Blob, B: Blob>(
    alloc: Global,
    one: &mut A,
    other: &mut B,
    kind: usize,
    offset: u64,
    written: &Written,
) -> io::Result<bool> {
    let mut first = Vec::new(alloc);
    let mut second = Vec::new(alloc);
    call(alloc, one, kind, offset, written, &mut first)?;
    call(alloc, other, kind, offset, written, &mut second)?;
    if is_refusal(&first) || is_refusal(&second) {
        return Err(out_of_memory());
    }
    Ok(first.as_slice() == second.as_slice())
}

/// Makes the same calls, which look random, of two devices. Writes how many calls there were, if
/// all were answered alike, or else the first that wasn't.
pub fn try_alike<A: Blob, B: Blob>(
    alloc: Global,
    one: &mut A,
    other: &mut B,
    seed: u64,
    count: u64,
    said: &mut Vec<u8>,
) -> io::Result<()> {
    let Ok(written) = new_written(alloc) else {
        return Err(out_of_memory());
    };
    let mut numbers = Numbers::new(seed);
    for index in 0..count {
        let kind = numbers.below(9);
        let offset = numbers.below(64) as u64;
        if !answers_alike(alloc, one, other, kind, offset, &written)? {
            return write!(said, "fault call {index} of kind {kind} at {offset}");
        }
    }
    write!(said, "alike {count}")
}
