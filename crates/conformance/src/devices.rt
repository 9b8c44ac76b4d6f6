// The calls that every device has.
use crate::forms::Argument::{Number, Pieces, Ranges};
use crate::forms::{Arguments, Form, read_step};
use crate::words::{out_of_memory, say_bytes, say_done, say_error, say_started, unreadable};
use disk::{Blob, Error, IoBuf, IoBufs, ReadOptions, StartedRead, StartedSync, WriteOptions};
use scripts::Hex;
use std::alloc::Global;
use std::io;
use std::io::Write;

/// The options of a write that is durable where it answers `Ok`.
pub const DURABLE: WriteOptions = WriteOptions {
    sync: true,
    dont_cache: false,
};

/// Adds a buffer of these bytes.
pub fn add_copy(alloc: Global, bufs: &mut IoBufs, bytes: &[u8]) -> Result<(), Error> {
    bufs.append(IoBuf::copy_from_slice(alloc, bytes)?)
}

/// Buffers of these bytes.
pub fn buffers(alloc: Global, pieces: &[Vec<u8>]) -> Result<IoBufs, Error> {
    let mut bufs = IoBufs::new(alloc);
    for piece in pieces {
        add_copy(alloc, &mut bufs, piece)?;
    }
    Ok(bufs)
}

/// Writes pieces of bytes, each with a space in front.
pub fn say_pieces(bufs: &[IoBuf], said: &mut Vec<u8>) -> io::Result<()> {
    for buf in bufs {
        write!(said, " {}", Hex(buf.as_ref()))?;
    }
    Ok(())
}

/// Reads some bytes.
pub fn read<B: Blob>(
    alloc: Global,
    blob: &mut B,
    offset: u64,
    len: usize,
    said: &mut Vec<u8>,
) -> io::Result<()> {
    match blob.read_at(alloc, offset, len, ReadOptions::default()) {
        Ok(buf) => say_bytes("bytes", buf.as_ref(), said),
        Err(error) => say_error(error, said),
    }
}

// Writes what was delivered, in the order of delivery: for each range its number and its bytes.
fn say_delivered(delivered: &[(usize, IoBuf)], said: &mut Vec<u8>) -> io::Result<()> {
    write!(said, "ranges")?;
    for (index, buf) in delivered {
        write!(said, " {index}:{}", Hex(buf.as_ref()))?;
    }
    Ok(())
}

// Reads ranges to a vector that already has an entry.
fn read_many<B: Blob>(
    alloc: Global,
    blob: &mut B,
    ranges: &[(u64, usize)],
    said: &mut Vec<u8>,
) -> io::Result<()> {
    let Ok(old) = IoBuf::copy_from_slice(alloc, b"old") else {
        return Err(out_of_memory());
    };
    let mut delivered = Vec::new(alloc);
    delivered.push((7, old))?;
    match blob.read_many(alloc, ranges, ReadOptions::default(), &mut delivered) {
        Ok(()) => say_delivered(&delivered, said),
        Err(error) => say_error(error, said),
    }
}

// Waits for a read that was started.
fn wait_read(started: Option<StartedRead>, said: &mut Vec<u8>) -> io::Result<()> {
    let Some(started) = started else {
        return write!(said, "fault no read was started");
    };
    match started.wait() {
        Ok(bufs) => {
            write!(said, "kept")?;
            say_pieces(&bufs, said)
        }
        Err(error) => say_error(error, said),
    }
}

// Writes pieces, each in a buffer of its own.
fn write<B: Blob>(
    alloc: Global,
    blob: &mut B,
    offset: u64,
    pieces: &[Vec<u8>],
) -> Result<(), Error> {
    blob.write_at(offset, &buffers(alloc, pieces)?, WriteOptions::default())
}

// What a call asks of a device.
#[derive(Clone, Copy)]
enum Verb {
    Read,
    ReadMany,
    StartRead,
    WaitRead,
    Write,
    Resize,
    Sync,
    StartSync,
    WaitDone,
    WaitNamed,
}

const CALLS: [Form<Verb>; 10] = [
    (b"read", &[Number, Number], Verb::Read),
    (b"read-many", &[Ranges], Verb::ReadMany),
    (b"start-read", &[Ranges], Verb::StartRead),
    (b"wait-read", &[], Verb::WaitRead),
    (b"write", &[Number, Pieces], Verb::Write),
    (b"resize", &[Number], Verb::Resize),
    (b"sync", &[], Verb::Sync),
    (b"start-sync", &[], Verb::StartSync),
    (b"wait", &[], Verb::WaitDone),
    (b"wait", &[Number], Verb::WaitNamed),
];

fn start_read<B: Blob>(
    alloc: Global,
    blob: &mut B,
    ranges: &[(u64, usize)],
    started: &mut Option<StartedRead>,
    said: &mut Vec<u8>,
) -> io::Result<()> {
    *started = Some(blob.start_read_many(alloc, ranges, ReadOptions::default()));
    say_done(Ok(()), said)
}

fn go<B: Blob>(
    alloc: Global,
    blob: &mut B,
    started: &mut Option<StartedRead>,
    verb: Verb,
    words: &Arguments,
    said: &mut Vec<u8>,
) -> io::Result<()> {
    let number = words.number(0);
    match verb {
        Verb::Read => read(alloc, blob, number, words.length(1), said),
        Verb::ReadMany => read_many(alloc, blob, &words.ranges, said),
        Verb::StartRead => start_read(alloc, blob, &words.ranges, started, said),
        Verb::WaitRead => wait_read(started.take(), said),
        Verb::Write => say_done(write(alloc, blob, number, &words.pieces), said),
        Verb::Resize => say_done(blob.resize(number), said),
        Verb::Sync => say_done(blob.sync(), said),
        Verb::StartSync => say_started(blob.start_sync(), said),
        Verb::WaitDone => say_done(blob.wait_sync(StartedSync::Done), said),
        Verb::WaitNamed => say_done(blob.wait_sync(StartedSync::Named(number)), said),
    }
}

/// Plays a call that every device has.
pub fn play_call<B: Blob>(
    alloc: Global,
    blob: &mut B,
    started: &mut Option<StartedRead>,
    line: &[u8],
    said: &mut Vec<u8>,
) -> io::Result<()> {
    match read_step(alloc, &CALLS, line)? {
        Some((verb, words)) => go(alloc, blob, started, verb, &words, said),
        None => Err(unreadable()),
    }
}
