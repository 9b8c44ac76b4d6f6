// The plain blob in memory, whose calls are counted.
use crate::devices::{DURABLE, buffers, play_call};
use crate::forms::Argument::{Number, Pieces};
use crate::forms::{Arguments, Form, read_step};
use crate::line::Row;
use crate::subject::Subject;
use crate::words::{out_of_memory, say_bytes, say_done, say_whether};
use disk::{Blob, Counted, Error, IoBufs, StartedRead, VecBlob};
use scripts::Hex;
use std::alloc::Global;
use std::io;
use std::io::Write;

// What a step asks of the blob alone.
#[derive(Clone, Copy)]
enum Verb {
    Counts,
    Dump,
    Len,
    Stop,
    Stopped,
    Reserve,
    WriteDurably,
    Buffers,
}

const STEPS: [Form<Verb>; 8] = [
    (b"counts", &[], Verb::Counts),
    (b"dump", &[], Verb::Dump),
    (b"len", &[], Verb::Len),
    (b"stop", &[], Verb::Stop),
    (b"stopped", &[], Verb::Stopped),
    (b"reserve", &[Number, Number], Verb::Reserve),
    (b"write-durable", &[Number, Pieces], Verb::WriteDurably),
    (b"buffers", &[Pieces], Verb::Buffers),
];

/// A plain blob that counts its calls, and the read that was started last.
#[derive(Drop)]
pub struct Plain {
    blob: Counted<VecBlob>,
    started: Option<StartedRead>,
}

// Buffers in the memory of these pieces, for which room was made before.
fn owned_buffers(alloc: Global, pieces: &[Vec<u8>]) -> Result<IoBufs, Error> {
    let mut bufs = IoBufs::with_capacity(alloc, pieces.len())?;
    for piece in pieces {
        bufs.append_front(Vec::from_slice(alloc, piece)?, piece.len())?;
    }
    Ok(bufs)
}

// Writes buffers of these pieces: an empty piece makes none.
fn say_buffers(alloc: Global, pieces: &[Vec<u8>], said: &mut Vec<u8>) -> io::Result<()> {
    let Ok(bufs) = owned_buffers(alloc, pieces) else {
        return Err(out_of_memory());
    };
    write!(said, "buffers")?;
    for buf in bufs.iter().filter(|buf| !buf.is_empty()) {
        write!(said, " {}", Hex(buf.as_ref()))?;
    }
    Ok(())
}

impl Plain {
    /// A blob of these bytes.
    pub fn new(alloc: Global, bytes: Vec<u8>) -> io::Result<Box<Plain>> {
        let blob = Counted::new(VecBlob::from_vec(bytes));
        Ok(Box::new(
            alloc,
            Plain {
                blob,
                started: None,
            },
        )?)
    }

    // Writes these pieces durably. The call isn't counted.
    fn write_durably(
        &mut self,
        alloc: Global,
        offset: u64,
        pieces: &[Vec<u8>],
    ) -> Result<(), Error> {
        self.blob
            .inner
            .write_at(offset, &buffers(alloc, pieces)?, DURABLE)
    }

    fn say_counts(&self, said: &mut Vec<u8>) -> io::Result<()> {
        let blob = &self.blob;
        write!(
            said,
            "calls {} read {} written {}",
            blob.calls, blob.read, blob.written
        )
    }

    fn stop(&mut self, said: &mut Vec<u8>) -> io::Result<()> {
        self.blob.inner.stop();
        say_done(Ok(()), said)
    }

    fn go(
        &mut self,
        alloc: Global,
        verb: Verb,
        words: &Arguments,
        said: &mut Vec<u8>,
    ) -> io::Result<()> {
        let offset = words.number(0);
        let blob = &mut self.blob.inner;
        match verb {
            Verb::Counts => self.say_counts(said),
            Verb::Dump => say_bytes("blob", blob.bytes(), said),
            Verb::Len => write!(said, "len {}", blob.len()),
            Verb::Stop => self.stop(said),
            Verb::Stopped => say_whether(blob.is_stopped(), said),
            Verb::Reserve => say_done(blob.reserve(offset, words.length(1)), said),
            Verb::WriteDurably => say_done(self.write_durably(alloc, offset, &words.pieces), said),
            Verb::Buffers => say_buffers(alloc, &words.pieces, said),
        }
    }
}

impl Subject for Plain {
    fn play(&mut self, alloc: Global, row: &Row, said: &mut Vec<u8>) -> io::Result<()> {
        match read_step(alloc, &STEPS, &row.step)? {
            Some((verb, words)) => self.go(alloc, verb, &words, said),
            None => play_call(alloc, &mut self.blob, &mut self.started, &row.step, said),
        }
    }
}
