// An input that comes in pieces, and that may end early, fail or be interrupted.
use crate::line::plain;
use crate::words::{bytes_of, unreadable};
use std::alloc::Global;
use std::io;
use std::io::{ErrorKind, Read, Write};

// The longest room that a read may offer: a longer one would be for bytes that haven't come.
const MOST_ROOM: usize = 65_536;

/// What an input does apart from giving its bytes.
#[derive(Clone, Copy)]
pub enum Way {
    /// The input ends after its bytes.
    Ends,
    /// The read after the bytes fails. A later read finds the end.
    Fails,
    /// Each byte comes alone. A read is interrupted before each and before the end.
    Interrupted,
}

/// An input that gives at most one line of a case at a time.
#[derive(Drop)]
pub struct Pieces {
    /// All that it gives.
    pub bytes: Vec<u8>,
    // Where each line ends.
    ends: Vec<usize>,
    way: Way,
    at: usize,
    // How many reads there were since the last byte was given.
    reads: usize,
    // The longest room that a read offered.
    room: usize,
}

impl Pieces {
    /// The bytes that are written in some lines.
    pub fn read(alloc: Global, lines: &[u8], way: Way) -> io::Result<Pieces> {
        let mut bytes = Vec::new(alloc);
        let mut ends = Vec::new(alloc);
        for line in lines.split(|byte| *byte == b'\n') {
            let digits = plain(alloc, line)?;
            if !digits.is_empty() {
                bytes.extend_from_slice(&bytes_of(alloc, &digits)?)?;
                ends.push(bytes.len())?;
            }
        }
        Ok(Pieces {
            bytes,
            ends,
            way,
            at: 0,
            reads: 0,
            room: 0,
        })
    }

    /// Leaves the first so many bytes. `InvalidInput` where there are fewer.
    pub fn cut(&mut self, count: usize) -> io::Result<()> {
        if count > self.bytes.len() {
            return Err(unreadable());
        }
        self.bytes.truncate(count);
        Ok(())
    }

    // Where the piece ends that a read gives.
    fn piece_end(&self) -> usize {
        if let Way::Interrupted = self.way {
            return self.at.saturating_add(1).min(self.bytes.len());
        }
        for end in &self.ends {
            if *end > self.at {
                return (*end).min(self.bytes.len());
            }
        }
        self.at
    }

    // Whether a read after the last byte fails.
    fn end(&self) -> io::Result<()> {
        match self.way {
            Way::Fails if self.reads == 1 => Err(io::Error::from(ErrorKind::BrokenPipe)),
            _ => Ok(()),
        }
    }

    /// Writes which mistakes its reader made: it read on after a failure, or offered room for more
    /// bytes than come.
    pub fn say_misuse(&self, said: &mut Vec<u8>) -> io::Result<()> {
        if let Way::Fails = self.way {
            if self.reads > 1 {
                write!(said, ", read on after the failure")?;
            }
        }
        if self.room > MOST_ROOM {
            write!(said, ", with room for {} bytes in a read", self.room)?;
        }
        Ok(())
    }
}

impl Read for Pieces {
    fn read(&mut self, buf: &mut [u8]) -> io::Result<usize> {
        self.room = self.room.max(buf.len());
        self.reads = self.reads.saturating_add(1);
        if let (Way::Interrupted, 1) = (self.way, self.reads) {
            return Err(io::Error::from(ErrorKind::Interrupted));
        }
        let end = self.piece_end();
        let piece = self.bytes.get(self.at..end).unwrap_or_default();
        if piece.is_empty() {
            self.end()?;
            return Ok(0);
        }
        let count = piece.len().min(buf.len());
        buf[..count].copy_from_slice(&piece[..count]);
        self.at = self.at.saturating_add(count);
        self.reads = 0;
        Ok(count)
    }
}
