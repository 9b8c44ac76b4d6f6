// Bytes of a client's input, read as they come.
use protocol::{Flaw, Stop};
use std::alloc::{AllocError, Global};
use std::io::{BufRead, ErrorKind, Read};

/// Why a request isn't read.
#[derive(Clone, Copy)]
pub enum Unread {
    /// The bytes are no request.
    Malformed(Flaw),
    /// The input failed.
    Failed,
    /// There was no memory for it.
    OutOfMemory,
}

impl Unread {
    /// Why a session stops whose request of this number isn't read.
    pub fn at(self, number: u64) -> Stop {
        match self {
            Unread::Malformed(flaw) => Stop::Malformed(number, flaw),
            Unread::Failed => Stop::Failed,
            Unread::OutOfMemory => Stop::OutOfMemory,
        }
    }
}

impl From<AllocError> for Unread {
    fn from(_: AllocError) -> Self {
        Unread::OutOfMemory
    }
}

/// Reads as many bytes as there is room for, or all that are left where there are fewer, to the
/// front of the room, and answers how many.
pub fn read_front<R: Read>(input: &mut R, room: &mut [u8]) -> Result<usize, Unread> {
    let mut count = 0usize;
    for _ in 0..u64::MAX {
        let Some(rest) = room.get_mut(count..) else {
            return Ok(count);
        };
        if rest.is_empty() {
            return Ok(count);
        }
        match input.read(rest) {
            Ok(0) => return Ok(count),
            Ok(more) => count = count.saturating_add(more),
            Err(error) if error.kind() == ErrorKind::Interrupted => {}
            Err(_) => return Err(Unread::Failed),
        }
    }
    Err(Unread::Failed)
}

/// Reads a number, the lowest byte first.
pub fn read_number<R: Read>(input: &mut R) -> Result<u64, Unread> {
    let mut bytes = [0u8; 8];
    if read_front(input, &mut bytes)? < 8 {
        return Err(Unread::Malformed(Flaw::Cut));
    }
    Ok(u64::from_le_bytes(bytes))
}

/// Reads so many bytes, and not fewer. The client chose the number, so memory is taken only as the
/// bytes come.
pub fn read_bytes<R: BufRead>(
    alloc: Global,
    input: &mut R,
    count: usize,
) -> Result<Vec<u8>, Unread> {
    let mut bytes = Vec::new(alloc);
    for _ in 0..u64::MAX {
        let most = count.saturating_sub(bytes.len());
        if most == 0 {
            return Ok(bytes);
        }
        read_piece(input, most, &mut bytes)?;
    }
    Err(Unread::Failed)
}

// Adds to `bytes` what has come, at most `most` bytes. Waits only where nothing has come.
fn read_piece<R: BufRead>(input: &mut R, most: usize, bytes: &mut Vec<u8>) -> Result<(), Unread> {
    let come = match input.fill_buf() {
        Ok(come) => come,
        Err(error) if error.kind() == ErrorKind::Interrupted => return Ok(()),
        Err(_) => return Err(Unread::Failed),
    };
    if come.is_empty() {
        return Err(Unread::Malformed(Flaw::Cut));
    }
    let count = most.min(come.len());
    bytes.extend_from_slice(&come[..count])?;
    input.consume(count);
    Ok(())
}

/// Reads so many bytes, and not fewer, and keeps none.
pub fn skip_bytes<R: BufRead>(input: &mut R, count: usize) -> Result<(), Unread> {
    let mut left = count;
    for _ in 0..u64::MAX {
        if left == 0 {
            return Ok(());
        }
        left = left.saturating_sub(skip_piece(input, left)?);
    }
    Err(Unread::Failed)
}

// Passes over what has come, at most so many bytes, and answers how many.
fn skip_piece<R: BufRead>(input: &mut R, most: usize) -> Result<usize, Unread> {
    let come = match input.fill_buf() {
        Ok(come) => come,
        Err(error) if error.kind() == ErrorKind::Interrupted => return Ok(0),
        Err(_) => return Err(Unread::Failed),
    };
    if come.is_empty() {
        return Err(Unread::Malformed(Flaw::Cut));
    }
    let count = most.min(come.len());
    input.consume(count);
    Ok(count)
}
