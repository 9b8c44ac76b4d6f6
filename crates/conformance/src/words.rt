// The words of a line, and the forms of its answers that many subjects share.
use disk::{Error, StartedSync};
use scripts::{Hex, ReadError, Said, parse_hex, parse_number};
use session::Reply;
use std::alloc::{AllocError, Global};
use std::io;
use std::io::{ErrorKind, Write};
use std::num::{NonZeroU16, NonZeroUsize};

/// The words of a line.
pub fn words(alloc: Global, line: &[u8]) -> Result<Vec<&[u8]>, AllocError> {
    line.split(|byte| *byte == b' ').collect(alloc)
}

/// The error of a line that can't be read.
pub fn unreadable() -> io::Error {
    io::Error::from(ErrorKind::InvalidInput)
}

/// The error of a request for memory that was refused.
pub fn out_of_memory() -> io::Error {
    io::Error::from(ErrorKind::OutOfMemory)
}

/// Whether a reply is that to a refused request for memory.
pub fn is_refusal(said: &[u8]) -> bool {
    said == b"fault E8 OutOfMemory".as_slice()
}

fn as_io(error: ReadError) -> io::Error {
    match error {
        ReadError::Unreadable => unreadable(),
        ReadError::OutOfMemory => out_of_memory(),
    }
}

/// The number that a word is.
pub fn number(word: &[u8]) -> io::Result<u64> {
    match parse_number(word) {
        Ok(number) => Ok(number),
        Err(error) => Err(as_io(error)),
    }
}

/// The number that a word is, as a length.
pub fn length(word: &[u8]) -> io::Result<usize> {
    Ok(number(word)? as usize)
}

/// The size of a buffer in bytes: 0 counts as 1.
pub fn buffer_size(number: u64) -> NonZeroUsize {
    NonZeroUsize::new(number as usize).unwrap_or(NonZeroUsize::MIN)
}

/// The size of a page in bytes. `InvalidInput` unless it is from 1 to 65535.
pub fn page_size(number: u64) -> io::Result<NonZeroU16> {
    let size = u16::try_from(number).unwrap_or(0);
    NonZeroU16::new(size).ok_or(unreadable())
}

/// The bytes that a word is.
pub fn bytes_of(alloc: Global, word: &[u8]) -> io::Result<Vec<u8>> {
    match parse_hex(alloc, word) {
        Ok(bytes) => Ok(bytes),
        Err(error) => Err(as_io(error)),
    }
}

/// The range that a word is, as `0:4`.
pub fn range(word: &[u8]) -> io::Result<(u64, usize)> {
    let mut parts = word.split(|byte| *byte == b':');
    match (parts.next(), parts.next(), parts.next()) {
        (Some(offset), Some(len), None) => Ok((number(offset)?, length(len)?)),
        _ => Err(unreadable()),
    }
}

/// The flags that a word is: digits 0 and 1, or `-`.
pub fn flags(alloc: Global, word: &[u8]) -> io::Result<Vec<bool>> {
    let mut flags = Vec::new(alloc);
    for digit in word {
        match digit {
            b'0' => flags.push(false)?,
            b'1' => flags.push(true)?,
            b'-' => {}
            _ => return Err(unreadable()),
        }
    }
    Ok(flags)
}

/// Writes a reply.
pub fn say(reply: &Reply, said: &mut Vec<u8>) -> io::Result<()> {
    write!(said, "{}", Said(reply))
}

/// Writes an error.
pub fn say_error(error: Error, said: &mut Vec<u8>) -> io::Result<()> {
    say(&Reply::Fault(error), said)
}

/// Writes that it is done, or the error.
pub fn say_done(answer: Result<(), Error>, said: &mut Vec<u8>) -> io::Result<()> {
    match answer {
        Ok(()) => say(&Reply::Done, said),
        Err(error) => say_error(error, said),
    }
}

/// Writes yes or no.
pub fn say_whether(answer: bool, said: &mut Vec<u8>) -> io::Result<()> {
    say(&Reply::Answer(answer), said)
}

/// Writes a number with a word in front, or the error.
pub fn say_size(word: &str, answer: Result<u64, Error>, said: &mut Vec<u8>) -> io::Result<()> {
    match answer {
        Ok(size) => write!(said, "{word} {size}"),
        Err(error) => say_error(error, said),
    }
}

/// Writes bytes with a word in front.
pub fn say_bytes(word: &str, bytes: &[u8], said: &mut Vec<u8>) -> io::Result<()> {
    write!(said, "{word} {}", Hex(bytes))
}

/// Writes the name of a started sync, or the error.
pub fn say_started(answer: Result<StartedSync, Error>, said: &mut Vec<u8>) -> io::Result<()> {
    match answer {
        Ok(started) => say(&Reply::Started(started), said),
        Err(error) => say_error(error, said),
    }
}

/// Writes ranges, each with a space in front.
pub fn say_ranges(ranges: &[(u64, usize)], said: &mut Vec<u8>) -> io::Result<()> {
    for (offset, len) in ranges {
        write!(said, " {offset}:{len}")?;
    }
    Ok(())
}
