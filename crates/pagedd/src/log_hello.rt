// How a session over a log begins: what the client sends first, and the answer to it.
use crate::log_answer::{MOST_PAYLOAD, write_answer, write_head, write_numbers};
use crate::log_input::{Unread, read_front};
use crate::log_records::MOST_RECORDS;
use crate::log_request::KINDS;
use crate::log_status::NO_VERSION;
use journal::MOST_BYTES;
use protocol::{Flaw, Stop, Version};
use std::io::{Read, Write};

/// The byte of the greeting, and what a client of version 1 begins with.
const VERSION: u8 = 1;

/// What an offer of versions begins with.
const OFFER: u8 = 2;

// How many bytes of the hello stand after its status, except for those of its texts and kinds.
const FIXED: usize = 90;

/// What the hello to a client of version 2 states of the log.
#[derive(Clone, Copy)]
pub struct Hello<'a> {
    pub read_only: bool,
    /// How many records the log has.
    pub records: u64,
    /// The content bytes of a page.
    pub page_size: u64,
    /// How many bytes the opening cut.
    pub cut: u64,
    /// How many bytes the opening gave up: those that it cut, and those of a torn last page.
    pub given_up: u64,
    /// The checksum's name.
    pub checksum: &'a str,
    /// The name of the copy of what the opening gave up. Empty where no copy was made.
    pub copy: &'a str,
}

/// What a client begins with.
#[derive(Clone, Copy)]
pub enum Opening {
    /// Its input has no byte.
    End,
    /// Version 1, and no other.
    Single,
    /// An offer of versions, with the highest of them that is known, if there is one.
    Offer(Option<Version>),
    /// A byte with which no version begins.
    Other(u8),
}

/// Writes the greeting of a log that has so many records.
pub fn greet<W: Write>(out: &mut W, records: u64) -> Result<(), Stop> {
    out.write_all(&[VERSION])?;
    write_answer(out, &[records], &[])?;
    out.flush()?;
    Ok(())
}

/// Writes the greeting of a log that can't be opened, with the status that says why.
pub fn greet_refused<W: Write>(out: &mut W, status: u8) -> Result<(), Stop> {
    out.write_all(&[VERSION])?;
    write_head(out, status, 0)?;
    out.flush()?;
    Ok(())
}

/// Reads what a client begins with.
pub fn read_opening<R: Read>(input: &mut R) -> Result<Opening, Unread> {
    let mut first = [0u8; 1];
    let count = read_front(input, &mut first)?;
    let [byte] = first;
    match byte {
        _ if count == 0 => Ok(Opening::End),
        VERSION => Ok(Opening::Single),
        OFFER => Ok(Opening::Offer(read_versions(input)?)),
        other => Ok(Opening::Other(other)),
    }
}

// Reads the versions of an offer, and answers the highest that is known.
fn read_versions<R: Read>(input: &mut R) -> Result<Option<Version>, Unread> {
    let mut best = None;
    for _ in 0..read_byte(input)? {
        match read_byte(input)? {
            2 => best = Some(Version::Two),
            1 if best.is_none() => best = Some(Version::One),
            _ => {}
        }
    }
    Ok(best)
}

fn read_byte<R: Read>(input: &mut R) -> Result<u8, Unread> {
    let mut byte = [0u8; 1];
    if read_front(input, &mut byte)? == 0 {
        return Err(Unread::Malformed(Flaw::Cut));
    }
    let [byte] = byte;
    Ok(byte)
}

/// Writes the answer to an offer of versions: for version 2 the hello. Any other opening has no
/// answer. Returns the version to go on with, or none where the client asks for nothing.
pub fn tell_opening<W: Write>(
    opening: Opening,
    hello: &Hello<'_>,
    out: &mut W,
) -> Result<Option<Version>, Stop> {
    match opening {
        Opening::End => Ok(None),
        Opening::Single => Ok(Some(Version::One)),
        Opening::Other(byte) => Err(Stop::Version(byte)),
        Opening::Offer(None) => {
            write_head(out, NO_VERSION, 2)?;
            out.write_all(&[1, 2])?;
            Err(Stop::NoVersion)
        }
        Opening::Offer(Some(Version::One)) => {
            write_answer(out, &[], &[1])?;
            Ok(Some(Version::One))
        }
        Opening::Offer(Some(Version::Two)) => {
            write_hello(out, hello)?;
            Ok(Some(Version::Two))
        }
    }
}

fn write_hello<W: Write>(out: &mut W, hello: &Hello<'_>) -> Result<(), Stop> {
    let texts = hello.checksum.len().saturating_add(hello.copy.len());
    write_head(
        out,
        0,
        texts.saturating_add(KINDS.len()).saturating_add(FIXED),
    )?;
    out.write_all(&[2, u8::from(hello.read_only)])?;
    let numbers = [
        hello.records,
        hello.page_size,
        MOST_PAYLOAD,
        MOST_PAYLOAD,
        MOST_BYTES as u64,
        MOST_RECORDS,
        hello.cut,
        hello.given_up,
    ];
    write_numbers(out, &numbers)?;
    write_counted(out, hello.checksum.as_bytes())?;
    write_counted(out, hello.copy.as_bytes())?;
    write_counted(out, &KINDS)
}

// Writes how many bytes these are, and then the bytes.
fn write_counted<W: Write>(out: &mut W, bytes: &[u8]) -> Result<(), Stop> {
    out.write_all(&(bytes.len() as u64).to_le_bytes())?;
    out.write_all(bytes)?;
    Ok(())
}
