// Answers to a client of a log.
use protocol::{Stop, Version};
use segments::Place;
use std::alloc::Global;
use std::io::{self, Write};

/// The most bytes that an answer may hold after its status, and a request after its kind.
pub const MOST_PAYLOAD: u64 = 0xFFFF_FFFE;

/// The most bytes of the words for why the system refused something.
const MOST_WORDS: usize = 255;

/// A request that is refused.
#[derive(Clone, Copy)]
pub struct Refusal<'a> {
    pub status: u8,
    /// What the client may do next.
    pub advice: u8,
    /// How many records of the request were appended.
    pub taken: u64,
    /// Why the system refused something.
    pub cause: Option<&'a io::Error>,
}

impl Refusal<'_> {
    /// That of a request that can't be met as it stands.
    pub fn plain(status: u8) -> Self {
        Refusal {
            status,
            advice: 0,
            taken: 0,
            cause: None,
        }
    }
}

/// Writes an answer of status 0 with these numbers and then these bytes.
pub fn write_answer<W: Write>(out: &mut W, numbers: &[u64], bytes: &[u8]) -> Result<(), Stop> {
    let len = numbers.len().saturating_mul(8).saturating_add(bytes.len());
    write_head(out, 0, len)?;
    write_numbers(out, numbers)?;
    out.write_all(bytes)?;
    Ok(())
}

/// Writes these numbers.
pub fn write_numbers<W: Write>(out: &mut W, numbers: &[u64]) -> Result<(), Stop> {
    for number in numbers {
        out.write_all(&number.to_le_bytes())?;
    }
    Ok(())
}

/// Writes the answer to a read: the offset at which the frame ends, whether it is a record, and the
/// bytes of the record.
pub fn write_found<W: Write>(out: &mut W, end: u64, bytes: Option<&[u8]>) -> Result<(), Stop> {
    let record = bytes.unwrap_or_default();
    write_head(out, 0, record.len().saturating_add(9))?;
    out.write_all(&end.to_le_bytes())?;
    out.write_all(&[u8::from(bytes.is_some())])?;
    out.write_all(record)?;
    Ok(())
}

/// Writes the answer to an append of records: the place of each.
pub fn write_places<W: Write>(out: &mut W, places: &[Place]) -> Result<(), Stop> {
    write_head(out, 0, places.len().saturating_mul(16))?;
    for place in places {
        write_numbers(out, &[place.segment, place.offset])?;
    }
    Ok(())
}

/// Writes the length and the status of an answer with so many bytes after them.
pub fn write_head<W: Write>(out: &mut W, status: u8, len: usize) -> Result<(), Stop> {
    let Ok(length) = u32::try_from(len.saturating_add(1)) else {
        return Err(Stop::LongAnswer);
    };
    out.write_all(&length.to_le_bytes())?;
    out.write_all(&[status])?;
    Ok(())
}

/// Writes a refusal: in version 1 its status alone, in version 2 all its fields.
pub fn write_refusal<W: Write>(
    alloc: Global,
    version: Version,
    out: &mut W,
    refusal: Refusal<'_>,
) -> Result<(), Stop> {
    if version == Version::One {
        return write_head(out, refusal.status, 0);
    }
    let Some(error) = refusal.cause else {
        return write_told(out, refusal, 0, &[]);
    };
    let number = u64::from(error.raw_os_error().unwrap_or(0).unsigned_abs());
    match format!(in alloc; "{error}") {
        Ok(words) => {
            let words = words.as_bytes();
            let words = words.get(..words.len().min(MOST_WORDS));
            write_told(out, refusal, number, words.unwrap_or_default())
        }
        Err(_) => write_told(out, refusal, number, &[]),
    }
}

// Writes a refusal of version 2 with the number and the words of its cause.
fn write_told<W: Write>(
    out: &mut W,
    refusal: Refusal<'_>,
    number: u64,
    words: &[u8],
) -> Result<(), Stop> {
    write_head(out, refusal.status, words.len().saturating_add(17))?;
    out.write_all(&[refusal.advice])?;
    write_numbers(out, &[refusal.taken, number])?;
    out.write_all(words)?;
    Ok(())
}
