// Blobs that were changed at random, and what looks, surveys, recoveries and reads make of them.
use crate::calls::is_write;
use crate::opened::read;
use crate::random::Numbers;
use crate::stage::Stage;
use crate::step::content;
use crate::words::out_of_memory;
use disk::{Error, IoBuf, MemBlob};
use page::{Checksum, Sum};
use paged::{Survey, Verdict};
use scripts::Hex;
use std::alloc::{AllocError, Global};
use std::io;
use std::io::Write;
use std::num::{NonZeroU16, NonZeroUsize};

// The bytes of a footer.
const FOOTER: usize = 12;

// Changes a byte, to one that is often small.
fn change_byte(bytes: &mut Vec<u8>, numbers: &mut Numbers) {
    let at = numbers.below(bytes.len());
    let small = numbers.below(2) == 0;
    let byte = (numbers.below(if small { 8 } else { 256 }) % 256) as u8;
    if let Some(old) = bytes.get_mut(at) {
        *old = byte;
    }
}

// Puts a byte at a place, or after the last one.
fn put(bytes: &mut Vec<u8>, at: usize, byte: u8) -> Result<(), AllocError> {
    match bytes.get_mut(at) {
        Some(old) => *old = byte,
        None => bytes.push(byte)?,
    }
    Ok(())
}

// Copies a page over another, or behind the last one, or swaps the two.
fn move_page(
    bytes: &mut Vec<u8>,
    numbers: &mut Numbers,
    unit: usize,
    way: usize,
) -> Result<(), AllocError> {
    let pages = bytes.len() / unit.max(1);
    let from = numbers.below(pages).saturating_mul(unit);
    let over = numbers.below(pages).saturating_mul(unit);
    let to = if way == 0 { bytes.len() } else { over };
    for index in 0..unit {
        let (old, new) = (from.saturating_add(index), to.saturating_add(index));
        let one = bytes.get(old).copied().unwrap_or(0);
        let other = bytes.get(new).copied().unwrap_or(0);
        put(bytes, new, one)?;
        if way == 1 {
            put(bytes, old, other)?;
        }
    }
    Ok(())
}

// Makes a slot of a page verify, over some of its bytes.
fn seal<H: Sum>(bytes: &mut Vec<u8>, numbers: &mut Numbers, unit: usize) -> Result<(), AllocError> {
    let payload = unit.saturating_sub(FOOTER);
    let page = numbers.below(bytes.len() / unit.max(1));
    let len = numbers.below(payload).saturating_add(1);
    let slot = payload.saturating_add(numbers.below(2).saturating_mul(6));
    let start = page.saturating_mul(unit);
    let sum = match bytes.get(start..start.saturating_add(len)) {
        Some(value) => H::sum(value),
        None => return Ok(()),
    };
    let len = u16::try_from(len).unwrap_or(1);
    for (index, byte) in Checksum::slot_bytes(len, sum).iter().enumerate() {
        put(
            bytes,
            start.saturating_add(slot).saturating_add(index),
            *byte,
        )?;
    }
    Ok(())
}

fn change<H: Sum>(
    bytes: &mut Vec<u8>,
    numbers: &mut Numbers,
    unit: usize,
) -> Result<(), AllocError> {
    match numbers.below(8) {
        way @ 0..=2 => move_page(bytes, numbers, unit, way),
        3 | 4 => seal::<H>(bytes, numbers, unit),
        5 => {
            let len = numbers.below(bytes.len().saturating_add(1));
            bytes.truncate(len);
            Ok(())
        }
        6 => Ok(bytes.push((numbers.below(256) % 256) as u8)?),
        _ => {
            change_byte(bytes, numbers);
            Ok(())
        }
    }
}

// The bytes of a blob with some changes; for one blob in four other bytes, up to 96 of them.
fn changed<H: Sum>(
    alloc: Global,
    whole: &[u8],
    numbers: &mut Numbers,
    unit: usize,
) -> Result<Vec<u8>, AllocError> {
    let mut bytes = Vec::from_slice(alloc, whole)?;
    if numbers.below(4) == 0 {
        bytes.clear();
        for _ in 0..numbers.below(97) {
            bytes.push((numbers.below(256) % 256) as u8)?;
        }
    }
    for _ in 0..numbers.below(6).saturating_add(1) {
        change::<H>(&mut bytes, numbers, unit)?;
    }
    Ok(bytes)
}

// The value of a page: no bytes where no slot of it verifies.
fn value<H: Sum>(page: &[u8]) -> &[u8] {
    match Checksum::validate_page::<H>(page) {
        Some(slot) => page.get(..usize::from(slot.len)).unwrap_or(&[]),
        None => &[],
    }
}

// The text (what a recovery keeps): the values of the pages joined, up to and with the first that
// isn't full.
fn text<H: Sum>(alloc: Global, bytes: &[u8], page_size: NonZeroU16) -> Result<Vec<u8>, AllocError> {
    let len = usize::from(page_size.get());
    let mut text = Vec::new(alloc);
    for page in bytes.chunks_exact(len + FOOTER) {
        let value = value::<H>(page);
        text.extend_from_slice(value)?;
        if value.len() < len {
            break;
        }
    }
    Ok(text)
}

// Whether a survey fits what the recovery did. Its verdict is `Whole` exactly if the recovery wrote
// nothing. If it has nothing to set aside, the recovery cut only zeros.
fn is_right_of(survey: &Survey, page_size: NonZeroU16, cut: &[u8], wrote: bool) -> bool {
    let whole = survey.verdict(page_size, 0) == Verdict::Whole;
    let zeros = cut.iter().all(|byte| *byte == 0);
    whole != wrote && (zeros || survey.set_aside_len(page_size) > 0)
}

// Whether a look and a survey report what a recovery of these bytes does, the recovery leaves their
// text, and a second recovery writes nothing.
fn goes<H: Sum>(
    stage: &mut Stage<H>,
    bytes: &[u8],
    text: &[u8],
    buffer_size: NonZeroUsize,
) -> Result<bool, Error> {
    let told = stage.look(buffer_size)?;
    let survey = stage.survey(buffer_size)?;
    let start = stage.device_calls().len();
    let size = stage.recover(buffer_size)?;
    let left = stage.bytes().len();
    let wrote = stage.device_calls().iter().skip(start).any(is_write);
    let first = content(stage)?;
    let mark = stage.device_calls().len();
    let again = stage.recover(NonZeroUsize::MIN)?;
    let second = content(stage)?;
    let calls = stage.device_calls();
    let cut = bytes.get(left..).unwrap_or(&[]);
    Ok(
        told.len == size
            && told.cut == cut.len() as u64
            && survey.outlook == told
            && is_right_of(&survey, stage.page_size(), cut, wrote)
            && again == size
            && first.as_slice() == text
            && second.as_slice() == text
            && !calls.iter().skip(mark).any(is_write),
    )
}

// Whether a read of a page is right in a blob that wasn't recovered: it answers the bytes of a full
// page, or an error for a page that isn't full.
fn is_right(answer: &Result<IoBuf, Error>, value: &[u8], len: usize) -> bool {
    match answer {
        Ok(buf) => buf.as_ref() == value && value.len() == len,
        Err(Error::InvalidChecksum | Error::BlobInsufficientLength) => value.len() < len,
        Err(_) => false,
    }
}

// Whether reads of the pages are right by a writer that opens the blob as it is.
fn reads_well<H: Sum>(alloc: Global, bytes: &[u8], page_size: NonZeroU16) -> Result<bool, Error> {
    let len = usize::from(page_size.get());
    let mut blob = MemBlob::from_bytes(alloc, bytes)?;
    for (index, page) in bytes.chunks_exact(len + FOOTER).enumerate() {
        let offset = (index as u64).saturating_mul(len as u64);
        let answer = read::<H>(alloc, &mut blob, page_size, offset, len);
        if answer.as_ref().err() == Some(&Error::OutOfMemory) {
            return Err(Error::OutOfMemory);
        }
        if !is_right(&answer, value::<H>(page), len) {
            return Ok(false);
        }
    }
    Ok(true)
}

fn try_one<H: Sum>(stage: &Stage<H>, alloc: Global, bytes: &[u8]) -> Result<bool, Error> {
    let text = text::<H>(alloc, bytes, stage.page_size())?;
    let mut other = stage.another(alloc, bytes)?;
    Ok(
        goes(&mut other, bytes, &text, NonZeroUsize::MIN)?
            && reads_well::<H>(alloc, bytes, stage.page_size())?,
    )
}

/// Tries blobs that are the stage's with some changes, or other bytes. Writes the first that
/// doesn't go well.
pub fn try_hostile<H: Sum>(
    alloc: Global,
    stage: &Stage<H>,
    seed: u64,
    count: u64,
    said: &mut Vec<u8>,
) -> io::Result<()> {
    let unit = usize::from(stage.page_size().get()).saturating_add(FOOTER);
    let mut numbers = Numbers::new(seed);
    for _ in 0..count {
        let bytes = changed::<H>(alloc, stage.bytes(), &mut numbers, unit)?;
        match try_one(stage, alloc, &bytes) {
            Ok(true) => {}
            Err(Error::OutOfMemory) => return Err(out_of_memory()),
            _ => return write!(said, "fault at {}", Hex(&bytes)),
        }
    }
    write!(said, "tried {count}")
}
