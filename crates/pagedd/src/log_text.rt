// The text of a log's file with all that its pages may hold, and the frames in it that fit.
use crate::pages::{Page, SlotState};
use crate::request::Shape;
use page::Sum;
use paged::physical_page_size;
use std::alloc::{AllocError, Global};

/// How many bytes a frame has besides its record.
const AROUND: usize = 7;

/// At most so many empty records are looked past for one that isn't empty.
const EMPTY: usize = 16;

/// What the pages of a file hold, one after another: also what a page without a value may hold, so
/// that the offsets are those of the text as it was written.
#[derive(Drop)]
pub struct Text {
    pub bytes: Vec<u8>,
    /// Whether each page has a value and no bad slot, and all but the last are full.
    pub is_whole: bool,
}

impl Text {
    /// The text of a file of these bytes.
    pub fn of<H: Sum>(alloc: Global, shape: Shape, bytes: &[u8]) -> Result<Self, AllocError> {
        let size = physical_page_size(shape.page_size) as usize;
        let full = usize::from(shape.page_size.get());
        let last = bytes.len().div_ceil(size).saturating_sub(1);
        let mut text = Text {
            bytes: Vec::new(alloc),
            is_whole: true,
        };
        for (number, page) in bytes.chunks(size).enumerate() {
            let (len, is_whole) = extent_of::<H>(page, size, full, number == last);
            text.is_whole = text.is_whole && is_whole;
            text.bytes
                .extend_from_slice(page.get(..len).unwrap_or(page))?;
        }
        Ok(text)
    }
}

// How many bytes at the front of a page may be of the text, and whether it has a value and no bad
// slot, and is full, or the last one.
fn extent_of<H: Sum>(page: &[u8], size: usize, full: usize, is_last: bool) -> (usize, bool) {
    if page.len() < size {
        return (full.min(page.len()), false);
    }
    let state = Page::of::<H>(page);
    let len = usize::from(state.len);
    let is_good = len > 0 && state.bad.is_none();
    if !is_last || len == full {
        return (full, is_good && len == full);
    }
    if is_good {
        return (len, true);
    }
    let [first, second] = state.slots;
    match stated(first).max(stated(second)).max(len) {
        0 => (full, false),
        most => (full.min(most), false),
    }
}

// How many bytes a slot states.
fn stated(slot: SlotState) -> usize {
    match slot {
        SlotState::Empty => 0,
        SlotState::Verifies(len) | SlotState::Fails(len) | SlotState::NoLength(len) => {
            usize::from(len)
        }
    }
}

/// A frame that fits, after bytes that are in none.
#[derive(Clone, Copy)]
pub struct Piece<'a> {
    /// The offset of the first byte that is in no frame that fits, or else of the frame.
    pub offset: usize,
    /// How many bytes are in no frame that fits.
    pub gap: usize,
    /// The record of the frame behind them; `None` at the end of the text.
    pub record: Option<&'a [u8]>,
}

/// The frames of a text that fit, one after another. A frame has a length, a record, its checksum
/// and a byte 1, so behind bytes that are none the next one is found by a try at each offset.
#[derive(Clone, Copy)]
pub struct Frames<'a> {
    text: &'a [u8],
    at: usize,
}

impl<'a> Frames<'a> {
    /// The frames of this text.
    pub fn of(text: &'a [u8]) -> Self {
        Frames { text, at: 0 }
    }

    /// The offset behind the last piece.
    pub fn offset(&self) -> usize {
        self.at
    }

    /// The next frame that fits, with what stands in front of it; `None` at the end of the text.
    pub fn next<H: Sum>(&mut self) -> Option<Piece<'a>> {
        let offset = self.at;
        let rest = self.text.get(offset..).unwrap_or_default();
        if rest.is_empty() {
            return None;
        }
        let (gap, record) = found_in::<H>(rest);
        let behind = record.map_or(0, |record: &[u8]| record.len().saturating_add(AROUND));
        self.at = offset.saturating_add(gap).saturating_add(behind);
        Some(Piece {
            offset,
            gap,
            record,
        })
    }
}

// How many bytes stand in front of the first frame that fits, and its record. Behind a frame of
// which the record alone is damaged, the next one is taken, so that no bytes of that record are.
fn found_in<H: Sum>(rest: &[u8]) -> (usize, Option<&[u8]>) {
    if let Some(record) = record_at::<H>(rest) {
        return (0, Some(record));
    }
    let first = damaged_len::<H>(rest);
    if first == rest.len() {
        return (first, None);
    }
    for gap in first.max(1)..rest.len() {
        let bytes = rest.get(gap..).unwrap_or_default();
        if let Some(record) = record_at::<H>(bytes) {
            if !record.is_empty() || leads_on::<H>(bytes) {
                return (gap, Some(record));
            }
        }
    }
    (rest.len(), None)
}

// The record of the frame at the front of these bytes, if its checksum fits.
fn record_at<H: Sum>(bytes: &[u8]) -> Option<&[u8]> {
    let (record, rest) = framed_at(bytes)?;
    let [first, second, third, fourth, mark] = *rest.first_chunk::<5>()?;
    let sum = u32::from_be_bytes([first, second, third, fourth]);
    (mark == 1 && H::sum(record) == sum).then_some(record)
}

// The bytes that the record of a frame at the front of these bytes has, and those behind them.
fn framed_at(bytes: &[u8]) -> Option<(&[u8], &[u8])> {
    let (head, rest) = bytes.split_first_chunk::<2>()?;
    rest.split_at_checked(usize::from(u16::from_be_bytes(*head)))
}

// How many bytes the frame at the front of these has, if its record alone is damaged: its byte 1 is
// there, and the text ends behind it or a frame with a record follows. Else 0.
fn damaged_len<H: Sum>(bytes: &[u8]) -> usize {
    let Some((record, rest)) = framed_at(bytes) else {
        return 0;
    };
    let Some((after, behind)) = rest.split_first_chunk::<5>() else {
        return 0;
    };
    let [_, _, _, _, mark] = *after;
    if mark == 1 && (behind.is_empty() || leads_on::<H>(behind)) {
        record.len().saturating_add(AROUND).min(bytes.len())
    } else {
        0
    }
}

// Whether a frame with a record that isn't empty is at the front of these bytes, perhaps behind
// some with empty ones. Six zeros and a byte 1 are an empty record's frame, and stand in other
// bytes too.
fn leads_on<H: Sum>(bytes: &[u8]) -> bool {
    let mut rest = bytes;
    for _ in 0..EMPTY {
        match record_at::<H>(rest) {
            Some(record) if record.is_empty() => rest = rest.get(AROUND..).unwrap_or_default(),
            found => return found.is_some(),
        }
    }
    false
}

/// What a text begins with: frames that fit, up to the first place where none does.
#[derive(Clone, Copy)]
pub struct Front {
    pub records: u64,
    /// How many bytes these frames have.
    pub len: usize,
    /// Whether a frame that fits comes after that place.
    pub goes_on: bool,
}

impl Front {
    /// The front of this text.
    pub fn of<H: Sum>(text: &[u8]) -> Self {
        let mut frames = Frames::of(text);
        let mut front = Front {
            records: 0,
            len: 0,
            goes_on: false,
        };
        for _ in 0..u64::MAX {
            match frames.next::<H>() {
                Some(piece) if piece.gap == 0 => {
                    front.records = front.records.saturating_add(1);
                    front.len = frames.offset();
                }
                Some(piece) => {
                    front.goes_on = piece.record.is_some();
                    break;
                }
                None => break,
            }
        }
        front
    }
}
