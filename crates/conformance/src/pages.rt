// The arithmetic of pages, and their footers, by their own calls.
use crate::forms::Argument::{Bytes, Number, Ranges};
use crate::forms::{Arguments, Form, read_step};
use crate::in_order::len_together;
use crate::line::Row;
use crate::subject::Subject;
use crate::words::{buffer_size, say_bytes, say_done, say_error, say_whether, unreadable};
use page::{
    ActiveChecksum, AddSum, Checksum, Slot, adjusted_capacity, page_size, physical_page,
    too_big_for_buffer, validate_read_ranges,
};
use std::alloc::Global;
use std::io;
use std::io::Write;
use std::num::NonZeroU16;

// What a step asks for.
#[derive(Clone, Copy)]
enum Verb {
    Size,
    Place,
    Capacity,
    TooBig,
    Within,
    Value,
    Bad,
    Footer,
    Slot,
}

const STEPS: [Form<Verb>; 9] = [
    (b"size", &[Number], Verb::Size),
    (b"place", &[Number, Number], Verb::Place),
    (b"capacity", &[Number, Number], Verb::Capacity),
    (b"too-big", &[Number, Number, Number, Number], Verb::TooBig),
    (b"within", &[Number, Ranges], Verb::Within),
    (b"value", &[Bytes], Verb::Value),
    (b"bad", &[Bytes], Verb::Bad),
    (b"footer", &[Bytes], Verb::Footer),
    (b"slot", &[Number, Number], Verb::Slot),
];

/// What asks about pages.
#[derive(Clone, Copy)]
pub struct Pages;

// The logical bytes of a physical page of 2^n bytes, if pages can have so many.
fn logical_size(n: u64) -> Option<NonZeroU16> {
    let physical = 2u32.checked_pow(u32::try_from(n).ok()?)?;
    if physical <= 12 || physical > 65_536 {
        return None;
    }
    Some(page_size(physical))
}

fn say_logical(n: u64, said: &mut Vec<u8>) -> io::Result<()> {
    match logical_size(n) {
        Some(size) => write!(said, "size {size}"),
        None => Err(unreadable()),
    }
}

fn say_place(page: u64, size: u64, said: &mut Vec<u8>) -> io::Result<()> {
    match physical_page(page, size) {
        Ok((offset, len)) => write!(said, "at {offset} len {len}"),
        Err(error) => say_error(error, said),
    }
}

fn say_capacity(capacity: usize, size: u64, said: &mut Vec<u8>) -> io::Result<()> {
    let size = buffer_size(size).get() as u64;
    match adjusted_capacity(capacity, size) {
        Ok(capacity) => write!(said, "capacity {capacity}"),
        Err(error) => say_error(error, said),
    }
}

// Whether bytes are too many for a buffer: how many it has, its capacity, how many come, and the
// logical bytes of a page.
fn say_too_big(words: &Arguments, said: &mut Vec<u8>) -> io::Result<()> {
    let size = buffer_size(words.number(3)).get();
    match too_big_for_buffer(words.length(0), words.length(1), words.length(2), size) {
        Ok(big) => say_whether(big, said),
        Err(error) => say_error(error, said),
    }
}

fn say_within(size: u64, ranges: &[(u64, usize)], said: &mut Vec<u8>) -> io::Result<()> {
    match len_together(ranges) {
        Some(len) => say_done(validate_read_ranges(len, ranges, size), said),
        None => Err(unreadable()),
    }
}

fn name_of(slot: Slot) -> &'static str {
    match slot {
        Slot::First => "first",
        Slot::Second => "second",
    }
}

// Which slot gives a page its value under the sum of the bytes, and what that slot holds.
fn say_value(page: &[u8], said: &mut Vec<u8>) -> io::Result<()> {
    match Checksum::validate_page::<AddSum>(page) {
        Some(ActiveChecksum { slot, len, crc }) => {
            write!(said, "{} {len} {crc:08x}", name_of(slot))
        }
        None => write!(said, "none"),
    }
}

// Which slot beside the one that gives a page its value is bad.
fn say_bad(page: &[u8], said: &mut Vec<u8>) -> io::Result<()> {
    match Checksum::bad_slot::<AddSum>(page) {
        Some(slot) => write!(said, "{} at {}", name_of(slot), slot.offset()),
        None => write!(said, "none"),
    }
}

fn say_slot(footer: Checksum, slot: Slot, said: &mut Vec<u8>) -> io::Result<()> {
    let (len, sum) = footer.get_slot(slot);
    write!(said, "{} {len:04x} {sum:08x} ", name_of(slot))
}

// What each slot of a footer holds, and which is longer, if the footer is then written as it was
// read.
fn say_footer(bytes: &[u8], said: &mut Vec<u8>) -> io::Result<()> {
    let Some((bytes, [])) = bytes.split_first_chunk::<12>() else {
        return Err(unreadable());
    };
    let footer = Checksum::from_bytes(*bytes);
    if footer.to_bytes() != *bytes {
        return write!(said, "fault other bytes");
    }
    let longer = footer.authoritative().slot;
    say_slot(footer, longer.other(), said)?;
    say_slot(footer, longer, said)?;
    write!(said, "longer")
}

// The bytes of a slot, if they begin with those of its length.
fn say_slot_bytes(len: u64, sum: u64, said: &mut Vec<u8>) -> io::Result<()> {
    let (Ok(len), Ok(sum)) = (u16::try_from(len), u32::try_from(sum)) else {
        return Err(unreadable());
    };
    let bytes = Checksum::slot_bytes(len, sum);
    if !bytes.starts_with(&Checksum::slot_len_bytes(len)) {
        return write!(said, "fault other bytes");
    }
    say_bytes("bytes", &bytes, said)
}

impl Subject for Pages {
    fn play(&mut self, alloc: Global, row: &Row, said: &mut Vec<u8>) -> io::Result<()> {
        let Some((verb, words)) = read_step(alloc, &STEPS, &row.step)? else {
            return Err(unreadable());
        };
        let first = words.number(0);
        match verb {
            Verb::Size => say_logical(first, said),
            Verb::Place => say_place(first, words.number(1), said),
            Verb::Capacity => say_capacity(words.length(0), words.number(1), said),
            Verb::TooBig => say_too_big(&words, said),
            Verb::Within => say_within(first, &words.ranges, said),
            Verb::Value => say_value(words.bytes(), said),
            Verb::Bad => say_bad(words.bytes(), said),
            Verb::Footer => say_footer(words.bytes(), said),
            Verb::Slot => say_slot_bytes(first, words.number(1), said),
        }
    }
}
