// A picture of a file's pages.
use crate::ending::{fail, or_end};
use crate::pages::Page;
use crate::report::print_map;
use crate::request::{Request, Shape};
use crate::status::Status;
use disk::VecBlob;
use page::Sum;
use paged::physical_page_size;
use std::alloc::{AllocError, Global};
use std::{io, str};

/// So many marks make a line.
const ROW: usize = 64;

/// What the marks mean.
const LEGEND: &str =
    "# full, + partial, ~ with a bad slot, ! no value, . empty, < less than a page";

/// Draws the pages of a file from page `from` to before page `to`: a mark for each, or where `long`
/// a line for each, with what its slots say. A part of a page at the end counts as a page.
pub fn map<H: Sum>(
    rt: &HostRuntime,
    request: &Request,
    blob: &VecBlob,
    from: u64,
    to: u64,
    long: bool,
) -> Result<Status, Status> {
    let bytes = blob.bytes();
    let size = physical_page_size(request.shape.page_size) as usize;
    let places = bytes.len().div_ceil(size);
    let first = (from as usize).min(places);
    let end = (to as usize).min(places);
    if from >= to || from > 0 && first == places {
        let words = "--from and --to leave none of its pages";
        let count = bytes.len() / size;
        return Err(fail(rt, request.file, format_args!("{words}: it has {count}")));
    }
    if long && !request.json {
        or_end(rt, draw_long::<H>(rt, bytes, request.shape, first, end))?;
        return Ok(Status::Done);
    }
    let marks = marks_of::<H>(rt.alloc(), bytes, request.shape, first, end)?;
    if request.json {
        print_map(rt, request, first, end, &marks, bytes.len() % size)?;
    } else {
        or_end(rt, draw(rt, LEGEND, first as u64, &marks))?;
    }
    Ok(Status::Done)
}

fn marks_of<H: Sum>(
    alloc: Global,
    bytes: &[u8],
    shape: Shape,
    first: usize,
    end: usize,
) -> Result<String, AllocError> {
    let size = physical_page_size(shape.page_size) as usize;
    let count = end.saturating_sub(first);
    let mut marks = String::new(alloc);
    for bytes in bytes.chunks(size).skip(first).take(count) {
        let mark = if bytes.len() < size {
            '<'
        } else {
            Page::of::<H>(bytes).mark(shape.page_size)
        };
        marks.push(mark)?;
    }
    Ok(marks)
}

/// Draws rows of marks under a legend, each row after the number of its first page or segment.
pub fn draw(rt: &HostRuntime, legend: &str, first: u64, marks: &str) -> io::Result<()> {
    println!(rt; "{legend}")?;
    let mut number = first;
    for row in marks.as_bytes().chunks(ROW) {
        let row = str::from_utf8(row).unwrap_or_default();
        println!(rt; "{number:>10} {row}")?;
        number = number.saturating_add(ROW as u64);
    }
    Ok(())
}

// Draws a line for each page.
fn draw_long<H: Sum>(
    rt: &HostRuntime,
    bytes: &[u8],
    shape: Shape,
    first: usize,
    end: usize,
) -> io::Result<()> {
    println!(rt; "{LEGEND}")?;
    let size = physical_page_size(shape.page_size) as usize;
    let count = end.saturating_sub(first);
    for (number, bytes) in bytes.chunks(size).enumerate().skip(first).take(count) {
        if bytes.len() < size {
            println!(rt; "{number:>10} < {} bytes", bytes.len())?;
        } else {
            let page = Page::of::<H>(bytes);
            println!(rt; "{number:>10} {} {page}", page.mark(shape.page_size))?;
        }
    }
    Ok(())
}
