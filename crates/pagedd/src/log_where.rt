// Where a log begins and ends, and what its segments have. No closed one is read.
use crate::ending::or_end;
use crate::log_closed::Size;
use crate::log_told::LogCopy;
use crate::report::quoted;
use crate::request::Request;
use crate::status::Status;
use digest::Digest;
use page::Sum;
use segments::{Closed, Fingerprint};
use std::io;

/// Prints where a log begins and ends, and what was kept of its closed segments from `from` to
/// before `to`.
pub fn where_log<H: Sum, D: Digest>(
    rt: &HostRuntime,
    request: &Request,
    log: &LogCopy<H, D>,
    from: u64,
    to: u64,
) -> Result<Status, Status> {
    let (first, last) = (log.first_segment(), log.last_segment());
    tell_front(rt, request, first, last)?;
    tell_closed::<H, D>(rt, request, log, from.max(first), to.min(last))?;
    let count = log.len().unwrap_or(u64::MAX);
    or_end(
        rt,
        tell_end(rt, request.json, last, log.records(), log.size(), count),
    )?;
    Ok(Status::Done)
}

// Prints what stands in front of the closed segments.
fn tell_front(rt: &HostRuntime, request: &Request, first: u64, last: u64) -> Result<(), Status> {
    if !request.json {
        let file = request.file;
        return or_end(
            rt,
            println!(rt; "{file} has a log: segments {first} to {last}"),
        );
    }
    let file = quoted(rt, request.file)?;
    let page_size = request.shape.page_size;
    let checksum = request.shape.checksum.name();
    let printed = print!(rt;
        "{{\"file\":{file},\"page_size\":{page_size},\"checksum\":\"{checksum}\",\
         \"first\":{first},\"last\":{last},\"closed\":["
    );
    or_end(rt, printed)
}

// Prints what was kept of the closed segments from `from` to before `to`.
fn tell_closed<H: Sum, D: Digest>(
    rt: &HostRuntime,
    request: &Request,
    log: &LogCopy<H, D>,
    from: u64,
    to: u64,
) -> Result<(), Status> {
    let mut is_first = true;
    for number in from..to {
        if let Some(closed) = log.closed(number) {
            or_end(rt, print_kept(rt, request.json, number, &closed, is_first))?;
            is_first = false;
        }
    }
    Ok(())
}

// Prints what was kept of a closed segment.
fn print_kept(
    rt: &HostRuntime,
    is_json: bool,
    number: u64,
    closed: &Closed,
    is_first: bool,
) -> io::Result<()> {
    let records = closed.records;
    if !is_json {
        return println!(rt; "segment {number}: {records} records, {}", Size(closed));
    }
    let mark = if is_first { "" } else { "," };
    let (what, len) = match &closed.fingerprint {
        Fingerprint::Whole(kept) => ("bytes", kept.len),
        Fingerprint::Paged(kept) => ("content_bytes", kept.seal.len),
    };
    print!(rt; "{mark}{{\"segment\":{number},\"records\":{records},\"{what}\":{len}}}")
}

// Prints where the log ends, how many records the open segment has, and how many the log.
fn tell_end(
    rt: &HostRuntime,
    is_json: bool,
    last: u64,
    records: u64,
    end: u64,
    count: u64,
) -> io::Result<()> {
    if is_json {
        return println!(rt;
            "],\"open\":{{\"segment\":{last},\"records\":{records},\"end\":{end}}},\
             \"records\":{count}}}"
        );
    }
    println!(rt; "segment {last}: open, {records} records; it ends at offset {end}")?;
    println!(rt; "in all: {count} records")
}
