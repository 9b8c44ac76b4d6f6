// Reporting what the folder of a log holds.
use crate::ending::or_end;
use crate::log_closed::{ListState, Size};
use crate::log_files::{copy_of, manifest_in, segment_in};
use crate::log_known::{CopyState, copy_state_of};
use crate::log_names::FolderNames;
use crate::log_parts::{Checked, Kept, Part};
use crate::log_refusing::{Why, fit_of, refuse_log};
use crate::log_report::{print_closed, print_ending, print_heading, print_names, print_unopened};
use crate::log_told::LogCopy;
use crate::request::Request;
use crate::status::Status;
use digest::Digest;
use page::Sum;
use segments::{Closed, Error};
use std::io;

/// Reports what a log has, and which of its files aren't whole. The log is whole where each closed
/// segment holds what it held when it was closed, and a recovery of the manifest and of the open
/// segment gives up nothing.
pub fn check_log<H: Sum, D: Digest>(
    rt: &HostRuntime,
    request: &Request,
    log: &LogCopy<H, D>,
) -> Result<Status, Status> {
    let folder = request.file;
    let last = log.last_segment();
    let manifest_path = manifest_in(rt.alloc(), folder)?;
    let open_path = segment_in(rt.alloc(), folder, last)?;
    let manifest = Part::of::<H>(rt, request, manifest_path.as_str(), log.manifest_size())?;
    let open = Part::of::<H>(rt, request, open_path.as_str(), log.size())?;
    let count = log.len().unwrap_or(u64::MAX);
    if request.json {
        print_heading(rt, request, log.first_segment(), last, &manifest)?;
    } else {
        or_end(rt, tell_heading(rt, request, log.first_segment(), last))?;
        or_end(
            rt,
            tell_part(rt, "manifest", &manifest, manifest_path.as_str()),
        )?;
    }
    let are_whole = check_closed::<H, D>(rt, request, log)?;
    let names = FolderNames::of(rt, folder)?;
    let copy = copy_state_of::<H>(rt, request)?;
    if request.json {
        print_ending(rt, last, log.records(), &open, count)?;
        print_names(rt, &names, copy.name())?;
    } else {
        or_end(
            rt,
            tell_open(rt, last, log.records(), &open, open_path.as_str()),
        )?;
        or_end(rt, println!(rt; "in all: {} records", count))?;
        or_end(rt, tell_names(rt, &names, &copy))?;
    }
    Ok(Status::of_file(are_whole && manifest.is_whole && open.is_whole))
}

fn tell_heading(rt: &HostRuntime, request: &Request, first: u64, last: u64) -> io::Result<()> {
    let name = request.shape.checksum.name();
    println!(rt;
        "{} has a log: segments {first} to {last}, pages of {} bytes, {name}",
        request.file, request.shape.page_size
    )
}

// Prints the state of a file that an opening recovers.
fn tell_part(rt: &HostRuntime, what: &str, part: &Part, path: &str) -> io::Result<()> {
    if part.is_whole {
        println!(rt; "{what}: {part}")
    } else {
        println!(rt; "{what}: {part}: see 'pagedd check {path}'")
    }
}

fn tell_open(
    rt: &HostRuntime,
    number: u64,
    records: u64,
    part: &Part,
    path: &str,
) -> io::Result<()> {
    print!(rt; "segment {number}: open, {records} records; ")?;
    tell_part(rt, "its file", part, path)
}

// Prints what else the folder has: what isn't the log's, and copies of what was cut. If the copy of
// the manifest isn't whole, a line says so.
fn tell_names(rt: &HostRuntime, names: &FolderNames, copy: &CopyState) -> io::Result<()> {
    match copy {
        CopyState::Whole(_) => {}
        CopyState::Missing => println!(rt; "manifest.copy: missing, so the manifest stands once")?,
        CopyState::Bad => println!(rt; "manifest.copy: not whole, so the manifest stands once")?,
    }
    if names.cut_count > 0 {
        println!(rt;
            "set aside, of what was cut: files *.cut-N: {}",
            names.cut_count
        )?;
    }
    if names.other_count > 0 {
        println!(rt; "not of the log: {names}")?;
    }
    Ok(())
}

// Prints the state of each closed segment, and answers whether all are whole.
fn check_closed<H: Sum, D: Digest>(
    rt: &HostRuntime,
    request: &Request,
    log: &LogCopy<H, D>,
) -> Result<bool, Status> {
    let mut folder = copy_of(rt, request.file)?;
    let mut are_whole = true;
    let mut is_first = true;
    for number in log.first_segment()..log.last_segment() {
        let Some(closed) = log.closed(number) else {
            continue;
        };
        let checked = Checked::of::<D>(rt, request, &mut folder, number, &closed)?;
        are_whole = are_whole && checked.kept == Kept::Whole;
        if request.json {
            print_closed(rt, number, &closed, &checked, is_first)?;
        } else {
            or_end(rt, tell_closed(rt, number, &closed, &checked))?;
        }
        is_first = false;
    }
    Ok(are_whole)
}

// Prints the state of a closed segment, and which of its pages are wrong. A line says if its list
// isn't whole.
fn tell_closed(
    rt: &HostRuntime,
    number: u64,
    closed: &Closed,
    checked: &Checked,
) -> io::Result<()> {
    let words = checked.kept.words();
    println!(rt;
        "segment {number}: {} records, {}, {words}",
        closed.records,
        Size(closed)
    )?;
    if !checked.wrong.is_empty() {
        println!(rt; "segment {number}: wrong pages: {checked}")?;
    }
    if checked.unknown > 0 {
        println!(rt;
            "segment {number}: which are wrong of {} pages isn't known, without their digests",
            checked.unknown
        )?;
    }
    match checked.list {
        None | Some(ListState::Whole) => Ok(()),
        Some(ListState::Unmarked) => {
            println!(rt; "segment {number}: its marks are wrong: reads go on without them")
        }
        Some(list) => println!(rt;
            "segment {number}: its list is {}: reads compute it again, as long as the segment is whole",
            list.name()
        ),
    }
}

/// Prints why a log can't be opened. Where the status is 1, standard error says it too.
pub fn check_unopened(
    rt: &HostRuntime,
    request: &Request,
    error: &Error,
) -> Result<Status, Status> {
    let why = Why(error);
    if request.json {
        print_unopened(rt, request, why)?;
    } else {
        or_end(
            rt,
            println!(rt; "{}: the log can't be opened: {why}", request.file),
        )?;
        if matches!(error, Error::Manifest) {
            tell_manifest(rt, request)?;
        }
    }
    match error {
        Error::System(_) | Error::Unsynced(_) | Error::Layer(_) => Ok(refuse_log(
            rt, request, error,
        )),
        _ => Ok(Status::NotWhole),
    }
}

// Prints with which page size and checksum the manifest can be read, if there are such.
fn tell_manifest(rt: &HostRuntime, request: &Request) -> Result<(), Status> {
    let path = manifest_in(rt.alloc(), request.file)?;
    let told = match fit_of(rt, request, path.as_str())? {
        Some(fit) => println!(rt; "manifest: {fit}"),
        None => println!(rt; "manifest: see 'pagedd check {path}'"),
    };
    or_end(rt, told)
}
