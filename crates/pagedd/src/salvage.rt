// Putting all that verifies into a new file.
ghost use Rattle.cache.specs.Pages.{IsFresh};

use crate::ending::{fail, or_end, tell};
use crate::look::{looked, read};
use crate::opening::{fail_blob, open};
use crate::pages::Pages;
use crate::refusing::Causes;
use crate::request::Request;
use crate::salvaged::{Content, Gap, Salvaged};
use crate::status::Status;
use cache::CacheRef;
use disk::{Blob, Error, VecBlob};
use file::FileBlob;
use page::Sum;
use paged::Writer;
use std::alloc::Global;
use std::fs::File;
use std::{fs, io};

/// At most so many pages that may have had more are named for a file.
const MOST: usize = 20;

/// Puts the values of all pages of a file that have one, and then those of the files that were set
/// aside of it, into a new blob `out`, and makes it durable. Standard error says what is missing.
/// The file is whole where nothing is missing.
pub fn salvage<H: Sum>(
    rt: &HostRuntime,
    request: &Request,
    set_aside: &[&str],
    out: &str,
) -> Result<Status, Status> {
    if let Some(name) = named_twice(request.file, set_aside) {
        let words = "it is named twice, and would stand twice in the new blob";
        return Err(fail(rt, name, words));
    }
    let mut blob = read(rt, request.file)?;
    salvage_of::<H>(rt, request, &mut blob, set_aside, out)
}

// Salvages a file that was read.
fn salvage_of<H: Sum>(
    rt: &HostRuntime,
    request: &Request,
    blob: &mut VecBlob,
    set_aside: &[&str],
    out: &str,
) -> Result<Status, Status> {
    let mut content = Content::new(rt.alloc());
    let mut parts = Vec::new(rt.alloc());
    let given = gather_all::<H>(rt, request, blob, set_aside, &mut content, &mut parts)?;
    if given > 0 && content.bytes.is_empty() {
        return refuse::<H>(rt, request, blob);
    }
    make::<H>(rt, request, out, &content.bytes)?;
    or_end(
        rt,
        tell_made(rt, set_aside, out, content.bytes.len(), &parts),
    )?;
    Ok(tell_all_missing(rt, request, set_aside, out, &parts))
}

// Gathers the values of a file and of what was set aside of it, and answers how many bytes these
// files have.
fn gather_all<H: Sum>(
    rt: &HostRuntime,
    request: &Request,
    blob: &VecBlob,
    set_aside: &[&str],
    content: &mut Content,
    parts: &mut Vec<Salvaged>,
) -> Result<u64, Status> {
    let mut given = blob.len();
    gather::<H>(rt, request, blob, content, parts)?;
    for name in set_aside {
        let part = read(rt, name)?;
        given = given.saturating_add(part.len());
        gather::<H>(rt, request, &part, content, parts)?;
    }
    Ok(given)
}

// Gathers the values of one file.
fn gather<H: Sum>(
    rt: &HostRuntime,
    request: &Request,
    blob: &VecBlob,
    content: &mut Content,
    parts: &mut Vec<Salvaged>,
) -> Result<(), Status> {
    let part = Salvaged::gather::<H>(rt, request.shape, blob.bytes(), content)?;
    parts.push(part)?;
    Ok(())
}

// A file that is named twice, if one is.
fn named_twice<'a>(file: &'a str, set_aside: &[&'a str]) -> Option<&'a str> {
    for (at, name) in set_aside.iter().enumerate() {
        let earlier = set_aside.iter().take(at);
        if *name == file || earlier.into_iter().any(|other| other == name) {
            return Some(*name);
        }
    }
    None
}

// Says that no page of a file verifies, and why that may be.
fn refuse<H: Sum>(
    rt: &HostRuntime,
    request: &Request,
    blob: &mut VecBlob,
) -> Result<Status, Status> {
    let look = looked::<VecBlob, H>(rt, request, blob)?;
    let causes = Causes::of(rt.alloc(), blob.bytes(), look)?;
    let file = request.file;
    tell(
        rt,
        format_args!("{file}: {causes}; no page verifies, so nothing was salvaged"),
    );
    Ok(Status::NotWhole)
}

// Makes a new blob with this content. A file that is there stays as it is. Where the new one fails,
// it is removed.
fn make<H: Sum>(
    rt: &HostRuntime,
    request: &Request,
    out: &str,
    content: &[u8],
) -> Result<(), Status> {
    if let Err(error) = File::create_new(rt, out) {
        return Err(fail(rt, out, error));
    }
    let made = fill::<H>(rt, request, out, content);
    if made.is_err() {
        let _ = fs::remove_file(rt, out);
    }
    made
}

// Opens a new file, and makes it a blob with this content.
fn fill<H: Sum>(
    rt: &HostRuntime,
    request: &Request,
    out: &str,
    content: &[u8],
) -> Result<(), Status> {
    let mut blob = open(rt, out)?;
    match keep::<H>(rt, request, &mut blob, content) {
        Ok(()) => Ok(()),
        Err(error) => Err(fail_blob(rt, out, &blob, error)),
    }
}

// Makes a file that was opened a blob with this content.
fn keep<H: Sum>(
    rt: &HostRuntime,
    request: &Request,
    blob: &mut FileBlob,
    content: &[u8],
) -> Result<(), Error> {
    let mut cache = CacheRef::new(rt.alloc(), request.shape.page_size, request.cache)?;
    write::<FileBlob, H>(rt.alloc(), request, blob, &mut cache, content)
}

/// The bytes of a file with this content.
pub fn blob_of<H: Sum>(alloc: Global, request: &Request, content: &[u8]) -> Result<VecBlob, Error> {
    let mut blob = VecBlob::new(alloc);
    let mut cache = CacheRef::new(alloc, request.shape.page_size, request.cache)?;
    write::<VecBlob, H>(alloc, request, &mut blob, &mut cache, content)?;
    Ok(blob)
}

// Appends the content to a new blob, and syncs it.
fn write<B: Blob, H: Sum>(
    alloc: Global,
    request: &Request,
    blob: &mut B,
    cache: &mut CacheRef,
    content: &[u8],
) -> Result<(), Error>
    requires fresh { IsFresh cache.old }
{
    let size = blob.len();
    let buffer = request.buffer;
    let recovery = paged::recover::<B, H>(alloc, blob, size, buffer.get(), cache, buffer)?;
    let writer: Writer<B, H> = Writer::from(recovery);
    let (writer, _) = writer.append(blob, cache, content)?;
    writer.sync(blob, cache)?;
    Ok(())
}

// Says what is in the new blob.
fn tell_made(
    rt: &HostRuntime,
    set_aside: &[&str],
    out: &str,
    len: usize,
    parts: &[Salvaged],
) -> io::Result<()> {
    let mut pages = 0u64;
    for part in parts {
        pages = pages.saturating_add(part.pages);
    }
    println!(rt; "{out} has {len} bytes, of {}", Pages(pages))?;
    for (name, part) in set_aside.iter().zip(parts.iter().skip(1)) {
        if let Some(at) = part.repeats {
            println!(rt;
                "the value of the first page of {name} stands at byte {at} of {out} already, and isn't \
                 there twice"
            )?;
        }
        let Salvaged { begin, pages, .. } = part;
        println!(rt;
            "{name} begins at byte {begin} of {out}, with {}",
            Pages(*pages)
        )?;
    }
    Ok(())
}

// Says what of each file is missing, and answers whether nothing is.
fn tell_all_missing(
    rt: &HostRuntime,
    request: &Request,
    set_aside: &[&str],
    out: &str,
    parts: &[Salvaged],
) -> Status {
    if let Some(part) = parts.first() {
        tell_missing(rt, request.file, out, part);
    }
    for (name, part) in set_aside.iter().zip(parts.iter().skip(1)) {
        tell_missing(rt, name, out, part);
    }
    Status::of_file(parts.iter().all(|part| part.is_whole()))
}

// Says what of a file is missing.
fn tell_missing(rt: &HostRuntime, file: &str, out: &str, part: &Salvaged) {
    for gap in &part.gaps {
        let Gap {
            offset,
            missing,
            ..
        } = gap;
        tell(
            rt,
            format_args!(
                "{file}: {gap}: {missing} bytes, if full, are missing at offset {offset} of {out}"
            ),
        );
    }
    if part.rest.without > 0 {
        let last = Pages(part.rest.without as u64);
        tell(rt, format_args!("{file}: its last {last} without a value"));
    }
    for number in part.short.iter().take(MOST) {
        tell(
            rt,
            format_args!(
                "{file}: page {number}: its other slot fails, so it may have had more than is in {out}"
            ),
        );
    }
    let others = part.short.len().saturating_sub(MOST);
    if others > 0 {
        tell(
            rt,
            format_args!("{file}: and {others} pages more with such a slot"),
        );
    }
    if part.tail > 0 {
        let tail = part.tail;
        tell(
            rt,
            format_args!("{file}: its last {tail} bytes are less than a page, and aren't in {out}"),
        );
    }
}
