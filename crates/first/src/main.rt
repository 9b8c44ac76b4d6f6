//! Appends a line to a blob over a file, and prints all lines: one more each time that it runs.
#![tactic(auto)]

ghost use Rattle.cache.specs.Pages.{IsFresh};

use cache::CacheRef;
use crc32c::Crc32c;
use disk::{Blob, IoBuf};
use file::{FileBlob, OpenError};
use paged::{
    RECOMMENDED_CAPACITY, RECOMMENDED_LIMIT, Verdict, Writer, recommended_buffer_size,
    recommended_cache, recommended_page_size, recover, survey,
};
use std::alloc::Global;
use std::{env, io};

/// Why the program ended early.
#[derive(Debug, Drop, thiserror::Error)]
enum FirstError {
    /// The file can't be opened.
    #[error("the file: {0}")]
    Open(#[from] OpenError),
    /// What goes can't be set aside.
    #[error("the file: {0}")]
    File(#[from] io::Error),
    /// A call of the layer was refused.
    #[error("the blob: {0}")]
    Blob(#[from] disk::Error),
    /// No crash of this program leaves such a file. Nothing was changed.
    #[error("a recovery would cut what a crash doesn't leave: is it the right file?")]
    NoSuchCrash,
}

/// Looks at an opened file, and writes what a recovery gives up, and may have been synced, to a
/// file beside it. The blob stays as it is.
fn look_first(rt: &HostRuntime, path: &str, blob: &mut FileBlob) -> Result<(), FirstError> {
    let (size, page_size) = (blob.len(), recommended_page_size());
    let reads = recommended_buffer_size();
    let survey = survey::<FileBlob, Crc32c>(rt.alloc(), blob, size, page_size, reads)?;
    if survey.verdict(page_size, RECOMMENDED_LIMIT) == Verdict::Refuse {
        return Err(FirstError::NoSuchCrash);
    }
    let len = survey.set_aside_len(page_size) as usize;
    if len > 0 {
        let start = blob.bytes().len().saturating_sub(len);
        file::set_aside(rt, path, blob.bytes().get(start..).unwrap_or_default())?;
    }
    Ok(())
}

/// Recovers a blob, appends a line, makes it durable, and reads all lines.
fn add_line<B: Blob>(
    alloc: Global,
    blob: &mut B,
    cache: &mut CacheRef,
    line: &[u8],
) -> Result<IoBuf, disk::Error>
    requires fresh { IsFresh cache.old }
{
    let (size, reads) = (blob.len(), recommended_buffer_size());
    let recovery = recover::<B, Crc32c>(alloc, blob, size, RECOMMENDED_CAPACITY, cache, reads)?;
    let writer: Writer<B, Crc32c> = Writer::from(recovery);
    let (writer, _offset) = writer.append(blob, cache, line)?;
    let writer = writer.sync(blob, cache)?;
    let len = writer.size() as usize;
    writer.read_at(blob, cache, 0, len)?.coalesce()
}

fn keep_line(rt: &HostRuntime, path: &str, line: &[u8]) -> Result<IoBuf, FirstError> {
    let mut blob = file::open(rt, path)?;
    look_first(rt, path, &mut blob)?;
    let mut cache = recommended_cache(rt.alloc())?;
    Ok(add_line(rt.alloc(), &mut blob, &mut cache, line)?)
}

fn main(rt: HostRuntime) -> anyhow::Result<()> {
    let Some(path) = env::args(&rt)?.nth(1) else {
        return Ok(println!(rt; "name a file")?);
    };
    let lines = keep_line(&rt, path.as_str(), b"one more line\n")?;
    print!(rt; "{}", str::from_utf8(lines.as_ref()).unwrap_or("no text"))?;
    Ok(())
}
