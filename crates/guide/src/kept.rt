// Records over a file, in a journal of the crate `journal`.
ghost use Rattle.std.specs.Prelude.{◌≤◌, length};
ghost use Rattle.cache.specs.Pages.{IsFresh};

use cache::CacheRef;
use crc32c::Crc32c;
use disk::{Blob, Error, IoBuf};
use file::OpenError;
use journal::Journal;
use paged::{RECOMMENDED_CAPACITY, recommended_buffer_size, recommended_cache};
use std::alloc::Global;
use std::io;

/// A journal whose pages and whose records have the checksum CRC-32C.
type Records<B> = Journal<B, Crc32c, Crc32c>;

/// Why a record wasn't kept.
#[derive(Debug, Drop, thiserror::Error)]
pub enum KeptError {
    /// The file can't be opened.
    #[error("the file: {0}")]
    Open(#[from] OpenError),
    /// The system refused another call, as one that prints.
    #[error("the system: {0}")]
    System(#[from] io::Error),
    /// A call of the layer was refused.
    #[error("the journal: {0}")]
    Journal(#[from] Error),
}

/// Recovers a journal, and commits a record of these bytes, unless it came back as the last one.
/// Answers all records. So after an error it may be called again with the same bytes.
fn keep_in<B: Blob>(
    alloc: Global,
    blob: &mut B,
    cache: &mut CacheRef,
    bytes: &[u8],
) -> Result<Vec<IoBuf>, Error>
    requires fresh { IsFresh cache.old }
    requires short { length bytes.now ≤ 65535 }
{
    let (size, capacity) = (blob.len(), RECOMMENDED_CAPACITY);
    let reads = recommended_buffer_size();
    let (journal, mut records) = Records::<B>::recover(alloc, blob, size, capacity, cache, reads)?;
    if records.last().is_some_and(|last| last.as_ref() == bytes) {
        return Ok(records);
    }
    let (journal, offset) = journal.append_record(blob, cache, bytes)?;
    let journal = journal.commit(blob, cache)?;
    let found = journal.read_record(blob, cache, offset)?;
    if let Some(record) = found.and_then(|found| found.bytes) {
        records.push(record)?;
    }
    Ok(records)
}

/// Opens a file, keeps a record in it, and closes it. Answers all records.
pub fn keep_in_file(rt: &HostRuntime, path: &str, bytes: &[u8]) -> Result<Vec<IoBuf>, KeptError>
    requires short { length bytes.now ≤ 65535 }
{
    let mut blob = file::open(rt, path)?;
    let mut cache = recommended_cache(rt.alloc())?;
    Ok(keep_in(rt.alloc(), &mut blob, &mut cache, bytes)?)
}
