// Opening after a crash: blobs that end inside a page, whose last page is torn, or that go on for
// megabytes of pages with no value, or with a wrong one.
ghost use Rattle.std.specs.Prelude.{IfOk, OnOk};
ghost use Rattle.cache.specs.Pages.{IsFresh};

use crate::commit::append_records;
use crate::digest::Digest;
use crate::load::append_values;
use crate::random::{Random, Records};
use crate::stage::{Plan, Stage};
use anyhow::Result;
use bytes::Bytes;
use disk::{Blob, Error, IoBuf, IoBufs, VecBlob, WriteOptions};
use page::{CHECKSUM_SIZE, Sum};
use paged::survey;
use std::alloc::Global;
use std::num::{NonZeroU16, NonZeroUsize};

/// How often each blob is damaged and opened.
const OPENED: u64 = 24;

/// The most bytes that a crash cuts off, and the most that it leaves after the text (what a
/// recovery keeps).
const PART: u64 = 1 << 20;

/// The bytes of a page that a torn write changed.
const TORN: usize = 700;

/// Plays the workload, and answers how often a blob was opened.
pub fn play_opens<H: Sum>(alloc: Global, plan: &Plan, digest: &mut Digest) -> Result<u64> {
    let mut stage = Stage::new(alloc, plan, 1)?;
    let mut records = Records::new(alloc, plan.seed, 2)?;
    for _ in 0..plan.rounds {
        fill::<H>(&mut stage, &mut records, plan.bytes, digest)?;
        for number in 0..OPENED {
            damage(&mut stage, &mut records, plan, number)?;
            open_once::<H>(&mut stage, plan, number, digest)?;
        }
        digest.bytes(stage.blob.bytes());
        fill_journal::<H>(&mut stage, &mut records, plan.bytes / 2000, digest)?;
        for number in 0..OPENED {
            damage(&mut stage, &mut records, plan, number)?;
            open_journal::<H>(&mut stage, number, digest)?;
        }
        digest.bytes(stage.blob.bytes());
    }
    Ok(plan.rounds.saturating_mul(2 * OPENED))
}

/// Fills an empty blob with so many bytes of content, or some more, and syncs.
pub fn fill<H: Sum>(
    stage: &mut Stage,
    records: &mut Records,
    bytes: u64,
    digest: &mut Digest,
) -> Result<(), Error>
    requires { IsFresh stage.old.cache }
    ensures { OnOk result (IsFresh stage.new.cache) }
{
    let writer = stage.restart::<H>()?;
    let (blob, cache) = (&mut stage.blob, &mut stage.cache);
    let writer = append_values(writer, blob, cache, records, bytes, digest)?;
    writer.sync(blob, cache)?;
    Ok(())
}

/// Fills the journal of an empty blob with so many records, and commits them.
fn fill_journal<H: Sum>(
    stage: &mut Stage,
    records: &mut Records,
    count: u64,
    digest: &mut Digest,
) -> Result<(), Error>
    requires { IsFresh stage.old.cache }
    ensures { OnOk result (IsFresh stage.new.cache) }
{
    let journal = stage.restart_journal::<H>()?;
    let (blob, cache) = (&mut stage.blob, &mut stage.cache);
    let journal = append_records(journal, blob, cache, records, count, digest)?;
    journal.commit(blob, cache)?;
    Ok(())
}

/// The buffer of a recovery: 64 KiB or 1 MiB.
fn buffer_of(number: u64) -> NonZeroUsize {
    let bytes = if number % 8 < 4 { 64 << 10 } else { 1 << 20 };
    NonZeroUsize::new(bytes).unwrap_or(NonZeroUsize::MIN)
}

/// Opens a blob. If the number is odd, it surveys the blob before.
fn open_once<H: Sum>(
    stage: &mut Stage,
    plan: &Plan,
    number: u64,
    digest: &mut Digest,
) -> Result<(), Error>
    requires { IsFresh stage.old.cache }
    ensures { OnOk result (IsFresh stage.new.cache) }
{
    let buffer_size = buffer_of(number);
    if number % 2 == 1 {
        survey_once::<H>(
            stage.alloc,
            &mut stage.blob,
            plan.page_size,
            buffer_size,
            digest,
        )?;
    }
    let writer = stage.recover::<H>(buffer_size)?;
    digest.number(writer.size());
    digest.number(stage.blob.len());
    Ok(())
}

/// Surveys a blob: what a recovery would make of it, and what would go.
pub fn survey_once<H: Sum>(
    alloc: Global,
    blob: &mut VecBlob,
    page_size: NonZeroU16,
    buffer_size: NonZeroUsize,
    digest: &mut Digest,
) -> Result<(), Error> {
    let size = blob.len();
    let found = survey::<VecBlob, H>(alloc, blob, size, page_size, buffer_size)?;
    digest.number(found.outlook.len);
    digest.number(found.outlook.cut);
    digest.number(found.beyond);
    Ok(())
}

/// Opens a journal.
fn open_journal<H: Sum>(stage: &mut Stage, number: u64, digest: &mut Digest) -> Result<(), Error>
    requires { IsFresh stage.old.cache }
    ensures { OnOk result (IsFresh stage.new.cache) }
{
    let (journal, found) = stage.recover_journal::<H>(buffer_of(number))?;
    digest.number(journal.size());
    digest.number(found.len() as u64);
    for record in &found {
        digest.bytes(record.as_ref());
    }
    Ok(())
}

/// Changes a blob to what a crash leaves: a blob that ends inside a page, whose last page was torn,
/// or that has pages after the text with no value, or with a wrong one.
pub fn damage(
    stage: &mut Stage,
    records: &mut Records,
    plan: &Plan,
    number: u64,
) -> Result<(), Error>
    requires { IsFresh stage.old.cache }
    ensures { OnOk result (IsFresh stage.new.cache) }
{
    let alloc = stage.alloc;
    let len = stage.blob.len();
    match number % 4 {
        0 => {
            let most = (len / 16).min(PART);
            stage
                .blob
                .resize(len.saturating_sub(records.random.below(most)))
        }
        1 => {
            let back = records.random.below(4096).min(len);
            put(
                alloc,
                &mut stage.blob,
                len.saturating_sub(back),
                records.value(TORN),
            )
        }
        2 => {
            let more = (len / 16).min(PART) as usize;
            put(alloc, &mut stage.blob, len, records.value(more))
        }
        _ => {
            let page = u64::from(plan.page_size.get()) + CHECKSUM_SIZE;
            let end = len - len % page;
            let more = (len / 16).min(PART) as usize;
            let wrong = wrong_pages(alloc, stage.blob.bytes(), more, page, &mut records.random)?;
            put(alloc, &mut stage.blob, end, &wrong)
        }
    }
}

/// The first pages of a blob, each with one byte changed.
fn wrong_pages(
    alloc: Global,
    bytes: &[u8],
    more: usize,
    page: u64,
    random: &mut Random,
) -> Result<Vec<u8>, Error> {
    let (front, _) = bytes.split_at(more.min(bytes.len()));
    let mut wrong = Vec::with_capacity(alloc, front.len())?;
    wrong.extend_from_slice(front)?;
    for page in wrong.chunks_mut((page as usize).max(1)) {
        let at = random.below(8) as usize;
        if let Some(byte) = page.get_mut(at) {
            *byte = byte.wrapping_add(1);
        }
    }
    Ok(wrong)
}

/// Writes bytes to a blob, durably.
fn put(alloc: Global, blob: &mut VecBlob, offset: u64, bytes: &[u8]) -> Result<(), Error> {
    let mut bufs = IoBufs::new(alloc);
    bufs.append(IoBuf::from(Bytes::copy_from_slice(alloc, bytes)?))?;
    blob.write_at(offset, &bufs, WriteOptions::default())?;
    blob.sync()
}
