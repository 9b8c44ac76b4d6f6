// A journal that commits small records, and a blob whose syncs are started and waited for later.
ghost use Rattle.std.specs.Prelude.{IfOk, OnOk};
ghost use Rattle.cache.specs.Pages.{IsFresh};
ghost use Rattle.journal.specs.Journal.{IsJournal};
ghost use Rattle.paged.specs.Ready.{IsReady};

use crate::digest::Digest;
use crate::random::Records;
use crate::stage::{Plan, Stage};
use anyhow::Result;
use cache::CacheRef;
use disk::{Blob, Error};
use journal::Journal;
use page::Sum;
use paged::Writer;
use std::alloc::Global;

/// How many records are appended before each commit.
const EACH: [u64; 3] = [1, 16, 256];

/// How many records are appended before a sync is started, and before it is waited for.
const STARTED: u64 = 16;

/// Plays the workload, and answers how many records were appended.
pub fn play_commits<H: Sum>(alloc: Global, plan: &Plan, digest: &mut Digest) -> Result<u64> {
    let mut stage = Stage::new(alloc, plan, 1)?;
    let mut records = Records::new(alloc, plan.seed, 1)?;
    // Half of the content goes by commits of one record.
    let count = plan.bytes / 1000;
    let mut appended = 0u64;
    for _ in 0..plan.rounds {
        for each in EACH {
            let commits = if each == 1 { count } else { count / each / 4 };
            commit_round::<H>(&mut stage, &mut records, commits, each, digest)?;
            appended = appended.saturating_add(commits.saturating_mul(each));
        }
        let starts = count / STARTED / 8;
        start_round::<H>(&mut stage, &mut records, starts, digest)?;
        appended = appended.saturating_add(starts.saturating_mul(2 * STARTED));
    }
    Ok(appended)
}

// Commits records to the journal of an empty blob, and adds the blob's bytes to the digest.
fn commit_round<H: Sum>(
    stage: &mut Stage,
    records: &mut Records,
    commits: u64,
    each: u64,
    digest: &mut Digest,
) -> Result<(), Error>
    requires { IsFresh stage.old.cache }
    ensures { OnOk result (IsFresh stage.new.cache) }
{
    let journal = stage.restart_journal::<H>()?;
    let (blob, cache) = (&mut stage.blob, &mut stage.cache);
    commit_all(journal, blob, cache, records, commits, each, digest)?;
    digest.bytes(blob.bytes());
    Ok(())
}

// Appends records to an empty blob and starts syncs, and adds the blob's bytes to the digest.
fn start_round<H: Sum>(
    stage: &mut Stage,
    records: &mut Records,
    starts: u64,
    digest: &mut Digest,
) -> Result<(), Error>
    requires { IsFresh stage.old.cache }
    ensures { OnOk result (IsFresh stage.new.cache) }
{
    let writer = stage.restart::<H>()?;
    let (blob, cache) = (&mut stage.blob, &mut stage.cache);
    start_all(writer, blob, cache, records, starts, digest)?;
    digest.bytes(blob.bytes());
    Ok(())
}

/// Commits `commits` times, each time after `each` appends of a record.
fn commit_all<B: Blob, H: Sum>(
    mut journal: Journal<B, H, H>,
    blob: &mut B,
    cache: &mut CacheRef,
    records: &mut Records,
    commits: u64,
    each: u64,
    digest: &mut Digest,
) -> Result<Journal<B, H, H>, Error>
    requires fresh { IsFresh cache.old }
    requires journal { IsJournal H.sum_of journal cache.old (B.life blob.old) }
    ensures fresh { IsFresh cache.new }
    ensures journal { IfOk result (λ j. IsJournal H.sum_of j cache.new (B.life blob.new)) }
{
    for _ in 0..commits {
        journal = append_records(journal, blob, cache, records, each, digest)?;
        journal = journal.commit(blob, cache)?;
    }
    Ok(journal)
}

/// Appends `count` records to a journal.
pub fn append_records<B: Blob, H: Sum>(
    mut journal: Journal<B, H, H>,
    blob: &mut B,
    cache: &mut CacheRef,
    records: &mut Records,
    count: u64,
    digest: &mut Digest,
) -> Result<Journal<B, H, H>, Error>
    requires fresh { IsFresh cache.old }
    requires journal { IsJournal H.sum_of journal cache.old (B.life blob.old) }
    ensures fresh { IsFresh cache.new }
    ensures journal { IfOk result (λ j. IsJournal H.sum_of j cache.new (B.life blob.new)) }
{
    for _ in 0..count {
        let (next, offset) = journal.append_record(blob, cache, records.next())?;
        digest.number(offset);
        journal = next;
    }
    Ok(journal)
}

/// `starts` times: appends records, starts a sync, appends as many records, and waits for the sync.
fn start_all<B: Blob, H: Sum>(
    mut writer: Writer<B, H>,
    blob: &mut B,
    cache: &mut CacheRef,
    records: &mut Records,
    starts: u64,
    digest: &mut Digest,
) -> Result<Writer<B, H>, Error>
    requires { IsReady H.sum_of writer cache.old (B.life blob.old) }
    ensures { IfOk result (λ w. IsReady H.sum_of w cache.new (B.life blob.new)) }
{
    for _ in 0..starts {
        writer = append_all(writer, blob, cache, records, STARTED, digest)?;
        let (next, _) = writer.start_sync(blob, cache)?;
        writer = append_all(next, blob, cache, records, STARTED, digest)?;
        writer = writer.wait_for_sync(blob)?;
    }
    Ok(writer)
}

/// Appends `count` records.
pub fn append_all<B: Blob, H: Sum>(
    mut writer: Writer<B, H>,
    blob: &mut B,
    cache: &mut CacheRef,
    records: &mut Records,
    count: u64,
    digest: &mut Digest,
) -> Result<Writer<B, H>, Error>
    requires { IsReady H.sum_of writer cache.old (B.life blob.old) }
    ensures { IfOk result (λ w. IsReady H.sum_of w cache.new (B.life blob.new)) }
{
    for _ in 0..count {
        let (next, offset) = writer.append(blob, cache, records.next())?;
        digest.number(offset);
        writer = next;
    }
    Ok(writer)
}
