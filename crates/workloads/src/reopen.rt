// Opening what is there, and serving it: blobs that are whole, whose last page was torn, or that go
// on for a megabyte of pages with no value.
ghost use Rattle.std.specs.Prelude.{OnOk};
ghost use Rattle.cache.specs.Pages.{IsFresh};

use crate::digest::Digest;
use crate::open::{damage, fill};
use crate::random::Records;
use crate::served::{Client, serve_once, setting_of};
use crate::stage::{Plan, Stage};
use anyhow::Result;
use disk::Error;
use page::Sum;
use std::alloc::{AllocError, Global};

/// How often each blob is opened.
const OPENED: u64 = 24;

/// How often the client of an opened blob goes on.
const REQUESTS: u64 = 64;

/// Plays the workload, and answers how often a blob was opened.
pub fn play_reopens<H: Sum>(alloc: Global, plan: &Plan, digest: &mut Digest) -> Result<u64> {
    let mut stage = Stage::new(alloc, plan, 1)?;
    let mut records = Records::new(alloc, plan.seed, 6)?;
    let mut answers = Vec::new(alloc);
    for _ in 0..plan.rounds {
        fill::<H>(&mut stage, &mut records, plan.bytes, digest)?;
        for number in 0..OPENED {
            crash(&mut stage, &mut records, plan, number)?;
            let client = client_of(alloc, &mut records, plan)?;
            // Every second blob is first served with a setting that lets no byte of it go.
            let allowed = if number % 2 == 0 { u64::MAX } else { 0 };
            let (blob, setting) = (&mut stage.blob, setting_of(plan, allowed));
            answers = serve_once::<H>(alloc, blob, &setting, &client.bytes, answers, digest)?;
        }
        digest.bytes(stage.blob.bytes());
    }
    Ok(plan.rounds.saturating_mul(OPENED))
}

// Changes a blob to what a crash leaves. Each third blob stays whole.
fn crash(stage: &mut Stage, records: &mut Records, plan: &Plan, number: u64) -> Result<(), Error>
    requires { IsFresh stage.old.cache }
    ensures { OnOk result (IsFresh stage.new.cache) }
{
    match number % 3 {
        0 => Ok(()),
        kind => damage(stage, records, plan, kind),
    }
}

// A client that reads what was filled in, appends, and syncs at last.
fn client_of(alloc: Global, records: &mut Records, plan: &Plan) -> Result<Client, AllocError> {
    let mut client = Client::new(alloc, plan.bytes)?;
    for number in 0..REQUESTS {
        client.go_on(number, records)?;
    }
    client.sync()?;
    Ok(client)
}
