//! Plays the jobs that users of the layer wait for, on made input, and prints a digest of all that
//! was answered and of what stands on the blobs at the end. It prints no times: `bench/run` times
//! two builds of it.
//!
//! `workloads NAME SEED` plays one: `commit`, `open`, `load`, `lookup`, `serve`, `small` or
//! `reopen`. With no word it plays a little of each, with the seed 1.
#![tactic(auto)]

mod commit;
mod digest;
mod load;
mod lookup;
mod open;
mod random;
mod reopen;
mod served;
mod small;
mod stage;

use crate::commit::play_commits;
use crate::digest::Digest;
use crate::load::play_loads;
use crate::lookup::play_lookups;
use crate::open::play_opens;
use crate::reopen::play_reopens;
use crate::served::play_serve;
use crate::small::play_small;
use crate::stage::Plan;
use anyhow::Result;
use crc32c::Crc32c;
use std::alloc::Global;
use std::env;
use std::num::NonZeroU16;
use std::process::ExitCode;

/// A job.
#[derive(Clone, Copy)]
enum Job {
    Commit,
    Open,
    Load,
    Lookup,
    Serve,
    Small,
    Reopen,
}

/// The jobs by name, each with the content of a blob in bytes, and how often it is played.
const JOBS: [(&str, Job, u64, u64); 7] = [
    ("commit", Job::Commit, 64 << 20, 12),
    ("open", Job::Open, 48 << 20, 2),
    ("load", Job::Load, 48 << 20, 20),
    ("lookup", Job::Lookup, 32 << 20, 8),
    ("serve", Job::Serve, 16 << 20, 6),
    ("small", Job::Small, 4 << 20, 3),
    ("reopen", Job::Reopen, 32 << 20, 4),
];

/// The content of a blob in bytes, if no job is named.
const LITTLE: u64 = 128 << 10;

/// The logical bytes of a page; with its footer it has 4,096.
const PAGE_SIZE: u16 = 4084;

/// Plays a job, and answers how much it was.
fn play(alloc: Global, job: Job, plan: &Plan, digest: &mut Digest) -> Result<u64> {
    match job {
        Job::Commit => play_commits::<Crc32c>(alloc, plan, digest),
        Job::Open => play_opens::<Crc32c>(alloc, plan, digest),
        Job::Load => play_loads::<Crc32c>(alloc, plan, digest),
        Job::Lookup => play_lookups::<Crc32c>(alloc, plan, digest),
        Job::Serve => play_serve::<Crc32c>(alloc, plan, digest),
        Job::Small => play_small::<Crc32c>(alloc, plan, digest),
        Job::Reopen => play_reopens::<Crc32c>(alloc, plan, digest),
    }
}

fn plan(seed: u64, bytes: u64, rounds: u64) -> Plan {
    Plan {
        seed,
        page_size: NonZeroU16::new(PAGE_SIZE).unwrap_or(NonZeroU16::MIN),
        bytes,
        rounds,
    }
}

/// Plays a job, and prints how much it was, and the digest.
fn play_and_print(rt: &HostRuntime, name: &str, job: Job, plan: &Plan) -> Result<()> {
    let mut digest = Digest::new();
    let count = play(rt.alloc(), job, plan, &mut digest)?;
    println!(rt; "{name}: {count}, {:016x}", digest.value())?;
    Ok(())
}

/// Plays a little of each job.
fn play_little(rt: &HostRuntime) -> Result<()> {
    for (name, job, _, _) in JOBS {
        play_and_print(rt, name, job, &plan(1, LITTLE, 1))?;
    }
    Ok(())
}

/// Plays the job of this name. It answers whether there is one.
fn play_named(rt: &HostRuntime, wanted: &str, seed: u64) -> Result<bool> {
    for (name, job, bytes, rounds) in JOBS {
        if name == wanted {
            play_and_print(rt, name, job, &plan(seed, bytes, rounds))?;
            return Ok(true);
        }
    }
    Ok(false)
}

fn main(rt: HostRuntime) -> Result<ExitCode> {
    let words: Vec<String> = env::args(&rt)?.collect(rt.alloc())?;
    match words.as_slice() {
        [] | [_] => play_little(&rt)?,
        [_, name, seed] => {
            let seed = seed.parse::<u64>().unwrap_or(0);
            if !play_named(&rt, name, seed)? {
                println!(rt; "there is no workload {name}")?;
                return Ok(ExitCode::FAILURE);
            }
        }
        _ => {
            println!(rt; "workloads [NAME SEED]")?;
            return Ok(ExitCode::FAILURE);
        }
    }
    Ok(ExitCode::SUCCESS)
}
