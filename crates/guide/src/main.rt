//! What the guide shows: the calls of a writer, a table of readings, a device and a checksum of one's
//! own, a journal over them, which is refused and crashes, and the journal of the crate `journal`
//! over the file that the argument names.
#![tactic(auto)]

mod beside;
mod calls;
mod device;
mod kept;
mod own_journal;
mod readings;
mod sum;
mod value;

use crate::beside::{keep_and_copy, keep_and_look_back, keep_and_replay_a_snapshot, keep_two};
use crate::calls::{
    keep, keep_a_replay, keep_a_snapshot, keep_and_go_on, keep_and_look, keep_in_place,
};
use crate::kept::{KeptError, keep_in_file};
use crate::own_journal::{Journal, JournalError};
use crate::readings::{Reading, keep_and_look_at_readings, keep_readings};
use crate::sum::Poly;
use crate::value::keep_a_value;
use disk::{IoBuf, MemBlob};
use std::alloc::Global;
use std::{env, io};

fn text_of(bytes: &IoBuf) -> &str {
    str::from_utf8(bytes.as_ref()).unwrap_or("no text")
}

fn show_calls(rt: &HostRuntime) -> io::Result<()> {
    let alloc = rt.alloc();
    if let Ok(bytes) = keep(alloc) {
        println!(rt; "kept {}", text_of(&bytes))?;
    }
    if let Ok((right, wrong)) = keep_and_look(alloc) {
        println!(rt;
            "its page size: {} bytes, {} to be cut",
            right.len, right.cut
        )?;
        println!(rt; "another one: {} bytes, {} to be cut", wrong.len, wrong.cut)?;
    }
    if let Ok(bytes) = keep_a_snapshot(alloc) {
        println!(rt; "the snapshot has {}", text_of(&bytes))?;
    }
    if let Ok(bytes) = keep_a_replay(alloc) {
        println!(rt; "replayed {}", text_of(&bytes))?;
    }
    if let Ok(offset) = keep_and_go_on(alloc) {
        println!(rt; "appended at {offset} meanwhile")?;
    }
    if let Ok(bytes) = keep_in_place(alloc) {
        println!(rt; "appended{}", text_of(&bytes))?;
    }
    if let Ok((Some(at), size)) = keep_a_value(alloc) {
        println!(rt; "a value at {at}, {size} bytes")?;
    }
    Ok(())
}

fn show_what_stays(rt: &HostRuntime) -> io::Result<()> {
    let alloc = rt.alloc();
    if let Ok(after) = keep_and_look_back(alloc) {
        println!(rt; "the snapshot still has {} bytes", after.size)?;
        if let Ok(bytes) = after.read.coalesce() {
            println!(rt; "and reads {}", text_of(&bytes))?;
        }
    }
    if let Ok(Some(bytes)) = keep_and_replay_a_snapshot(alloc) {
        println!(rt; "replayed of a snapshot {}", text_of(&bytes))?;
    }
    if let Ok(bytes) = keep_and_copy(alloc) {
        println!(rt; "its copy has {}", text_of(&bytes))?;
    }
    if let Ok((first, second)) = keep_two(alloc) {
        println!(rt; "{}", text_of(&first))?;
        println!(rt; "{}", text_of(&second))?;
    }
    Ok(())
}

fn show_reading(rt: &HostRuntime, name: &str, reading: &Option<Reading>) -> io::Result<()> {
    if let Some(reading) = reading {
        println!(rt; "{name} {} Pa at {} s", reading.pressure, reading.time)?;
    }
    Ok(())
}

fn show_readings(rt: &HostRuntime) -> io::Result<()> {
    let alloc = rt.alloc();
    if let Ok(table) = keep_readings(alloc) {
        show_reading(rt, "the third reading", &table.third)?;
        show_reading(rt, "the sixth", &table.sixth)?;
        show_reading(rt, "the highest", &table.highest)?;
        println!(rt; "after the crash {} readings", table.left)?;
        show_reading(rt, "the last of them", &table.last)?;
    }
    if let Ok(reading) = keep_and_look_at_readings(alloc) {
        show_reading(rt, "the snapshot's fourth", &reading)?;
    }
    Ok(())
}

/// What was seen of a journal: whether the second commit was refused, and the size in bytes after
/// each of two recoveries.
#[derive(Drop)]
struct Outcome {
    refused: bool,
    recovered: u64,
    crashed: u64,
    first: Option<IoBuf>,
    writes: u64,
    syncs: u64,
}

/// Plays on a new journal, which it owns, what another function does with it.
fn fail_and_crash(alloc: Global) -> Result<Outcome, JournalError> {
    let mut journal = Journal::<Poly>::open(alloc, MemBlob::new(alloc))?;
    play_failures(&mut journal)
}

/// Commits a record; is refused as it commits another, and recovers at once; appends a third, and
/// crashes.
fn play_failures(journal: &mut Journal<Poly>) -> Result<Outcome, JournalError> {
    let offset = journal.append(b"one")?;
    journal.commit()?;
    journal.append(b"two")?;
    journal.fail_at(1);
    let refused = journal.commit().is_err();
    journal.recover()?;
    let recovered = journal.size();
    journal.append(b"three, which is longer than a page")?;
    journal.crash(&[true; 40])?;
    journal.recover()?;
    let first = journal.read(offset)?.map(|record| record.bytes);
    Ok(Outcome {
        refused,
        recovered,
        crashed: journal.size(),
        first,
        writes: journal.device().writes,
        syncs: journal.device().syncs,
    })
}

/// Opens the file once for each record, and once more for the last one, which is there by then.
fn show_kept(rt: &HostRuntime, path: &str) -> Result<(), KeptError> {
    keep_in_file(rt, path, b"1 opened")?;
    keep_in_file(rt, path, b"2 closed")?;
    for record in &keep_in_file(rt, path, b"2 closed")? {
        println!(rt; "in the file {}", text_of(record))?;
    }
    Ok(())
}

fn main(rt: HostRuntime) -> io::Result<()> {
    show_calls(&rt)?;
    show_what_stays(&rt)?;
    show_readings(&rt)?;
    if let Some(path) = env::args(&rt)?.nth(1)
        && let Err(error) = show_kept(&rt, path.as_str())
    {
        println!(rt; "error {error}")?;
    }
    match fail_and_crash(rt.alloc()) {
        Ok(outcome) => {
            println!(rt;
                "refused {}, recovered {}",
                outcome.refused, outcome.recovered
            )?;
            println!(rt; "after the crash {}", outcome.crashed)?;
            println!(rt; "first {}", outcome.first.as_ref().map_or("none", text_of))?;
            println!(rt; "{} writes, {} syncs", outcome.writes, outcome.syncs)
        }
        Err(error) => println!(rt; "error {error}"),
    }
}
