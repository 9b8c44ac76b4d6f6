//! Plays workloads on a blob in memory, to see what they take.
//!
//! With no argument it plays each workload a few rounds, and prints a line for it: its operations,
//! the logical bytes that they were asked for, and the physical pages and the calls that the device
//! was asked for. With `time ROUNDS` it prints what each operation took, and with
//! `time ROUNDS NAME` it plays only the workloads whose line has that name in it. With
//! `file PATH APPENDS` it appends to a new file, each append with a sync, and prints what that took
//! beside the same calls on a plain file.
#![tactic(auto)]

mod done;
mod files;
mod held;
mod play;
mod reads;
mod stage;
mod work;
mod workload;

use crate::done::Done;
use crate::files::compare;
use crate::held::{held_workloads, play_held};
use crate::play::play;
use crate::workload::workloads;
use anyhow::Result;
use clap::{Arg, ArgMatches, Command, value_parser};
use crc32c::Crc32c;
use page::{AddSum, ConstSum, Sum};
use std::alloc::Global;
use std::env;
use std::process::ExitCode;

/// How often a workload is played if no time is asked for.
const FEW: u64 = 3;

/// What is asked of the program.
#[derive(Clone, Copy)]
struct Request<'a> {
    rounds: u64,
    timed: bool,
    /// What is in the line of each workload that is played.
    name: &'a str,
}

impl<'a> Request<'a> {
    /// What the words of the command line ask.
    fn of(matches: &ArgMatches<'a>) -> Self {
        match matches.subcommand_matches("time") {
            None => Request {
                rounds: FEW,
                timed: false,
                name: "",
            },
            Some(time) => Request {
                rounds: time.get_one::<u64>("ROUNDS").unwrap_or(FEW),
                timed: true,
                name: time.get_str("NAME").unwrap_or(""),
            },
        }
    }
}

/// The command line.
fn command<'a>(alloc: Global) -> Result<Command<'a>> {
    let command = Command::new(alloc, "bench")
        .about("plays workloads on a blob in memory")
        .subcommand(time_command(alloc)?)?
        .subcommand(file_command(alloc)?)?;
    Ok(command)
}

/// The part of the command line that is for times.
fn time_command<'a>(alloc: Global) -> Result<Command<'a>> {
    let rounds = Arg::new(alloc, "ROUNDS")
        .help("how often each workload is played")
        .value_parser(value_parser!(u64).range(1..))
        .required(true);
    let name = Arg::new(alloc, "NAME").help("plays the workloads whose line has this in it");
    let command = Command::new(alloc, "time")
        .about("prints what each operation took")
        .arg(rounds)?
        .arg(name)?;
    Ok(command)
}

/// The part of the command line that is for a file.
fn file_command<'a>(alloc: Global) -> Result<Command<'a>> {
    let path = Arg::new(alloc, "PATH")
        .help("a file that isn't there yet; it is removed again")
        .required(true);
    let appends = Arg::new(alloc, "APPENDS")
        .help("how many appends of 100 bytes, each with a sync")
        .value_parser(value_parser!(u64).range(1..))
        .required(true);
    let command = Command::new(alloc, "file")
        .about("times appends on a file, beside the same calls on a plain one")
        .arg(path)?
        .arg(appends)?;
    Ok(command)
}

/// Plays the workloads that are asked for under a checksum function, whose name is `sum`.
fn play_all<H: Sum>(rt: &HostRuntime, request: &Request, sum: &str) -> Result<()> {
    for workload in &workloads() {
        let line = format!(in rt.alloc(); "{}, {sum}", workload.name)?;
        if line.contains(request.name) {
            let done = play::<H>(rt, workload, request.rounds)?;
            print(rt, request, &line, &done)?;
        }
    }
    Ok(())
}

/// Plays the workloads of the cache alone that are asked for: they need no checksum.
fn play_caches(rt: &HostRuntime, request: &Request) -> Result<()> {
    for workload in &held_workloads() {
        if workload.name.contains(request.name) {
            let done = play_held(rt, workload, request.rounds)?;
            print(rt, request, workload.name, &done)?;
        }
    }
    Ok(())
}

/// Prints what the rounds of a workload came to, or what they took.
fn print(rt: &HostRuntime, request: &Request, line: &str, done: &Done) -> Result<()> {
    if request.timed {
        println!(rt; "{line}: {}", done.took())?;
    } else {
        println!(rt; "{line}: {done}")?;
    }
    Ok(())
}

/// Does what the command line asks.
fn answer(rt: &HostRuntime, matches: &ArgMatches) -> Result<()> {
    if let Some(words) = matches.subcommand_matches("file") {
        let path = words.get_str("PATH").unwrap_or_default();
        let appends = words.get_one::<u64>("APPENDS").unwrap_or(1);
        let compared = compare::<Crc32c>(rt, path, appends)?;
        println!(rt; "{compared}")?;
        return Ok(());
    }
    let request = Request::of(matches);
    play_all::<ConstSum>(rt, &request, "const")?;
    play_all::<AddSum>(rt, &request, "add")?;
    play_all::<Crc32c>(rt, &request, "crc32c")?;
    play_caches(rt, &request)
}

fn main(rt: HostRuntime) -> Result<ExitCode> {
    let alloc = rt.alloc();
    let words: Vec<String> = env::args(&rt)?.collect(alloc)?;
    let matches = match command(alloc)?.try_get_matches_from(words.as_slice()) {
        Ok(matches) => matches,
        Err(error) => {
            error.print(&rt)?;
            return Ok(ExitCode::from(error.exit_code() as u8));
        }
    };
    answer(&rt, &matches)?;
    Ok(ExitCode::SUCCESS)
}
