//! Plays a script of steps over a blob in memory, with failing device calls and crashes, and writes
//! one line a reply. The steps append and read bytes, or push and get items of one size: the
//! script's first line says which.
//!
//! The script comes on standard input. The exit status is 0 where it was played to its end (a fault
//! is a reply), 2 where a line can't be read (then nothing was played), and 1 where the input or
//! the output failed or there was no memory for the script. `--help` and `--version` play nothing;
//! other words of the command line are ignored.
#![tactic(auto)]

use scripts::play;
use std::io::ErrorKind;
use std::process::ExitCode;
use std::{env, io};

const USAGE: &str = "usage: pagedctl < SCRIPT, or pagedctl --help or --version";

const HELP: &str = "\
Plays a script over a paged blob in memory, whose device calls can be made to fail and which can
crash. The script comes on standard input, and each of its lines gets one line of standard output.

The first line is `start P C N S`: the page size, the capacity of the writer's buffer in bytes, how
many pages the cache may hold, and the checksum function: add, const or crc32c. A first line
`start-items P C N S Z` begins a script of items of Z bytes each, which has lines of its own.
docs/SCRIPT.md has the other lines of both.

Other words of the command line are ignored.

Exit status: 0 the script was played to its end; 1 the input or the output failed, or there was no
memory for the script; 2 a line can't be read.";

/// What the words of the command line ask for.
#[derive(Clone, Copy)]
enum Task {
    Play,
    Help,
    Version,
}

impl Task {
    // The first word is the program's own name.
    fn of(words: &[String]) -> Self {
        let [_, word, ..] = words else {
            return Task::Play;
        };
        match word.as_str() {
            "-h" | "--help" => Task::Help,
            "-V" | "--version" => Task::Version,
            _ => Task::Play,
        }
    }
}

fn read_task(rt: &HostRuntime) -> io::Result<Task> {
    match env::args(rt) {
        Ok(words) => {
            let words: Vec<String> = words.collect(rt.alloc())?;
            Ok(Task::of(&words))
        }
        // A word of the command line isn't UTF-8.
        Err(error) if error.kind() == ErrorKind::InvalidData => Ok(Task::Play),
        Err(error) => Err(error),
    }
}

// Does what is asked for, and answers the exit status.
fn run(rt: &HostRuntime) -> io::Result<u8> {
    match read_task(rt)? {
        Task::Play => Ok(play(rt.alloc(), rt.stdin(), rt.stdout(), rt.stderr())),
        Task::Help => {
            println!(rt; "{USAGE}\n\n{HELP}")?;
            Ok(0)
        }
        Task::Version => {
            println!(rt; "pagedctl 0.13.0")?;
            Ok(0)
        }
    }
}

fn main(rt: HostRuntime) -> ExitCode {
    match run(&rt) {
        Ok(status) => ExitCode::from(status),
        Err(_) => {
            let _ = eprintln!(rt; "pagedctl: stopped");
            ExitCode::from(1)
        }
    }
}
