//! Serves a paged blob over a file, or a log in a folder, to a program in any language, appends to
//! such files, and looks at them.
//!
//! `pagedd serve FILE`: requests come on standard input, answers go to standard output, in frames
//! of bytes that `docs/PROTOCOL.md` describes. Before anything is cut, the program looks at the
//! file. It sets aside a copy of what goes and may have been synced, and a line on standard error
//! says what goes. A file that a crash doesn't leave so is refused, except with `--cut`.
//!
//! `pagedd serve-log FOLDER` serves a log of records in the same way, as `docs/PROTOCOL.md`
//! describes.
//!
//! `append` takes standard input as content. `check`, `map`, `cat` and `salvage` read a file, or
//! the folder of a log, and change nothing of it. `copy` copies a log, also one that is served, and
//! `rebuild` makes its manifest anew. `rewrite` puts a copy of a file, or of each file of a log, in
//! its place, after a sync of it failed.
//!
//! [`Status`](status::Status) lists the exit statuses. Where the status is neither 0 nor 141,
//! standard error says why. For `check` its own output says why.
#![tactic(auto)]

mod appending;
mod cat;
mod census;
mod check;
mod command;
mod ending;
mod fits;
mod log_answer;
mod log_cat;
mod log_check;
mod log_closed;
mod log_copied;
mod log_copying;
mod log_durable;
mod log_files;
mod log_guard;
mod log_held;
mod log_hello;
mod log_input;
mod log_known;
mod log_levels;
mod log_lock;
mod log_map;
mod log_marks;
mod log_names;
mod log_nth;
mod log_parts;
mod log_put;
mod log_rebuild;
mod log_records;
mod log_refusing;
mod log_report;
mod log_request;
mod log_salvage;
mod log_salvaged;
mod log_scan;
mod log_seeking;
mod log_serving;
mod log_status;
mod log_taking;
mod log_text;
mod log_told;
mod log_where;
mod log_whole;
mod look;
mod map;
mod opening;
mod pages;
mod refusing;
mod report;
mod request;
mod rewrite;
mod salvage;
mod salvaged;
mod serving;
mod status;
mod streams;
mod words;

use crate::appending::append;
use crate::cat::cat;
use crate::check::check;
use crate::command::{VERSION, command};
use crate::ending::{end, fail, or_end};
use crate::log_copying::copy_log;
use crate::log_files::{fail_folder, fail_log_file, is_folder, log_around};
use crate::log_rebuild::rebuild;
use crate::log_salvage::salvage_log;
use crate::log_serving::serve_log;
use crate::log_told::tell_log;
use crate::look::read;
use crate::map::map;
use crate::request::{Checksum, DigestName, Request, Task, Told, set_aside_in};
use crate::rewrite::rewrite;
use crate::salvage::salvage;
use crate::serving::serve;
use crate::status::Status;
use crate::words::{put_command_first, read_words, tell_unknown, unknown_name};
use clap::ArgMatches;
use crc32c::Crc32c;
use digest::{Digest, PolyDigest, ShaDigest};
use disk::VecBlob;
use page::{AddSum, Sum};
use std::process::ExitCode;

// Performs a request with this checksum function and this digest.
fn perform<H: Sum, D: Digest>(
    rt: &HostRuntime,
    request: &Request,
    set_aside: &[&str],
) -> Result<Status, Status> {
    if is_folder(rt, request.file) {
        return perform_on_folder::<H, D>(rt, request, set_aside);
    }
    if let Some(advice) = advice_for_log(request) {
        if let Some(folder) = log_around(rt, request.file) {
            return Err(fail_log_file(rt, request.file, folder, advice));
        }
    }
    match request.task {
        Task::ServeLog => serve_log::<H, D>(rt, request),
        Task::Serve { create } => serve::<H>(rt, request, create),
        Task::Append { each_line } => append::<H>(rt, request, each_line),
        Task::Tell(told) => tell_of::<H>(rt, request, told, &mut read(rt, request.file)?),
        Task::Salvage { dropped, .. } if dropped || request.json => {
            let words = "--dropped and --json are for the folder of a log";
            Err(fail(rt, request.file, words))
        }
        Task::Salvage { out, .. } => salvage::<H>(rt, request, set_aside, out),
        Task::Rebuild | Task::Copy { .. } => {
            Err(fail(
                rt,
                request.file,
                "it is no folder, or isn't there: name the folder of a log",
            ))
        }
        Task::Rewrite => rewrite(rt, request),
        Task::Version => {
            or_end(rt, println!(rt; "pagedd {VERSION}"))?;
            Ok(Status::Done)
        }
    }
}

// What is to be done in place of a request that isn't for a file of a log. None where it is.
fn advice_for_log(request: &Request) -> Option<&'static str> {
    match request.task {
        Task::Serve { .. } if request.read_only => None,
        Task::Serve { .. } | Task::Append { .. } => Some("'pagedd serve-log' changes it"),
        Task::Salvage { .. } => {
            Some("'pagedd salvage FOLDER OUT' takes all its records, also behind a bad page")
        }
        _ => None,
    }
}

// Performs a request whose file is a folder, as that of a log.
fn perform_on_folder<H: Sum, D: Digest>(
    rt: &HostRuntime,
    request: &Request,
    set_aside: &[&str],
) -> Result<Status, Status> {
    let folder = request.file;
    match request.task {
        Task::Tell(Told::Cat { from, len }) if from > 0 || len < u64::MAX => {
            Err(fail_folder(rt, folder, "--from and --len are of a file's content"))
        }
        Task::Tell(told) => tell_log::<H, D>(rt, request, told),
        Task::Serve { .. } => {
            Err(fail_folder(rt, folder, "'pagedd serve-log' serves the log in it"))
        }
        Task::Append { .. } => {
            Err(fail_folder(
                rt,
                folder,
                "append isn't supported for a log: 'pagedd serve-log' appends its records",
            ))
        }
        Task::Salvage { .. } if !set_aside.is_empty() => {
            Err(fail_folder(rt, folder, "CUT is for a file, not for a log"))
        }
        Task::Salvage { out, dropped } => salvage_log::<H, D>(rt, request, out, dropped),
        Task::Rebuild => rebuild::<H, D>(rt, request),
        Task::Copy { out } => copy_log::<H, D>(rt, request, out),
        Task::ServeLog => serve_log::<H, D>(rt, request),
        Task::Rewrite => rewrite(rt, request),
        Task::Version => Ok(Status::Done),
    }
}

// Reports what is asked about a file that was read.
fn tell_of<H: Sum>(
    rt: &HostRuntime,
    request: &Request,
    told: Told,
    blob: &mut VecBlob,
) -> Result<Status, Status> {
    match told {
        Told::Check => check::<H>(rt, request, blob),
        Told::Map { from, to, long } => map::<H>(rt, request, blob, from, to, long),
        Told::Where { .. } | Told::Nth { .. } => {
            let words = "it is no folder: name the folder of a log";
            Err(fail(rt, request.file, words))
        }
        Told::Cat { from, len } => cat::<H>(rt, request, blob, from, len),
    }
}

// Does what these matches ask for.
fn perform_matched(rt: &HostRuntime, matches: &ArgMatches<'_>) -> Result<Status, Status> {
    let request = Request::of(matches);
    let set_aside = set_aside_in(matches).unwrap_or_default();
    match request.digest {
        DigestName::Sha => perform_with::<ShaDigest>(rt, &request, set_aside),
        DigestName::Poly => perform_with::<PolyDigest>(rt, &request, set_aside),
    }
}

// Performs a request with this digest.
fn perform_with<D: Digest>(
    rt: &HostRuntime,
    request: &Request,
    set_aside: &[&str],
) -> Result<Status, Status> {
    match request.shape.checksum {
        Checksum::Add => perform::<AddSum, D>(rt, request, set_aside),
        Checksum::Crc32c => perform::<Crc32c, D>(rt, request, set_aside),
    }
}

// Does what the command line asks for.
fn run(rt: &HostRuntime) -> Result<Status, Status> {
    let mut words = read_words(rt)?;
    if let Some(name) = unknown_name(rt, &words) {
        return Ok(tell_unknown(rt, name)?);
    }
    put_command_first(&mut words);
    match command(rt.alloc())?.try_get_matches_from(words.as_slice()) {
        Ok(matches) => perform_matched(rt, &matches),
        Err(error) => explain(rt, &error),
    }
}

// Prints what clap has to say in the place of matches: help, or why there are none.
fn explain(rt: &HostRuntime, error: &clap::Error) -> Result<Status, Status> {
    or_end(rt, error.print(rt))?;
    Ok(if error.use_stderr() {
        Status::Failed
    } else {
        Status::Done
    })
}

fn main(rt: HostRuntime) -> ExitCode {
    ExitCode::from(end(&rt, run(&rt)))
}
