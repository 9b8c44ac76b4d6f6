//! Plays the cases that standard input holds, and compares what each step answers, what it asks of
//! the device, and what a crash and a recovery leave, with what the case expects.
//!
//! It writes one line a case, and below it each difference. The exit status is 0 if there was no
//! difference, 1 if there was one, and 2 if a case can't be read, or the input, the output or
//! memory failed.
#![tactic(auto)]

mod alike;
mod buffered;
mod cached;
mod calls;
mod case;
mod devices;
mod files;
mod fixed;
mod forms;
mod hostile;
mod in_order;
mod item_stage;
mod item_steps;
mod journals;
mod keep;
mod line;
mod logs;
mod memory;
mod memory_folder;
mod mirrored;
mod names;
mod nested;
mod noted;
mod opened;
mod pages;
mod pair;
mod pieces;
mod plain;
mod played;
mod random;
mod recorder;
mod refuse;
mod report;
mod runs;
mod searches;
mod served;
mod setting;
mod stage;
mod step;
mod subject;
mod subjects;
mod views;
mod words;
mod writing;
mod writing_steps;

use crate::case::{Case, read_cases};
use crate::report::report;
use crate::subjects::play_case;
use std::alloc::Global;
use std::io;
use std::io::{BufWriter, Read, Write};
use std::process::ExitCode;

// Plays each case, and answers whether all went as they expect.
fn play_each<W: Write>(alloc: Global, cases: &[Case], out: &mut W) -> io::Result<bool> {
    let mut well = true;
    let mut total: u64 = 0;
    for case in cases {
        let mut told = Vec::new(alloc);
        let runs = play_case(alloc, case, &mut told)?;
        total = total.saturating_add(runs);
        well = well && told.is_empty();
        report(case, runs, &told, out)?;
    }
    writeln!(out, "{} cases, {total} runs", cases.len())?;
    Ok(well)
}

fn play_input<R: Read, W: Write>(alloc: Global, input: &mut R, out: &mut W) -> io::Result<bool> {
    let mut text = Vec::new(alloc);
    input.read_to_end(&mut text)?;
    let cases = read_cases(alloc, &text)?;
    play_each(alloc, &cases, out)
}

fn play<R: Read, W: Write>(alloc: Global, input: &mut R, out: &mut W) -> io::Result<bool> {
    let mut out = BufWriter::new(alloc, out)?;
    let well = play_input(alloc, input, &mut out)?;
    out.flush()?;
    Ok(well)
}

fn main(rt: HostRuntime) -> ExitCode {
    match play(rt.alloc(), &mut rt.stdin(), &mut rt.stdout()) {
        Ok(true) => ExitCode::from(0),
        Ok(false) => ExitCode::from(1),
        Err(_) => ExitCode::from(2),
    }
}
