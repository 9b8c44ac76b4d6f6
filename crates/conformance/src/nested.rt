// Cases in a case: what is written of them, where they differ too.
use crate::case::{Case, read_cases};
use crate::line::Row;
use crate::report::report;
use crate::runs::play_session;
use crate::subject::Subject;
use crate::words::{unreadable, words};
use std::alloc::Global;
use std::io;
use std::io::Write;

/// What plays the cases that are given to a line, each that of a session.
#[derive(Clone, Copy)]
pub struct Nested;

// Plays a case, and answers whether it went as it expects.
fn play_one(alloc: Global, case: &Case, out: &mut Vec<u8>) -> io::Result<bool> {
    let mut told = Vec::new(alloc);
    let words = words(alloc, &case.start)?;
    let runs = play_session(alloc, case, &words, &mut told)?;
    report(case, runs, &told, out)?;
    Ok(told.is_empty())
}

fn play_each(alloc: Global, cases: &[Case], out: &mut Vec<u8>) -> io::Result<bool> {
    let mut well = true;
    for case in cases {
        let went = play_one(alloc, case, out)?;
        well = well && went;
    }
    Ok(well)
}

// Writes whether all cases went as they expect, and what was written about them, if that isn't what
// the line wants.
fn play_given(alloc: Global, row: &Row, said: &mut Vec<u8>) -> io::Result<()> {
    let cases = read_cases(alloc, &row.given)?;
    let mut out = Vec::new(alloc);
    let well = play_each(alloc, &cases, &mut out)?;
    said.extend_from_slice(if well { b"ok" } else { b"refused" })?;
    if out.as_slice() == row.wanted.as_slice() {
        return Ok(());
    }
    said.extend_from_slice(b", but wrote\n")?;
    said.extend_from_slice(&out)?;
    Ok(())
}

impl Subject for Nested {
    fn play(&mut self, alloc: Global, row: &Row, said: &mut Vec<u8>) -> io::Result<()> {
        if row.step.as_slice() != b"cases".as_slice() {
            return Err(unreadable());
        }
        play_given(alloc, row, said)
    }
}
