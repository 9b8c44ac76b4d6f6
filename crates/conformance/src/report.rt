// What is written about a case.
use crate::case::Case;
use std::io;
use std::io::Write;

/// Writes whether a case went as it expects, in how many runs, and below that each difference.
pub fn report<W: Write>(case: &Case, runs: u64, told: &[u8], out: &mut W) -> io::Result<()> {
    let word = if told.is_empty() { "ok" } else { "FAILED" };
    writeln!(out, "{word} {} ({runs})", case.name)?;
    out.write_all(told)
}
