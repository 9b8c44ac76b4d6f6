// The lines of a case file.
use std::alloc::{AllocError, Global};
use std::io;
use std::io::Write;

/// A step, what it should answer, and which device calls it should make.
pub struct Row {
    /// The number of its line, from 1 on.
    pub number: usize,
    /// The step.
    pub step: Vec<u8>,
    /// The expected reply. If there is none, the step must not be refused.
    pub reply: Option<Vec<u8>>,
    /// The device calls that the step should make, if the line lists them.
    pub calls: Option<Vec<u8>>,
    /// The lines of text that the step is given.
    pub given: Vec<u8>,
    /// The lines that it should write.
    pub wanted: Vec<u8>,
    /// The lines that it should write of errors.
    pub errors: Vec<u8>,
}

// By hand, so that an owner lets one go by one call: of a derived drop, a proof follows each field
// at each exit.
impl Drop for Row {
    fn drop(self) {
        let Row {
            number: _,
            step: _,
            reply: _,
            calls: _,
            given: _,
            wanted: _,
            errors: _,
        } = self;
    }
}

/// A line with each text in quotes as hexadecimal digits, and without underscores.
pub fn plain(alloc: Global, line: &[u8]) -> io::Result<Vec<u8>> {
    let mut out = Vec::new(alloc);
    let mut quoted = false;
    for byte in line {
        if *byte == b'"' {
            quoted = !quoted;
        } else if quoted {
            write!(out, "{:02x}", *byte)?;
        } else if *byte != b'_' {
            out.push(*byte)?;
        }
    }
    Ok(out)
}

// Where these bytes begin in the line.
fn place_of(line: &[u8], mark: &[u8]) -> Option<usize> {
    line.windows(mark.len().max(1))
        .position(|part| part == mark)
}

// The line up to a mark, and what comes after it.
fn cut<'a>(line: &'a [u8], mark: &[u8]) -> (&'a [u8], Option<&'a [u8]>) {
    match place_of(line, mark) {
        Some(at) => {
            let (front, back) = line.split_at_checked(at).unwrap_or((line, &[]));
            (front, back.get(mark.len()..))
        }
        None => (line, None),
    }
}

fn plain_part(alloc: Global, part: Option<&[u8]>) -> io::Result<Option<Vec<u8>>> {
    match part {
        Some(part) => Ok(Some(plain(alloc, part.trim_ascii())?)),
        None => Ok(None),
    }
}

// Adds a line to a text, without the space that it begins with.
fn add_line(text: &mut Vec<u8>, line: &[u8]) -> Result<(), AllocError> {
    text.extend_from_slice(line.strip_prefix(b" ").unwrap_or(line))?;
    text.push(b'\n')?;
    Ok(())
}

impl Row {
    /// The step alone.
    pub fn into_step(self) -> Vec<u8> {
        let Row {
            number: _,
            step,
            reply: _,
            calls: _,
            given: _,
            wanted: _,
            errors: _,
        } = self;
        step
    }

    /// The row of a line.
    pub fn read(alloc: Global, number: usize, line: &[u8]) -> io::Result<Row> {
        let (line, calls) = cut(line, b" |");
        let (step, reply) = cut(line, b" => ");
        Ok(Row {
            number,
            step: plain(alloc, step.trim_ascii())?,
            reply: plain_part(alloc, reply)?,
            calls: plain_part(alloc, calls)?,
            given: Vec::new(alloc),
            wanted: Vec::new(alloc),
            errors: Vec::new(alloc),
        })
    }

    /// Adds a line that continues this row, and answers whether the line does.
    pub fn go_on(&mut self, alloc: Global, line: &[u8]) -> io::Result<bool> {
        match line {
            [b'|', more @ ..] => self.add_calls(alloc, more)?,
            [b'>', more @ ..] => add_line(&mut self.given, more)?,
            [b'<', more @ ..] => add_line(&mut self.wanted, more)?,
            [b'!', more @ ..] => add_line(&mut self.errors, more)?,
            _ => return Ok(false),
        }
        Ok(true)
    }

    // Adds to the device calls of the row.
    fn add_calls(&mut self, alloc: Global, more: &[u8]) -> io::Result<()> {
        let more = plain(alloc, more.trim_ascii())?;
        match &mut self.calls {
            Some(calls) => {
                if !calls.is_empty() {
                    calls.extend_from_slice(b", ")?;
                }
                calls.extend_from_slice(&more)?;
            }
            None => self.calls = Some(more),
        }
        Ok(())
    }
}
