// Cases, read from their text.
use crate::line::Row;
use crate::names::{Name, spelled};
use crate::words::unreadable;
use std::alloc::Global;
use std::io;

/// The lines of a case.
pub struct Case {
    /// What it is called.
    pub name: String,
    /// The words of its `start` line.
    pub start: Vec<u8>,
    /// The bytes of the blob that it begins with, in hexadecimal digits.
    pub blob: Vec<u8>,
    /// What comes before the lines that are tried.
    pub before: Vec<Row>,
    /// The words of its `try` line: which device calls are to fail, and what a crash keeps.
    pub plan: Vec<u8>,
    /// The lines that are tried.
    pub tried: Vec<Row>,
    /// The lines after the tried ones.
    pub after: Vec<Row>,
    // Which of the three a line is added to.
    part: Part,
}

// By hand, so that an owner lets one go by one call: of a derived drop, a proof follows each field
// at each exit.
impl Drop for Case {
    fn drop(self) {
        let Case {
            name: _,
            start: _,
            blob: _,
            before: _,
            plan: _,
            tried: _,
            after: _,
            part: _,
        } = self;
    }
}

#[derive(Clone, Copy)]
enum Part {
    Before,
    Tried,
    After,
}

impl Case {
    fn new(alloc: Global, name: &[u8]) -> io::Result<Case> {
        Ok(Case {
            name: String::from_utf8_lossy(alloc, name)?,
            start: Vec::new(alloc),
            blob: Vec::from_slice(alloc, b"-")?,
            before: Vec::new(alloc),
            plan: Vec::new(alloc),
            tried: Vec::new(alloc),
            after: Vec::new(alloc),
            part: Part::Before,
        })
    }

    fn rows(&mut self) -> &mut Vec<Row> {
        match self.part {
            Part::Before => &mut self.before,
            Part::Tried => &mut self.tried,
            Part::After => &mut self.after,
        }
    }

    // Adds a line to the last row, and answers whether the line continues that row.
    fn go_on(&mut self, alloc: Global, line: &[u8]) -> io::Result<bool> {
        match self.rows().last_mut() {
            Some(row) => row.go_on(alloc, line),
            None => Ok(false),
        }
    }

    fn add_row(&mut self, alloc: Global, number: usize, line: &[u8]) -> io::Result<()> {
        let row = Row::read(alloc, number, line)?;
        self.rows().push(row)?;
        Ok(())
    }

    fn add(&mut self, alloc: Global, number: usize, line: &[u8]) -> io::Result<()> {
        if self.go_on(alloc, line)? {
            return Ok(());
        }
        if let Some(start) = line.strip_prefix(b"start ") {
            self.start = Vec::from_slice(alloc, start)?;
            return Ok(());
        }
        if let Some(blob) = line.strip_prefix(b"blob ") {
            self.blob = Row::read(alloc, number, blob)?.into_step();
            return Ok(());
        }
        if let Some(plan) = line.strip_prefix(b"try ") {
            self.plan = Vec::from_slice(alloc, plan)?;
            self.part = Part::Tried;
            return Ok(());
        }
        if line == b"then".as_slice() {
            self.part = Part::After;
            return Ok(());
        }
        self.add_row(alloc, number, line)
    }
}

/// The cases of a text, and the names of its lines.
#[derive(Drop)]
struct Reader {
    names: Vec<Name>,
    cases: Vec<Case>,
}

impl Reader {
    // Adds a line in which each name is replaced by its text.
    fn add(&mut self, alloc: Global, number: usize, line: &[u8]) -> io::Result<()> {
        if let Some(name) = line.strip_prefix(b"case ") {
            self.cases.push(Case::new(alloc, name)?)?;
            return Ok(());
        }
        if let Some(name) = line.strip_prefix(b"let ") {
            self.names.push(Name::read(alloc, name)?)?;
            return Ok(());
        }
        match self.cases.last_mut() {
            Some(case) => case.add(alloc, number, line),
            None => Err(unreadable()),
        }
    }

    fn read(&mut self, alloc: Global, number: usize, line: &[u8]) -> io::Result<()> {
        if line.is_empty() || line.starts_with(b"#") {
            return Ok(());
        }
        let line = spelled(alloc, &self.names, line)?;
        self.add(alloc, number, &line)
    }
}

/// The cases of a text.
pub fn read_cases(alloc: Global, text: &[u8]) -> io::Result<Vec<Case>> {
    let mut reader = Reader {
        names: Vec::new(alloc),
        cases: Vec::new(alloc),
    };
    for (index, line) in text.split(|byte| *byte == b'\n').enumerate() {
        reader.read(alloc, index.saturating_add(1), line.trim_ascii())?;
    }
    Ok(reader.cases)
}
