// Bytes of a file that are read ahead while reads follow one another.
ghost use Rattle.std.specs.Prelude.{◌≡◌, length};

use crate::pages::BETWEEN;
use std::alloc::Global;
use std::fs::File;
use std::io;
use std::os::unix::fs::FileExt;

// So many bytes are read at once while reads follow one another.
const AHEAD: usize = 1 << 16;

// A longer read isn't worth it.
const MOST: usize = AHEAD / 4;

// After so many reads that followed one another more are expected: a record that is read at random
// may have bytes of a few pages.
const RUN: usize = 4;

/// What was read ahead of a file. A read follows another one if at most as many bytes lie between
/// both as stand between two pages. Each other read goes to the file, and so do the first of those
/// that follow one another.
#[derive(Drop)]
pub struct Ahead {
    // Bytes of the file from byte `start` on.
    bytes: Vec<u8>,
    start: u64,
    // Where the last read ended.
    end: u64,
    // How many reads followed one another.
    run: usize,
}

impl Ahead {
    /// Nothing was read yet.
    pub fn new(alloc: Global) -> Self {
        Ahead {
            bytes: Vec::new(alloc),
            start: 0,
            end: 0,
            run: 0,
        }
    }

    /// Fills `bytes` with the file's bytes from byte `offset` on. An error where the file ends
    /// before they do, or where the system refuses the read.
    pub fn fill(&mut self, file: &File, bytes: &mut [u8], offset: u64) -> io::Result<()>
        ensures { length bytes.new ≡ length bytes.old }
    {
        self.count(offset, bytes.len());
        if self.run < RUN || bytes.len() > MOST {
            return file.read_exact_at(bytes, offset);
        }
        if self.copy(bytes, offset) {
            return Ok(());
        }
        self.read(file, offset);
        if self.copy(bytes, offset) {
            return Ok(());
        }
        // The system says why.
        file.read_exact_at(bytes, offset)
    }

    // Counts a read, which follows the last one or begins anew.
    fn count(&mut self, offset: u64, len: usize) {
        let follows = offset.wrapping_sub(self.end) <= BETWEEN as u64;
        self.end = offset.saturating_add(len as u64);
        self.run = if follows {
            self.run.saturating_add(1)
        } else {
            0
        };
    }

    // Fills `bytes`, if all of them were read ahead. Answers whether they were.
    fn copy(&self, bytes: &mut [u8], offset: u64) -> bool
        ensures { length bytes.new ≡ length bytes.old }
    {
        let Some(skip) = offset.checked_sub(self.start) else {
            return false;
        };
        let rest = match self.bytes.get(skip as usize..) {
            Some(rest) => rest,
            None => &[],
        };
        match rest.get(..bytes.len()) {
            Some(range) => {
                bytes.copy_from_slice(range);
                true
            }
            None => false,
        }
    }

    // Reads ahead from byte `offset` on. If memory or the read is refused, nothing is held.
    fn read(&mut self, file: &File, offset: u64) {
        self.start = offset;
        if self.bytes.resize(AHEAD, 0).is_err() {
            self.bytes.clear();
            return;
        }
        let count = match file.read_at(&mut self.bytes, offset) {
            Ok(count) => count,
            Err(_) => 0,
        };
        self.bytes.truncate(count);
    }
}
