// What was done, and what it took.
use crate::stage::{Device, PHYSICAL_PAGE};
use anyhow::Result;
use std::fmt;
use std::time::Instant;

/// What the rounds of a workload came to.
#[derive(Clone, Copy, Default)]
pub struct Done {
    pub operations: u64,
    /// The logical bytes that the operations were asked for.
    pub bytes: u64,
    /// The last checksum, if the operations are checksums.
    pub last: Option<u32>,
    /// The physical bytes that the device read and wrote.
    moved: u64,
    /// The device calls.
    calls: u64,
    nanoseconds: u128,
}

impl Done {
    /// The time that the rounds took, as text.
    pub fn took(&self) -> Took {
        Took(*self)
    }
}

impl fmt::Display for Done {
    fn fmt<W: fmt::Write>(&self, f: &mut fmt::Formatter<W>) -> fmt::Result {
        let pages = self.moved / PHYSICAL_PAGE;
        write!(
            f,
            "{} operations, {} bytes, {pages} pages, {} device calls",
            self.operations, self.bytes, self.calls
        )?;
        if let Some(last) = self.last {
            write!(f, ", last {last:08x}")?;
        }
        Ok(())
    }
}

/// The time that something took.
#[derive(Drop)]
pub struct Took(Done);

impl fmt::Display for Took {
    fn fmt<W: fmt::Write>(&self, f: &mut fmt::Formatter<W>) -> fmt::Result {
        let Took(done) = self;
        let tenths = done.nanoseconds.saturating_mul(10) / u128::from(done.operations.max(1));
        let rate = u128::from(done.bytes).saturating_mul(1000) / done.nanoseconds.max(1);
        write!(
            f,
            "{}.{} ns an operation, {rate} MB/s",
            tenths / 10,
            tenths % 10
        )
    }
}

/// The clock and the counts of a device as a round begins.
#[derive(Drop)]
pub struct Start {
    time: Instant,
    moved: u64,
    calls: u64,
}

impl Start {
    /// Begins a round.
    pub fn now(rt: &HostRuntime, blob: &Device) -> Result<Self> {
        Ok(Start {
            moved: blob.read.saturating_add(blob.written),
            calls: blob.calls,
            time: Instant::now(rt)?,
        })
    }

    /// Ends the round, and adds what it took.
    pub fn end(self, rt: &HostRuntime, blob: &Device, done: &mut Done) -> Result<()> {
        let time = self.time.elapsed(rt)?.as_nanos();
        let moved = blob.read.saturating_add(blob.written);
        done.nanoseconds = done.nanoseconds.saturating_add(time);
        done.moved = done.moved.saturating_add(moved.saturating_sub(self.moved));
        done.calls = done
            .calls
            .saturating_add(blob.calls.saturating_sub(self.calls));
        Ok(())
    }
}
