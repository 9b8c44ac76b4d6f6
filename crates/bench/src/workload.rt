// What is played.
use crate::stage::PAGE_SIZE;

/// How many offsets one call of `ReadMany` reads.
pub const MANY: usize = 64;

/// What an operation of a workload does. Bytes are logical.
#[derive(Clone, Copy)]
pub enum Work {
    /// Appends so many bytes.
    Append(usize),
    /// Tries to append so many bytes in the buffer, and appends them by the plain call if they
    /// don't fit.
    TryAppend(usize),
    /// Appends a buffer of so many bytes.
    AppendOwned(usize),
    /// Appends so many bytes, with a sync after every so many appends.
    AppendSynced(usize, u64),
    /// Appends so many bytes, with a sync that is started and waited for after every so many
    /// appends.
    AppendStarted(usize, u64),
    /// Reads so many bytes of what is buffered.
    ReadTip(usize),
    /// Reads so many bytes of the pages below the buffer.
    ReadBelow(usize),
    /// Reads so many bytes of these pages at random. With true the cache may hold all pages, or
    /// else one.
    ReadRandom(usize, bool),
    /// Reads so many bytes at each of `MANY` offsets in one call. With true the cache may hold all
    /// pages, or else one.
    ReadMany(usize, bool),
    /// Reads so many bytes of these pages, each time the next ones.
    ReadThrough(usize),
    /// Recovers a blob of so many logical bytes, with a buffer of so many bytes.
    Recover(usize, usize),
    /// Replays a blob of so many logical bytes, with a buffer of so many bytes.
    Replay(usize, usize),
    /// The checksum of a page.
    Checksum,
}

/// Something that is played round by round. Each round of appends begins with an empty blob.
#[derive(Clone, Copy)]
pub struct Workload {
    pub name: &'static str,
    pub work: Work,
    /// The operations of a round.
    pub count: u64,
}

impl Workload {
    fn new(name: &'static str, work: Work, count: u64) -> Self {
        Workload { name, work, count }
    }

    /// The bytes that an operation is asked for.
    pub fn bytes(&self) -> usize {
        match self.work {
            Work::Append(len)
            | Work::TryAppend(len)
            | Work::AppendOwned(len)
            | Work::AppendSynced(len, _)
            | Work::AppendStarted(len, _)
            | Work::ReadTip(len)
            | Work::ReadBelow(len)
            | Work::ReadRandom(len, _)
            | Work::ReadThrough(len)
            | Work::Recover(len, _)
            | Work::Replay(len, _) => len,
            Work::ReadMany(len, _) => MANY.saturating_mul(len),
            Work::Checksum => usize::from(PAGE_SIZE),
        }
    }
}

const KIB: usize = 1 << 10;

const MIB: usize = 1 << 20;

/// All workloads, in the order in which they are played.
pub fn workloads() -> [Workload; 22] {
    [
        Workload::new("append 16 B", Work::Append(16), 16384),
        Workload::new("append 100 B", Work::Append(100), 8192),
        Workload::new("append 64 KiB", Work::Append(64 * KIB), 64),
        Workload::new("append 1 MiB", Work::Append(MIB), 4),
        Workload::new("append 1 MiB, owned", Work::AppendOwned(MIB), 4),
        Workload::new("try 16 B", Work::TryAppend(16), 16384),
        Workload::new("append 100 B, sync each", Work::AppendSynced(100, 1), 4096),
        Workload::new(
            "append 100 B, sync every 16",
            Work::AppendSynced(100, 16),
            4096,
        ),
        Workload::new(
            "append 100 B, sync every 256",
            Work::AppendSynced(100, 256),
            4096,
        ),
        Workload::new(
            "append 100 B, started every 16",
            Work::AppendStarted(100, 16),
            4096,
        ),
        Workload::new("read 100 B in the tip", Work::ReadTip(100), 512),
        Workload::new("read 100 B below the tip", Work::ReadBelow(100), 512),
        Workload::new("read 100 B, cached", Work::ReadRandom(100, true), 4096),
        Workload::new("read 100 B, cold", Work::ReadRandom(100, false), 4096),
        Workload::new("read 64 x 100 B, cached", Work::ReadMany(100, true), 256),
        Workload::new("read 64 x 100 B, cold", Work::ReadMany(100, false), 256),
        Workload::new("read 64 MiB by 4 KiB", Work::ReadThrough(4 * KIB), 16384),
        Workload::new(
            "recover 64 MiB by 64 KiB",
            Work::Recover(64 * MIB, 64 * KIB),
            1,
        ),
        Workload::new("recover 64 MiB by 1 MiB", Work::Recover(64 * MIB, MIB), 1),
        Workload::new(
            "replay 64 MiB by 64 KiB",
            Work::Replay(64 * MIB, 64 * KIB),
            1,
        ),
        Workload::new("replay 64 MiB by 1 MiB", Work::Replay(64 * MIB, MIB), 1),
        Workload::new("checksum of a page", Work::Checksum, 256),
    ]
}
