// The steps of a run, and their replies.
use disk::{Error, StartedSync};
use std::num::NonZeroUsize;

/// A step of a run: one call of the layer.
#[derive(Drop)]
pub enum Step {
    /// Appends these bytes.
    Append(Vec<u8>),
    /// Appends these bytes in a buffer that the append owns.
    Owned(Vec<u8>),
    /// Appends these bytes if the buffer still has room for them, and else replies `Nothing`.
    TryAppend(Vec<u8>),
    /// Makes all that was appended durable.
    Sync,
    /// Writes all that was appended, and starts to make it durable.
    StartSync,
    /// Waits for the sync that the writer started last.
    Wait,
    /// Waits for the started sync of this name.
    WaitSync(u64),
    /// Asks whether a sync has something to do.
    Needs,
    /// Asks for the number of logical bytes.
    Size,
    /// Reads from this logical offset so many bytes.
    Read(u64, usize),
    /// Reads from this logical offset as many bytes as there are, at most so many.
    ReadUpTo(u64, usize),
    /// Reads from this logical offset so many bytes if that needs no device, and else replies
    /// `Nothing`.
    TryRead(u64, usize),
    /// Reads these ranges, each a logical offset and a length, in one call.
    ReadRanges(Vec<(u64, usize)>),
    /// Asks which of these ranges can't be read without the device.
    TryReadRanges(Vec<(u64, usize)>),
    /// Counts the logical bytes of the blob's text (what a recovery keeps), page by page from the
    /// front. Its numbers are, in order: the bytes that count as proven, so that the scan begins at
    /// the page that holds their end; the most bytes to count; and the buffer's bytes. Each read is
    /// of at most as many pages as fit the buffer, and at least one.
    Scan(u64, u64, NonZeroUsize),
    /// Ends the recovery: from then on the writer appends.
    Begin,
    /// Cuts the blob to its first so many logical bytes, durably, where the recovery hasn't ended.
    /// The replays that were begun before are forgotten, even if the cut is refused.
    Truncate(u64),
    /// Makes a snapshot of all that was appended, where the recovery has ended. Full pages that are
    /// buffered are written first, without a sync: two device calls at most.
    Snapshot,
    /// Makes a snapshot of all that was appended, where the recovery has ended, if no full page is
    /// buffered, so that nothing has to be written for it. Else it replies `Nothing`.
    TrySnapshot,
    /// Reads from the snapshot of this number, from this logical offset on, so many bytes.
    Snap(usize, u64, usize),
    /// Lets go of the snapshot of this number, and of the memory that it holds. The number isn't
    /// given again: each later step with it replies `NoSuch`, also a second `DropSnapshot`.
    DropSnapshot(usize),
    /// Begins a replay of all that was appended, with a buffer of so many bytes. What isn't written
    /// is written first, without a sync: two device calls at most.
    Replay(NonZeroUsize),
    /// Asks the replay of this number to have so many bytes at hand.
    Ensure(usize, usize),
    /// Takes so many of the bytes that the replay of this number has at hand, or all of them if it
    /// has fewer.
    Take(usize, usize),
    /// Moves the replay of this number to this logical offset.
    Seek(usize, u64),
    /// Lets go of the replay of this number, and of the memory that it holds. The number isn't
    /// given again: each later step with it replies `NoSuch`, also a second `DropReplay`.
    DropReplay(usize),
    /// Ends the writer by a snapshot and a started sync, where the recovery has ended: three device
    /// calls at most.
    Seal,
}

/// The reply to a step.
#[derive(PartialEq, Eq, Drop)]
pub enum Reply {
    /// The logical offset of the first appended byte.
    At(u64),
    /// A try wasn't done: the bytes don't fit the buffer; or they pass the end, or can't be read
    /// without the device; or the snapshot can't be made without a write.
    Nothing,
    /// The step is done.
    Done,
    /// What starting a sync answered.
    Started(StartedSync),
    /// Yes or no.
    Answer(bool),
    /// A number of logical bytes: of the content, or those that a scan counted.
    Length(u64),
    /// The bytes that were asked for.
    Bytes(Vec<u8>),
    /// How many of the ranges needed no device, and the bytes of all, one after the other.
    Served(usize, Vec<u8>),
    /// The numbers of the ranges that can't be read without the device; of all ranges if one can't
    /// be read at all.
    Missed(Vec<usize>),
    /// The call was refused with this error.
    Fault(Error),
    /// The step needs a writer, and there is none.
    Closed,
    /// The step needs a writer in recovery, and its recovery has ended.
    NotRecovering,
    /// The ranges overlap, aren't in order, or have 2^64 bytes or more together.
    BadRanges,
    /// The session has no started sync of this name, or no snapshot or replay of this number: it
    /// wasn't given one, or it has let the one go, or a truncate has forgotten the replay.
    NoSuch,
    /// The number of the snapshot that was made.
    Taken(usize),
    /// The number of the replay that was begun.
    Replaying(usize),
    /// The number of the snapshot that the writer left, and what starting a sync answered.
    Sealed(usize, StartedSync),
    /// The step needs a writer whose recovery has ended, and the writer is still in recovery.
    NotAppending,
}
