// Device calls, as a case writes them.
use crate::words::say_ranges;
use disk::{Call, Error};
use std::io;
use std::io::Write;

fn say_call(call: &Call, said: &mut Vec<u8>) -> io::Result<()> {
    match call {
        Call::ReadAt(offset, len) => write!(said, "read {offset} {len}"),
        Call::ReadMany(ranges) => {
            write!(said, "ranges")?;
            say_ranges(ranges, said)
        }
        Call::StartReadMany(ranges) => {
            write!(said, "start-ranges")?;
            say_ranges(ranges, said)
        }
        Call::WriteAt(offset, len, false) => write!(said, "write {offset} {len}"),
        Call::WriteAt(offset, len, true) => write!(said, "write {offset} {len} durable"),
        Call::Resize(len) => write!(said, "resize {len}"),
        Call::Sync => write!(said, "sync"),
        Call::StartSync => write!(said, "start"),
        Call::WaitSync(name) => write!(said, "wait {name}"),
    }
}

/// Writes the device calls from the index `first` on.
pub fn say_calls(calls: &[Call], first: usize, said: &mut Vec<u8>) -> io::Result<()> {
    if calls.len() <= first {
        return write!(said, "none");
    }
    for (index, call) in calls.iter().skip(first).enumerate() {
        if index > 0 {
            write!(said, ", ")?;
        }
        say_call(call, said)?;
    }
    Ok(())
}

/// The error with which a device call fails.
pub fn error_of(call: &Call) -> Error {
    match call {
        Call::ReadAt(_, _) | Call::ReadMany(_) | Call::StartReadMany(_) => Error::ReadFailed,
        Call::WriteAt(_, _, _) => Error::WriteFailed,
        Call::Resize(_) => Error::ResizeFailed,
        Call::Sync | Call::StartSync | Call::WaitSync(_) => Error::SyncFailed,
    }
}

/// Whether a device call changes bytes.
pub fn is_write(call: &Call) -> bool {
    match call {
        Call::WriteAt(_, _, _) | Call::Resize(_) => true,
        _ => false,
    }
}

/// Whether the failure of a device call may show later, or never: that of a start shows at a wait,
/// if there is one.
pub fn may_be_silent(call: &Call) -> bool {
    match call {
        Call::StartSync | Call::StartReadMany(_) => true,
        _ => false,
    }
}
