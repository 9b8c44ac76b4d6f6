// How a command ends.
use protocol::Stop;
use std::alloc::{AllocError, AllocFailed};
use std::process::ExitCode;

/// How a command ends. Each end has one exit status, whichever command it is. A function that ends
/// its command early returns it as its error, after a line on standard error has said why. There is
/// no such line for `Unread`, and for `OutOfMemory` only the program's end prints it.
#[derive(Clone, Copy, PartialEq, Eq)]
pub enum Status {
    /// 0: it is done. All that the file holds is whole, and in what was answered.
    Done,
    /// 1: it couldn't be done. The file, the input or the output failed, the command line isn't
    /// understood, or a session ended after its writer was lost.
    Failed,
    /// 1: memory was refused.
    OutOfMemory,
    /// 2: the input of `serve` or `serve-log` isn't requests.
    Malformed,
    /// 3: the file or the log isn't whole. `serve`, `serve-log` and `append` refuse it, and change
    /// nothing. `check` found a cut, a page without a value, a bad slot, a part of a page, or a
    /// segment that isn't as it was closed. `cat` and `salvage` couldn't give all that the file or
    /// the log may hold.
    NotWhole,
    /// 141: whoever read the output has closed it, as at the end of a pipe. A shell reports this
    /// status for a program that SIGPIPE ends.
    Unread,
}

impl Status {
    /// The exit status.
    fn code(self) -> u8 {
        match self {
            Status::Done => 0,
            Status::Failed | Status::OutOfMemory => 1,
            Status::Malformed => 2,
            Status::NotWhole => 3,
            Status::Unread => 141,
        }
    }

    /// The end of a command that looked at a file and found it whole, or not.
    pub fn of_file(is_whole: bool) -> Self {
        if is_whole {
            Status::Done
        } else {
            Status::NotWhole
        }
    }
}

impl From<AllocError> for Status {
    fn from(_: AllocError) -> Self {
        Status::OutOfMemory
    }
}

impl<T: Drop> From<AllocFailed<T>> for Status {
    fn from(_: AllocFailed<T>) -> Self {
        Status::OutOfMemory
    }
}

impl From<Status> for ExitCode {
    fn from(status: Status) -> Self {
        ExitCode::from(status.code())
    }
}

impl From<Stop> for Status {
    fn from(stop: Stop) -> Self {
        match stop.status() {
            2 => Status::Malformed,
            3 => Status::NotWhole,
            _ => Status::Failed,
        }
    }
}
