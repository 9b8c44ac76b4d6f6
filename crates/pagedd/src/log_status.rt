// The statuses of refusals, and how an error of the log is answered to a client.
use crate::log_answer::Refusal;
use protocol::Flaw;
use segments::Error;
use std::io;

/// The log is served for reading alone.
pub const READ_ONLY: u8 = 22;

/// The fields are no records, or one is longer than a record may be.
pub const NO_RECORDS: u8 = 23;

/// No frame begins at the place, or no record comes after it.
pub const AT_END: u8 = 6;

/// The log is closed.
pub const CLOSED: u8 = 17;

/// No version of an offer is known.
pub const NO_VERSION: u8 = 24;

// What a client may do after a sync of a file or of the folder failed: replace the log's files by copies.
const REPLACE: u8 = 3;

// The last status of a call of a file that failed.
const LAST_OF_FILE: u8 = 4;

/// How the files of a log fared.
#[derive(Clone, Copy)]
pub struct Failure<'a> {
    /// Why one of them failed, if one did.
    pub error: Option<&'a io::Error>,
    /// Whether a sync of one of them failed: they have to be replaced.
    pub sync_failed: bool,
}

/// The refusal of a request after an error of the log, once `taken` records of the request were
/// appended. `is_closing` says whether the error closed the log, and `failure` how its files fared.
pub fn refusal_of<'a>(
    error: &'a Error,
    is_closing: bool,
    taken: u64,
    failure: Failure<'a>,
) -> Refusal<'a> {
    Refusal {
        status: told_status(error, failure.sync_failed),
        advice: if failure.sync_failed {
            REPLACE
        } else {
            advice_after(error, is_closing)
        },
        taken,
        cause: cause_of(error, failure.error),
    }
}

// The status of an error as a client gets it. After a failed sync, what the layer answers as a
// failed write, or a failed change of the size, was that sync.
fn told_status(error: &Error, sync_failed: bool) -> u8 {
    match error {
        Error::Layer(disk::Error::WriteFailed | disk::Error::ResizeFailed) if sync_failed => {
            disk::Error::SyncFailed.number()
        }
        _ => status_of(error),
    }
}

/// Whether this error is that of a failed sync, of a file or of the folder.
pub fn is_failed_sync(error: &Error) -> bool {
    matches!(
        error,
        Error::Unsynced(_) | Error::Layer(disk::Error::SyncFailed)
    )
}

/// The status of an error.
pub fn status_of(error: &Error) -> u8 {
    match error {
        Error::Layer(error) => error.number(),
        Error::Closed => CLOSED,
        Error::NoSegment(_) => 38,
        Error::Damaged(_) => 39,
        Error::System(_) | Error::Unsynced(_) => 40,
        Error::Unlisted(_) => 41,
        Error::NumbersExhausted => 42,
        Error::NoFrame(_, _) => 44,
        Error::Unmarked(_) => 45,
        Error::Missing(_)
        | Error::Short(_)
        | Error::Outdated(_)
        | Error::Manifest
        | Error::AnotherDigest(_) => 43,
    }
}

/// The status of what is no request.
pub fn status_of_flaw(flaw: Flaw) -> u8 {
    match flaw {
        Flaw::Cut => 32,
        Flaw::Empty => 33,
        Flaw::Kind(_) => 34,
        Flaw::Length => 35,
        Flaw::LongRead => 36,
        Flaw::NoBuffer => 37,
    }
}

// What a client may do next: 0 is to ask for something else, 1 to ask again, 2 to open anew, 3 to
// replace the log's files first, each by a copy of itself, since nobody knows what is durable.
fn advice_after(error: &Error, is_closing: bool) -> u8 {
    match error {
        Error::Unsynced(_) | Error::Layer(disk::Error::SyncFailed) => REPLACE,
        // `Manifest` is that of a read, which leaves the log as it was.
        Error::NoSegment(_)
        | Error::NoFrame(_, _)
        | Error::Unmarked(_)
        | Error::Damaged(_)
        | Error::Manifest => 0,
        Error::Closed
        | Error::Unlisted(_)
        | Error::NumbersExhausted
        | Error::Missing(_)
        | Error::Short(_)
        | Error::Outdated(_)
        | Error::AnotherDigest(_) => 2,
        _ if is_closing => 2,
        Error::System(_) => 1,
        Error::Layer(disk::Error::ReadFailed | disk::Error::OutOfMemory) => 1,
        Error::Layer(disk::Error::BlobInsufficientLength | disk::Error::OffsetOverflow) => 0,
        Error::Layer(_) => 2,
    }
}

// The error of the system, where there is one: of the folder, or of a file that failed.
fn cause_of<'a>(error: &'a Error, failure: Option<&'a io::Error>) -> Option<&'a io::Error> {
    match error {
        Error::System(why) | Error::Unsynced(why) => Some(why),
        Error::Layer(error) if error.number() <= LAST_OF_FILE => failure,
        _ => None,
    }
}
