// Why the program ends before the end of its input.
ghost use Rattle.std.specs.Prelude.{◌≡◌, Some};
ghost use Rattle.protocol.specs.Stop.{flaw_text, stop_at, stop_for, status_of, stop_text};

use disk::Error;
use paged::Refusal;
use std::alloc::AllocError;
use std::{fmt, io};

/// What is wrong with a request. An offer of versions can be [`Flaw::Cut`] too.
#[derive(Clone, Copy, Debug, PartialEq, Eq)]
pub enum Flaw {
    /// The input ends inside the request's frame, or inside the offer.
    Cut,
    /// The request's frame is empty, without even a kind.
    Empty,
    /// The version has no kind of this number.
    Kind(u8),
    /// The request's frame is longer or shorter than those of its kind.
    Length,
    /// The request reads more bytes than an answer holds, which is 2^32 - 2.
    LongRead,
    /// The request begins a replay with a buffer of 0 bytes.
    NoBuffer,
}

/// Why a request isn't read.
#[derive(Clone, Copy, Debug, PartialEq, Eq)]
pub enum ReadError {
    /// The bytes are no request.
    Malformed(Flaw),
    /// The input failed.
    Failed,
    /// There was no memory for it.
    OutOfMemory,
}

/// Why the program ends before the end of its input.
#[derive(Clone, Copy, Debug, PartialEq, Eq)]
pub enum Stop {
    /// The request of this number isn't one. The first request has the number 1, and the offer of
    /// versions 0. Each request before this one was answered.
    Malformed(u64, Flaw),
    /// The input begins with this byte. Version 1 begins with 1, and an offer of versions with 2.
    Version(u8),
    /// The client offered versions, and none of them is known. The answer names those that are.
    NoVersion,
    /// A recovery would give up so many physical bytes at the end of the file, which is more than
    /// the setting allows: those that it cuts, and those of a torn last page. The file was only
    /// looked at.
    WouldCut(u64),
    /// The recovery of the file was refused with this error.
    Refused(Error),
    /// The input ended, or the client closed, and the writer was gone. This error is the last one
    /// that a request was answered with while there was a writer. What was synced is in the file;
    /// what was appended since may not be.
    Lost(Error),
    /// The answer to a request, or the hello, is longer than a frame. The steps of the request were
    /// taken.
    LongAnswer,
    /// The input or the output failed.
    Failed,
    /// There was no memory for a request or its answer.
    OutOfMemory,
}

impl Stop {
    /// Why a session stops if its request of this number isn't read.
    pub(crate) fn at(number: u64, error: ReadError) -> Self
        ensures { result ≡ stop_at number error }
    {
        match error {
            ReadError::Malformed(flaw) => Stop::Malformed(number, flaw),
            ReadError::Failed => Stop::Failed,
            ReadError::OutOfMemory => Stop::OutOfMemory,
        }
    }

    /// The exit status: 2 if the client broke the protocol or offered no known version, 3 for
    /// [`Stop::WouldCut`], else 1.
    pub fn status(self) -> u8
        ensures { result ≡ status_of self }
    {
        match self {
            Stop::Malformed(_, _) | Stop::Version(_) | Stop::NoVersion => 2,
            Stop::WouldCut(_) => 3,
            Stop::Refused(_) | Stop::Lost(_) => 1,
            Stop::LongAnswer | Stop::Failed | Stop::OutOfMemory => 1,
        }
    }
}

impl fmt::Display for Flaw {
    ghost output = { λ flaw. Some (flaw_text flaw) };

    fn fmt<W: fmt::Write>(&self, f: &mut fmt::Formatter<W>) -> fmt::Result {
        match self {
            Flaw::Cut => write!(f, "the input ends inside it"),
            Flaw::Empty => write!(f, "it is empty"),
            Flaw::Kind(kind) => write!(f, "there is no kind {kind}"),
            Flaw::Length => write!(f, "its length is not that of its kind"),
            Flaw::LongRead => write!(f, "it reads more than an answer holds"),
            Flaw::NoBuffer => write!(f, "its buffer has no byte"),
        }
    }
}

impl fmt::Display for Stop {
    ghost output = { λ stop. Some (stop_text stop) };

    fn fmt<W: fmt::Write>(&self, f: &mut fmt::Formatter<W>) -> fmt::Result {
        match self {
            Stop::Malformed(number, flaw) => write!(f, "pagedd: request {number}: {flaw}"),
            Stop::Version(byte) => write!(
                f,
                "pagedd: the input begins with {byte}: version 1 begins with 1, an offer with 2"
            ),
            Stop::NoVersion => write!(
                f,
                "pagedd: the client offers no version that is known: 1 and 2 are"
            ),
            Stop::WouldCut(cut) => write!(
                f,
                "pagedd: nothing was done: a recovery would give up the last {cut} bytes"
            ),
            Stop::Refused(error) => write!(f, "pagedd: the recovery failed: {}", error.name()),
            Stop::Lost(error) => write!(
                f,
                "pagedd: the writer ended with {}: what was appended since the last sync may be lost",
                error.name()
            ),
            Stop::LongAnswer => write!(f, "pagedd: an answer is too long"),
            Stop::Failed => write!(f, "pagedd: the input or the output failed"),
            Stop::OutOfMemory => write!(f, "pagedd: out of memory"),
        }
    }
}

impl From<AllocError> for ReadError {
    ghost use Rattle.protocol.specs.declared.stop.ReadError.TheVariants.{OutOfMemory};

    ghost from_gives = { λ _ error. error ≡ OutOfMemory };

    fn from(_: AllocError) -> Self {
        ReadError::OutOfMemory
    }
}

impl From<io::Error> for Stop {
    ghost use Rattle.protocol.specs.declared.stop.Stop.TheVariants.{Failed};

    ghost from_gives = { λ _ stop. stop ≡ Failed };

    fn from(_: io::Error) -> Self {
        Stop::Failed
    }
}

impl From<Error> for Stop {
    ghost use Rattle.protocol.specs.declared.stop.Stop.TheVariants.{Refused};

    ghost from_gives = { λ error stop. stop ≡ Refused error };

    fn from(error: Error) -> Self {
        Stop::Refused(error)
    }
}

impl From<Refusal> for Stop {
    ghost from_gives = { λ refusal stop. stop ≡ stop_for refusal };

    fn from(refusal: Refusal) -> Self {
        match refusal {
            Refusal::WouldCut(cut) => Stop::WouldCut(cut),
            Refusal::Failed(error) => Stop::Refused(error),
        }
    }
}

impl From<AllocError> for Stop {
    ghost use Rattle.protocol.specs.declared.stop.Stop.TheVariants.{OutOfMemory};

    ghost from_gives = { λ _ stop. stop ≡ OutOfMemory };

    fn from(_: AllocError) -> Self {
        Stop::OutOfMemory
    }
}
