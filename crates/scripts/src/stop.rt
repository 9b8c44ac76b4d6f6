// Why a script isn't played to its end.
ghost use Rattle.std.specs.Prelude.{◌≡◌, Some};
ghost use Rattle.scripts.specs.Stop.{error_at, script_status_of, script_stop_text};

use crate::word::ReadError;
use std::alloc::{AllocError, AllocFailed};
use std::{fmt, io};

/// Why a script isn't played to its end.
#[derive(Clone, Copy, Debug, PartialEq, Eq)]
pub enum Stop {
    /// The line of this number can't be read, and each before it can. The first has the number 1.
    /// Nothing is played then.
    Unreadable(u64),
    /// The input or the output failed, or there was no memory for the script.
    Failed,
}

impl Stop {
    /// Why a script stops if its line of this number can't be read, or memory was refused for it.
    pub fn at(number: u64, error: ReadError) -> Self
        ensures { result ≡ error_at number error }
    {
        match error {
            ReadError::Unreadable => Stop::Unreadable(number),
            ReadError::OutOfMemory => Stop::Failed,
        }
    }

    /// The exit status: 2 for a line that can't be read, else 1.
    pub fn status(self) -> u8
        ensures { result ≡ script_status_of self }
    {
        match self {
            Stop::Unreadable(_) => 2,
            Stop::Failed => 1,
        }
    }
}

impl fmt::Display for Stop {
    ghost output = { λ stop. Some (script_stop_text stop) };

    fn fmt<W: fmt::Write>(&self, f: &mut fmt::Formatter<W>) -> fmt::Result {
        match self {
            Stop::Unreadable(number) => write!(f, "unreadable line {number}"),
            Stop::Failed => write!(f, "pagedctl: stopped"),
        }
    }
}

impl From<io::Error> for Stop {
    ghost use Rattle.scripts.specs.declared.stop.Stop.TheVariants.{Failed};

    ghost from_gives = { λ _ stop. stop ≡ Failed };

    fn from(_: io::Error) -> Self {
        Stop::Failed
    }
}

impl From<AllocError> for Stop {
    ghost use Rattle.scripts.specs.declared.stop.Stop.TheVariants.{Failed};

    ghost from_gives = { λ _ stop. stop ≡ Failed };

    fn from(_: AllocError) -> Self {
        Stop::Failed
    }
}

impl<T: Drop> From<AllocFailed<T>> for Stop {
    ghost use Rattle.scripts.specs.declared.stop.Stop.TheVariants.{Failed};

    ghost from_gives = { λ _ stop. stop ≡ Failed };

    fn from(_: AllocFailed<T>) -> Self {
        Stop::Failed
    }
}
