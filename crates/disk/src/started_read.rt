// Reads that were started.
ghost use Rattle.std.specs.Prelude.{◌≡◌};
ghost use Rattle.disk.specs.StartedRead.{answer_of};

use crate::{Error, IoBuf};
use std::marker::Model;

/// What starting a read of several ranges answers, to be waited for. It keeps the bytes of each
/// range, as they were at the start, or why there are none.
pub struct StartedRead {
    answer: Result<Vec<IoBuf>, Error>,
}

// By hand, so that an owner lets one go by one call: of a derived drop, a proof follows each field
// at each exit.
impl Drop for StartedRead {
    fn drop(self) {
        let StartedRead { answer: _ } = self;
    }
}

impl Model for StartedRead {
    ghost use Rattle.std.specs.Prelude.{List, Result, ℕ};
    ghost use Rattle.disk.specs.declared.error.Error.{Error};
    ghost use Rattle.disk.specs.StartedRead.{answer_of};

    ghost Value = { Result (List (List ℕ)) Error };

    ghost view = { λ r. answer_of r.answer };
}

impl StartedRead {
    /// A started read that keeps this answer, for whoever writes a [`crate::Blob`].
    pub fn kept(answer: Result<Vec<IoBuf>, Error>) -> Self
        ensures { result ≡ answer_of answer }
    {
        StartedRead { answer }
    }

    /// The bytes of each range, in the order of the ranges, or the error that was kept in their
    /// stead. It asks no device and takes no memory.
    pub fn wait(self) -> Result<Vec<IoBuf>, Error>
        ensures { answer_of result ≡ self }
    {
        let StartedRead { answer } = self;
        answer
    }
}
