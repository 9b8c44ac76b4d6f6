// The versions of the protocol.
ghost use Rattle.std.specs.Prelude.{◌≡◌};
ghost use Rattle.protocol.specs.Request.{last_kind};

/// A version of the protocol.
#[derive(Clone, Copy, Debug, PartialEq, Eq)]
pub enum Version {
    /// Each request is one step, and a refusal has only a status.
    One,
    /// Steps that belong together can be one request, and a refusal also has its cause.
    Two,
}

impl Version {
    /// The greatest kind of a request.
    pub(crate) fn last_kind(self) -> u8
        ensures { result ≡ last_kind self }
    {
        match self {
            Version::One => 16,
            Version::Two => 26,
        }
    }
}
