// Values that write themselves.
ghost use Rattle.std.specs.Prelude.{◌≡◌, ◌≤◌, ◌++◌, List, ℕ, OnOk, IsOk, length};

use bytes::BufMut;
use std::alloc::AllocError;

/// A value whose encoding has a known size.
pub trait EncodeSize {
    /// The bytes that the value is encoded as.
    ghost encoded: { Self → List ℕ };

    /// How many bytes the value is encoded as.
    fn encode_size(&self) -> usize
        ensures { result ≡ length (encoded self.now) };
}

/// A value that writes its encoding.
pub trait Write: EncodeSize {
    /// Writes the encoded bytes after those that `out` holds. The answer is `Ok` where `out` has
    /// room for all of them.
    fn write<O: BufMut>(&self, out: &mut O) -> Result<(), AllocError>
        ensures bytes { OnOk result
            (O.written out.new ≡ O.written out.old ++ Self.encoded self.now) }
        ensures room { length (Self.encoded self.now) ≤ O.spare out.old → IsOk result };
}

/// A value whose encoding has the same size as that of each other value of its type.
pub trait FixedSize: EncodeSize {
    ghost SIZE: { ℕ };

    /// The size of an encoded value in bytes.
    const SIZE: usize;

    /// Each value is encoded as `SIZE` bytes.
    ghost sized: { (v : Self) → length (Self.encoded v) ≡ SIZE };
}
