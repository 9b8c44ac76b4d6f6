// Values whose encodings have one size.
ghost use Rattle.std.specs.Prelude.{◌≡◌, length};

use bytes::BufMut;
use page::{EncodeSize, FixedSize, Write};
use std::alloc::AllocError;

/// A value that is `N` bytes.
#[derive(Drop)]
pub struct Fixed<const N: usize> {
    bytes: Vec<u8>,
    ghost whole: { length bytes.items ≡ N },
}

impl<const N: usize> Fixed<N> {
    /// The value of these bytes, if they are so many.
    pub fn new(bytes: Vec<u8>) -> Option<Fixed<N>> {
        if bytes.len() == N {
            Some(Fixed { bytes })
        } else {
            None
        }
    }
}

impl<const N: usize> EncodeSize for Fixed<N> {
    ghost encoded = { λ value. value.bytes.items };

    fn encode_size(&self) -> usize {
        N
    }
}

impl<const N: usize> Write for Fixed<N> {
    fn write<O: BufMut>(&self, out: &mut O) -> Result<(), AllocError> {
        out.put_slice(&self.bytes)
    }
}

impl<const N: usize> FixedSize for Fixed<N> {
    ghost SIZE = { N };

    const SIZE: usize = N;

    ghost sized = { λ value. value.whole };
}
