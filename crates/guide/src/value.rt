// A value of one's own, which is appended where it fits the buffer.
use crate::calls::{new_cache, open};
use bytes::BufMut;
use crc32c::Crc32c;
use disk::{Error, VecBlob};
use page::{EncodeSize, Write};
use paged::Writer;
use std::alloc::{AllocError, Global};

/// Two numbers, each written as two bytes, the higher one first.
#[derive(Clone, Copy)]
pub struct Pair(pub u16, pub u16);

impl EncodeSize for Pair {
    ghost use Rattle.std.specs.Prelude.{◌++◌};
    ghost use Rattle.std.specs.Int.{w16, to_be_bytes};

    ghost encoded = { λ pair. to_be_bytes w16 pair.0 ++ to_be_bytes w16 pair.1 };

    fn encode_size(&self) -> usize {
        4
    }
}

impl Write for Pair {
    fn write<O: BufMut>(&self, out: &mut O) -> Result<(), AllocError> {
        out.put_u16(self.0)?;
        out.put_u16(self.1)
    }
}

/// Opens a new blob, and appends a value if the buffer has room: where it stands then, and how many
/// bytes there are.
pub fn keep_a_value(alloc: Global) -> Result<(Option<u64>, u64), Error> {
    let mut blob = VecBlob::new(alloc);
    let mut cache = new_cache(alloc)?;
    let recovery = open::<Crc32c>(alloc, &mut blob, &mut cache)?;
    let mut writer: Writer<VecBlob, Crc32c> = Writer::from(recovery);
    let at = writer.try_append_value(&Pair(1, 2))?;
    Ok((at, writer.size()))
}
