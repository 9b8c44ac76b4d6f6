// Bytes in memory as a source.
ghost use Rattle.std.specs.Prelude.{◌≡◌, [], length};

use crate::past::SourcePast;
use crate::source::Source;
use std::io;
use std::io::ErrorKind;
use std::marker::Model;
use std::snapshot::Snapshot;

/// Bytes in memory of which ranges are read, as of a file.
#[derive(Drop)]
pub struct VecSource {
    bytes: Vec<u8>,
    past: Snapshot<SourcePast>,
}

impl Model for VecSource {
    ghost use Rattle.std.specs.Prelude.{List};
    ghost use Rattle.page_digests.specs.Sources.{SourceRead};

    ghost Value = { List SourceRead };

    ghost view = { λ s. s.past.value };
}

impl VecSource {
    /// Bytes of which nothing was read yet.
    pub fn new(bytes: Vec<u8>) -> Self
        ensures { result ≡ [] }
    {
        VecSource {
            bytes,
            past: SourcePast::begun(),
        }
    }

    // Fills `bytes` from byte `offset` on.
    fn copy(&self, bytes: &mut [u8], offset: u64) -> io::Result<()>
        ensures { length bytes.new ≡ length bytes.old }
    {
        let rest = match self.bytes.get(offset as usize..) {
            Some(rest) => rest,
            None => &[],
        };
        match rest.get(..bytes.len()) {
            Some(range) => {
                bytes.copy_from_slice(range);
                Ok(())
            }
            None => Err(ErrorKind::UnexpectedEof.into()),
        }
    }
}

impl Source for VecSource {
    ghost reads = { λ s. s };

    fn read_at(&mut self, bytes: &mut [u8], offset: u64) -> io::Result<()> {
        let result = self.copy(bytes, offset);
        self.past = SourcePast::after(&self.past, offset, bytes, result.is_err());
        result
    }
}
