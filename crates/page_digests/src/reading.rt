// Reads into a buffer, of which some are compared with a digest.
ghost use Rattle.std.specs.Prelude.{length};
ghost use Rattle.page_digests.specs.Buffers.{ComparesGoes, FillsGoes};

use crate::error::Error;
use crate::source::Source;
use digest::Digest;

/// Reads `len` bytes from an offset on into a buffer. Answers whether they have a digest. After an
/// error the buffer may hold anything.
pub fn read_compared<F: Source, D: Digest>(
    file: &mut F,
    offset: u64,
    len: usize,
    digest: &[u8; 32],
    bytes: &mut Vec<u8>,
) -> Result<bool, Error>
    ensures { ComparesGoes D.digest_of offset len digest.now (F.reads file.old) (F.reads file.new)
        bytes.new.items result }
{
    read_bytes(file, offset, len, bytes)?;
    Ok(D::digest(bytes) == *digest)
}

/// Reads `len` bytes from an offset on into a buffer. After an error the buffer may hold anything.
pub fn read_bytes<F: Source>(
    file: &mut F,
    offset: u64,
    len: usize,
    bytes: &mut Vec<u8>,
) -> Result<(), Error>
    ensures { FillsGoes offset len (F.reads file.old) (F.reads file.new) bytes.new.items result }
{
    bytes.resize(len, 0)?;
    fill(file, offset, bytes)
}

// Fills a buffer with the bytes from an offset on.
fn fill<F: Source>(file: &mut F, offset: u64, bytes: &mut [u8]) -> Result<(), Error>
    ensures { FillsGoes offset (length bytes.old) (F.reads file.old) (F.reads file.new) bytes.new
        result }
{
    file.read_at(bytes, offset)?;
    Ok(())
}
