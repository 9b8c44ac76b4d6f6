// The copy of a manifest, with what is known of the open segment.
ghost use Rattle.std.specs.Prelude.{◌≡◌, IfOk, Some};
ghost use Rattle.segments.specs.Copies.{copy_bytes, known_in};

use crate::entry::number_at;
use crc32c::Crc32c;
use disk::Error;
use page::Sum;
use std::alloc::Global;

/// How many bytes stand before the manifest's in a copy of it.
pub const COPY_HEAD: usize = 20;

/// What is known of the open segment as a copy of the manifest is kept.
#[derive(Clone, Copy)]
pub struct Known {
    /// The number of the open segment.
    pub segment: u64,
    /// How many logical bytes of it were durable.
    pub len: u64,
}

/// The bytes of a copy of a manifest: in four bytes the CRC-32C of all that follows, in eight the
/// number of the open segment, in eight how many of its logical bytes were durable, the highest
/// first in each, and the bytes of the manifest. The only error is `OutOfMemory`.
#[tactic(auto, using(crate::proofs::CopiesTold::copy_told))]
pub fn copy_of(alloc: Global, known: Known, manifest: &[u8]) -> Result<Vec<u8>, Error>
    ensures bytes { IfOk result (λ bytes. bytes.items ≡ copy_bytes known manifest.now) }
    ensures told { IfOk result (λ bytes. known_in bytes.items ≡ Some known) }
{
    match summed(alloc, known, manifest) {
        Ok(bytes) => Ok(bytes),
        Err(error) => Err(error),
    }
}

// The bytes of a copy.
fn summed(alloc: Global, known: Known, manifest: &[u8]) -> Result<Vec<u8>, Error>
    ensures { IfOk result (λ bytes. bytes.items ≡ copy_bytes known manifest.now) }
{
    let mut body = Vec::new(alloc);
    body.extend_from_slice(&known.segment.to_be_bytes())?;
    body.extend_from_slice(&known.len.to_be_bytes())?;
    body.extend_from_slice(manifest)?;
    let mut bytes = Vec::new(alloc);
    bytes.extend_from_slice(&Crc32c::sum(&body).to_be_bytes())?;
    bytes.extend_from_slice(&body)?;
    Ok(bytes)
}

impl Known {
    /// What is known by the bytes of a copy. The manifest's bytes are those from
    /// [`COPY_HEAD`] on. `None` where the copy isn't whole.
    #[tactic(auto, unfolding(crate::specs::Copies::known_in))]
    pub fn of(bytes: &[u8]) -> Option<Self>
        ensures { result ≡ known_in bytes.now }
    {
        if bytes.len() < COPY_HEAD {
            return None;
        }
        let sum = u32::from_be_bytes([bytes[0], bytes[1], bytes[2], bytes[3]]);
        if sum != Crc32c::sum(&bytes[4..]) {
            return None;
        }
        Some(Known {
            segment: number_at(bytes, 4),
            len: number_at(bytes, 12),
        })
    }
}
