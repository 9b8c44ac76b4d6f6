// SHA-512/256 as a digest.
use crate::Digest;
use sha2::Sha512_256;

/// SHA-512/256 of FIPS 180-4: the digest to take by default.
pub struct ShaDigest;

impl Digest for ShaDigest {
    ghost use Rattle.std.specs.Prelude.{codes};
    ghost use Rattle.sha2.specs.Sha512.{sha512_256};
    ghost use Rattle.sha2.proofs.Facts512.{length-sha512_256};

    ghost NUMBER = { 1 };

    const NUMBER: u8 = 1;

    ghost name_of = { codes "sha512-256" };

    fn name() -> &'static str {
        "sha512-256"
    }

    ghost digest_of = { sha512_256 };

    ghost sized = { length-sha512_256 };

    fn digest(bytes: &[u8]) -> [u8; 32] {
        <Sha512_256 as sha2::Digest>::digest(bytes)
    }
}
