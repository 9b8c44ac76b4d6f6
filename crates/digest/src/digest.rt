// The trait of digests.
ghost use Rattle.std.specs.Prelude.{◌≡◌, ℕ, List, length};

/// A digest of bytes. It only has to be one function of the bytes.
pub trait Digest {
    ghost NUMBER: { ℕ };

    /// The number by which files name this digest.
    const NUMBER: u8;

    /// The bytes of the digest's name.
    ghost name_of: { List ℕ };

    /// The digest's name.
    fn name() -> &'static str
        ensures { result.now ≡ name_of };

    /// The function.
    ghost digest_of: { List ℕ → List ℕ };

    /// The digest of these bytes.
    fn digest(bytes: &[u8]) -> [u8; 32]
        ensures { result ≡ digest_of bytes.now };

    /// A digest has 32 bytes.
    ghost sized: { (bytes : List ℕ) → length (digest_of bytes) ≡ 32 };
}
