// A checksum function of one's own.
use page::Sum;

/// A polynomial of the bytes, as hash tables of strings have it: 31 times what came before, and the
/// byte. It detects fewer changes than CRC-32C, which is the one to take.
pub struct Poly;

impl Sum for Poly {
    ghost use Rattle.std.specs.Prelude.{◌+◌, ◌*◌, ◌%◌, ◌^◌, ℕ, fold};
    ghost use Rattle.std.proofs.Common.{lit<};
    ghost use Rattle.std.proofs.Math.Nat.{mod-lt};

    ghost sum_of = { λ bytes.
        fold (λ sum byte. (sum * 31 % 2 ^ 32 + byte) % 2 ^ 32) 7 bytes % 2 ^ 32 };

    ghost small = { λ bytes.
        mod-lt (fold (λ sum byte. (sum * 31 % 2 ^ 32 + byte) % 2 ^ 32) 7 bytes) (lit< tt) };

    fn sum(bytes: &[u8]) -> u32 {
        bytes.iter().fold(
            7u32,
            |sum, byte| sum.wrapping_mul(31).wrapping_add(u32::from(*byte)),
        )
    }
}
