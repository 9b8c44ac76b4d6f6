// Checksum functions.
ghost use Rattle.std.specs.Prelude.{◌≡◌, ◌<◌, ◌≤◌, ◌^◌, ◌%◌, ℕ, List, length, take, sum};

/// A checksum of bytes. It only has to be one function of the bytes.
pub trait Sum {
    /// The function.
    ghost sum_of: { List ℕ → ℕ };

    /// The checksum of these bytes.
    fn sum(bytes: &[u8]) -> u32
        ensures { result ≡ sum_of bytes.now };

    /// The checksum of these bytes, given that of the first `known` of them. A checksum that can go
    /// on from there overrides this call, and reads only the bytes after them.
    fn sum_from(bytes: &[u8], known: usize, sum: u32) -> u32
        requires within { known ≤ length bytes.now }
        requires sum { sum ≡ sum_of (take known bytes.now) }
        ensures { result ≡ sum_of bytes.now }
    {
        Self::sum(bytes)
    }

    /// A checksum fits 32 bits.
    ghost small: { (bytes : List ℕ) → sum_of bytes < 2 ^ 32 };
}

/// The sum of the bytes, modulo 2 to the power of 32.
pub struct AddSum;

impl Sum for AddSum {
    ghost use Rattle.page.specs.Sums.{add_sum, small_add_sum};

    ghost sum_of = { add_sum };

    ghost small = { small_add_sum };

    fn sum(bytes: &[u8]) -> u32 {
        let mut total = 0u32;
        for byte in bytes {
            total = total.wrapping_add(u32::from(*byte));
        }
        total
    }
}

/// Always 0: the weakest checksum that there is.
pub struct ConstSum;

impl Sum for ConstSum {
    ghost use Rattle.page.specs.Sums.{const_sum, small_const_sum};

    ghost sum_of = { const_sum };

    ghost small = { small_const_sum };

    fn sum(_bytes: &[u8]) -> u32 {
        0
    }
}
