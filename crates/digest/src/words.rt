// The words of a string: seven bytes each, the lowest first. A byte after the string's end is 0.
ghost use Rattle.std.specs.Prelude.{◌≡◌, ◌+◌, ◌<◌, ◌≤◌, ◌^◌, length, drop, slice_index};
ghost use Rattle.digest.specs.Poly.{word};

// The word at an offset with at least eight bytes from there on: it reads all eight, and drops the
// last.
#[inline(always)]
#[tactic(auto, unfolding(crate::specs::Poly::word))]
pub fn word_at(bytes: &[u8], at: usize) -> u64
    requires { at + 8 ≤ length bytes.now }
    ensures word { result ≡ word (drop at bytes.now) }
    ensures small { result < 2 ^ 56 }
{
    let mut eight = [0; 8];
    eight.copy_from_slice(&bytes[at..at + 8]);
    u64::from_le_bytes(eight) % 0x0100_0000_0000_0000
}

// The byte at an offset, 0 after the end.
#[inline(always)]
fn byte_at(bytes: &[u8], at: usize) -> u8
    ensures { result ≡ slice_index bytes.now at }
{
    if at < bytes.len() { bytes[at] } else { 0 }
}

// The word at any offset of the string.
#[inline(always)]
#[tactic(auto, unfolding(crate::specs::Poly::word))]
pub fn last_word(bytes: &[u8], at: usize) -> u64
    requires { at < length bytes.now }
    ensures word { result ≡ word (drop at bytes.now) }
    ensures small { result < 2 ^ 56 }
{
    let eight = [
        byte_at(bytes, at),
        byte_at(bytes, at + 1),
        byte_at(bytes, at + 2),
        byte_at(bytes, at + 3),
        byte_at(bytes, at + 4),
        byte_at(bytes, at + 5),
        byte_at(bytes, at + 6),
        byte_at(bytes, at + 7),
    ];
    u64::from_le_bytes(eight) % 0x0100_0000_0000_0000
}
