// The digest by a polynomial. Its value at a point is computed by blocks of 32 words: a block is
// one sum of products, of which only the total is reduced by the prime.
ghost use Rattle.std.specs.Prelude.{◌≡◌, ◌<◌, ◌≤◌, ◌+◌, ◌*◌, ◌%◌, ◌^◌, ℕ, length, drop, take};
ghost use Rattle.std.specs.Int.{div_ceil};
ghost use Rattle.digest.specs.Poly.{prime, poly_value, poly_value_of};
ghost use Rattle.digest.specs.Powers.{dot, powers};

use crate::Digest;
use crate::powers::{POWERS_A, POWERS_B};
use crate::words::{last_word, word_at};

/// A polynomial whose coefficients are words of the bytes: its values at two points modulo the
/// prime 2^61 - 1. It is for accidental damage only, and keeps no adversary out, since its points
/// are fixed.
pub struct PolyDigest;

impl Digest for PolyDigest {
    ghost use Rattle.std.specs.Prelude.{codes};
    ghost use Rattle.digest.specs.Poly.{length-poly_digest, poly_digest};

    ghost NUMBER = { 2 };

    const NUMBER: u8 = 2;

    ghost name_of = { codes "poly61" };

    fn name() -> &'static str {
        "poly61"
    }

    ghost digest_of = { poly_digest };

    ghost sized = { length-poly_digest };

    #[tactic(auto, unfolding(crate::specs::Poly::poly_digest))]
    fn digest(bytes: &[u8]) -> [u8; 32] {
        let a = value_at(bytes, &POWERS_A);
        let b = value_at(bytes, &POWERS_B);
        let mut digest = [0; 32];
        digest[..8].copy_from_slice(&a.to_le_bytes());
        digest[8..16].copy_from_slice(&b.to_le_bytes());
        digest
    }
}

const PRIME: u64 = 0x1FFF_FFFF_FFFF_FFFF;

// The remainder of any number by the prime.
#[inline(always)]
fn reduced(total: u128) -> u64
    ensures value { result ≡ total % prime }
    ensures small { result < 2 ^ 61 }
{
    let once = total % 0x2000_0000_0000_0000 + total / 0x2000_0000_0000_0000;
    let twice = (once % 0x2000_0000_0000_0000 + once / 0x2000_0000_0000_0000) as u64;
    if twice < PRIME { twice } else { twice - PRIME }
}

// The product of a value and a power.
#[inline(always)]
fn times(value: u64, power: u64) -> u128
    requires { value < 2 ^ 63 }
    ensures value { result ≡ value * power }
    ensures small { result < 2 ^ 127 }
{
    u128::from(value) * u128::from(power)
}

// The product of a word and a power.
#[inline(always)]
fn term(word: u64, power: u64) -> u128
    requires { word < 2 ^ 56 }
    ensures value { result ≡ word * power }
    ensures small { result < 2 ^ 120 }
{
    u128::from(word) * u128::from(power)
}

// Adds the products of n words with the powers from `first` on. A byte stands behind the last word,
// which its read takes in. Eight words at a time are a loop that the compiler unrolls.
#[inline(always)]
fn with_words(total: u128, bytes: &[u8], table: &[u64; 33], first: usize, n: usize) -> u128
    requires total { total < 2 ^ 127 }
    requires words { 7 * n < length bytes.now }
    requires table { first + n ≤ 33 }
    ensures value { result ≡ total + dot (take n (drop first table.now)) bytes.now }
    ensures small { result ≤ total + n * 2 ^ 120 }
{
    let mut sum = total;
    let groups = n / 8;
    for k in 0..groups {
        for i in 8 * k..8 * k + 8 {
            sum += term(word_at(bytes, 7 * i), table[first + i]);
        }
    }
    'others: for i in 8 * groups..n {
        sum += term(word_at(bytes, 7 * i), table[first + i]);
    }
    sum
}

// The value after 32 words more. A byte stands behind them.
#[inline(always)]
fn block(h: u64, bytes: &[u8], table: &[u64; 33]) -> u64
    requires h { h < 2 ^ 63 }
    requires bytes { 225 ≤ length bytes.now }
    ensures value { (x : ℕ) → table.now ≡ powers x 33 → result ≡ poly_value x h 32 bytes.now }
    ensures small { result < 2 ^ 61 }
{
    reduced(with_words(times(h, table[0]), bytes, table, 1, 32))
}

// The value after the last words, 1 to 32.
#[inline(always)]
fn ending(h: u64, bytes: &[u8], table: &[u64; 33]) -> u64
    requires h { h < 2 ^ 63 }
    requires some { 0 < length bytes.now }
    requires few { length bytes.now ≤ 224 }
    ensures { (x : ℕ) → table.now ≡ powers x 33
        → result ≡ poly_value x h (div_ceil (length bytes.now) 7) bytes.now }
{
    let n = bytes.len().div_ceil(7);
    let total = with_words(times(h, table[32 - n]), bytes, table, 33 - n, n - 1);
    reduced(total + u128::from(last_word(bytes, 7 * (n - 1))))
}

// The value of a string at the point whose powers these are.
#[inline(never)]
fn value_at(bytes: &[u8], table: &[u64; 33]) -> u64
    ensures { (x : ℕ) → table.now ≡ powers x 33 → result ≡ poly_value_of x bytes.now }
{
    let len = bytes.len();
    if len == 0 {
        return 0;
    }
    let mut h = len as u64;
    let blocks = (len - 1) / 224;
    for k in 0..blocks {
        h = block(h, &bytes[224 * k..], table);
    }
    ending(h, &bytes[224 * blocks..], table)
}
