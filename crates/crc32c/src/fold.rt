// Folding: long division of a message by a sparse multiple of the polynomial, with no table.
//
// The eighth power of a sum of powers of x is the sum of their eighth powers, so its exponents
// count whole bytes. The division thus goes by bytes, with nothing but exclusive ors. It takes 32
// bytes at a time, since a byte of the quotient depends on none of the 32 before it.
ghost use Rattle.std.specs.Prelude.{◌≡◌, ◌+◌, ◌%◌, ◌≤◌, ◌++◌, length, take, drop, replicate};
ghost use Rattle.std.specs.Simd.Lanes.{chunk, put_chunk};
ghost use Rattle.crc32c.specs.Crc.{after_bytes};
ghost use Rattle.crc32c.specs.Division.{far, next_quotient, remaining};

use std::simd::u8x32;

// The next 32 bytes of the quotient by the far multiple. The window holds the 290 bytes of the
// quotient before them.
#[inline(always)]
fn far_quotient(bytes: &[u8], window: &[u8]) -> u8x32
    requires next { 32 ≤ length bytes.now }
    requires window { 290 ≤ length window.now }
    ensures { result ≡ next_quotient 32 far window.now (take 32 bytes.now) }
{
    u8x32::from_slice(bytes)
        ^ u8x32::from_slice(&window[136..])
        ^ u8x32::from_slice(&window[113..])
        ^ u8x32::from_slice(&window[107..])
        ^ u8x32::from_slice(&window[32..])
        ^ u8x32::from_slice(window)
}

// Writes 32 bytes from `at` on.
#[inline(always)]
fn store(lanes: u8x32, bytes: &mut [u8], at: usize)
    requires { at + 32 ≤ length bytes.old }
    ensures { bytes.new ≡ put_chunk at bytes.old lanes }
{
    lanes.copy_to_slice(&mut bytes[at..]);
}

// Writes bytes to the front.
#[inline(always)]
fn put_first(bytes: &mut [u8], first: &[u8])
    requires { length first.now ≤ length bytes.old }
    ensures { bytes.new ≡ first.now ++ drop (length first.now) bytes.old }
{
    bytes[..first.len()].copy_from_slice(first);
}

// Divides 32 bytes by the far multiple, and answers the bytes after them. The window begins at byte
// `at` of the array, and slides over the quotient.
#[inline(always)]
fn far_step<'a>(quotient: &mut [u8; 2658], at: usize, bytes: &'a [u8]) -> &'a [u8]
    requires room { at + 322 ≤ 2658 }
    requires long { 322 ≤ length bytes.now }
    ensures len { length result.now + 32 ≡ length bytes.now }
    ensures same { after_bytes 0 (remaining far (chunk (at + 32) 290 quotient.new) result.now)
        ≡ after_bytes 0 (remaining far (chunk at 290 quotient.old) bytes.now) }
{
    let lanes = far_quotient(bytes, &quotient[at..]);
    store(lanes, quotient, at + 290);
    &bytes[32..]
}

// Divides 128 bytes by the far multiple, and answers the bytes after them.
#[inline(always)]
fn four_steps<'a>(quotient: &mut [u8; 2658], at: usize, bytes: &'a [u8]) -> &'a [u8]
    requires room { at + 418 ≤ 2658 }
    requires long { 418 ≤ length bytes.now }
    ensures len { length result.now + 128 ≡ length bytes.now }
    ensures same { after_bytes 0 (remaining far (chunk (at + 128) 290 quotient.new) result.now)
        ≡ after_bytes 0 (remaining far (chunk at 290 quotient.old) bytes.now) }
{
    let rest = far_step(quotient, at, bytes);
    let rest = far_step(quotient, at + 32, rest);
    let rest = far_step(quotient, at + 64, rest);
    far_step(quotient, at + 96, rest)
}

// Makes room for four steps: near the array's end the window moves to the array's front. The answer
// is where the window begins. The last 320 bytes of the array are left for `zeros_behind`.
#[inline(always)]
fn make_room(quotient: &mut [u8; 2658], at: usize) -> usize
    requires { at ≤ 2048 }
    ensures room { result ≤ 1920 }
    ensures window { chunk result 290 quotient.new ≡ chunk at 290 quotient.old }
{
    if at <= 1920 {
        return at;
    }
    quotient.copy_within(at..at + 290, 0);
    0
}

// Puts 320 zeros after the window, since the last 320 bytes add nothing to the quotient.
#[inline(always)]
fn zeros_behind(quotient: &mut [u8; 2658], at: usize)
    requires { at ≤ 2048 }
    ensures { chunk at 610 quotient.new ≡ chunk at 290 quotient.old ++ replicate 320 0 }
{
    quotient[at + 290..at + 610].copy_from_slice(&[0; 320]);
}

// Leaves in `remainder` what is left of the message's last 320 bytes once the quotient is taken
// off.
#[inline(always)]
fn far_remainder(window: &[u8], bytes: &[u8], remainder: &mut [u8; 352])
    requires window { length window.now ≡ 610 }
    requires zeros { drop 290 window.now ≡ replicate 320 0 }
    requires bytes { length bytes.now ≡ 320 }
    ensures { take 320 remainder.new ≡ remaining far (take 290 window.now) bytes.now }
{
    let mut i = 0;
    while i < 320 {
        let lanes = far_quotient(&bytes[i..], &window[i..]);
        store(lanes, remainder, i);
        i += 32;
    }
}

/// Folds a message of whole lanes of 32 bytes to 320 bytes, the first of `remainder`: they lead
/// from the state 0 to the state that `bytes` lead to from `state`.
pub fn fold(state: u32, bytes: &[u8], remainder: &mut [u8; 352])
    requires lanes { length bytes.now % 32 ≡ 0 }
    requires long { 320 ≤ length bytes.now }
    ensures { after_bytes 0 (take 320 remainder.new) ≡ after_bytes state bytes.now }
{
    let mut quotient = [0u8; 2658];
    // The state is put as quotient bytes, 290 before the message: so it is added to the message's
    // first four bytes.
    put_first(&mut quotient, &state.to_le_bytes());
    let mut at = 0;
    let mut rest = bytes;
    while rest.len() >= 448 {
        at = make_room(&mut quotient, at);
        rest = four_steps(&mut quotient, at, rest);
        at += 128;
    }
    at = make_room(&mut quotient, at);
    while rest.len() > 320 {
        rest = far_step(&mut quotient, at, rest);
        at += 32;
    }
    zeros_behind(&mut quotient, at);
    far_remainder(&quotient[at..at + 610], rest, remainder);
}
