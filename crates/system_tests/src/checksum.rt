// The checksum as it was built, beside published checks and a sum that is computed bit by bit.
use crc32c::Crc32c;
use page::Sum;

// The check by its definition, with no table and no folding.
fn bit_by_bit(bytes: &[u8]) -> u32 {
    let mut state = u32::MAX;
    for byte in bytes {
        state ^= u32::from(*byte);
        for _ in 0..8 {
            let added = if state % 2 == 1 { 0x82F63B78 } else { 0 };
            state = (state >> 1) ^ added;
        }
    }
    !state
}

// The checksum of all bytes, computed from that of the first `known` ones.
fn in_two(bytes: &[u8], known: usize) -> u32 {
    let known = known.min(bytes.len());
    Crc32c::sum_from(bytes, known, Crc32c::sum(&bytes[..known]))
}

// The checks of the nine digits and of the vectors of RFC 3720, B.4: 32 zeros, 32 ones, a command.
fn published() -> [u32; 4] {
    let mut command = [0u8; 48];
    for (at, byte) in [
        (0, 1),
        (1, 192),
        (16, 20),
        (22, 4),
        (27, 20),
        (31, 24),
        (32, 40),
        (40, 2),
    ] {
        command[at] = byte;
    }
    [
        Crc32c::sum(b"123456789"),
        Crc32c::sum(&[0; 32]),
        Crc32c::sum(&[0xFF; 32]),
        Crc32c::sum(&command),
    ]
}

// Whether the sum is that of the definition, also where it goes on from that of the first bytes.
fn is_right(bytes: &[u8], known: &[usize]) -> bool {
    let check = bit_by_bit(bytes);
    Crc32c::sum(bytes) == check && known.iter().all(|known| in_two(bytes, *known) == check)
}

// From 64 bytes on the message goes by rows, from 640 on it is folded, and from 2,368 on the window
// moves. Answers the first length at which a sum is wrong.
fn first_wrong(message: &[u8; 5000]) -> Option<usize> {
    for len in 0..=700 {
        if !is_right(&message[..len], &[len / 3]) {
            return Some(len);
        }
    }
    for len in [
        1101, 2367, 2368, 2399, 2400, 2431, 2432, 2495, 2496, 2527, 4084, 4447, 5000,
    ] {
        let known = [0, len / 7, len - 641, len - 640, len - 639, len];
        if !is_right(&message[..len], &known) {
            return Some(len);
        }
    }
    None
}

#[test]
fn checks(rt: HostRuntime) {
    assert_eq!(rt;
        published(),
        [0xE3069283, 0x8A9136AA, 0x62A8AB43, 0xD9963A56]
    );
}

#[test]
fn checks_at_each_length(rt: HostRuntime) {
    let mut message = [0u8; 5000];
    let mut random = 1u32;
    for byte in &mut message {
        random = random.wrapping_mul(1664525).wrapping_add(1013904223);
        *byte = (random >> 24) as u8;
    }
    assert_eq!(rt; first_wrong(&message), None);
}
