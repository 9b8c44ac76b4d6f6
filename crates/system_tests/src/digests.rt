// The digests as they were built, beside published and computed ones.
use digest::{Digest, PolyDigest, ShaDigest};
use std::test::Fail;

// The halves of a digest, each as a number whose first byte is the highest.
fn halves(digest: [u8; 32]) -> (u128, u128) {
    let mut first = [0; 16];
    let mut last = [0; 16];
    first.copy_from_slice(&digest[..16]);
    last.copy_from_slice(&digest[16..]);
    (u128::from_be_bytes(first), u128::from_be_bytes(last))
}

// The examples that NIST published with FIPS 180-4, and the digest of no bytes.
#[test]
fn sha_digests_are_the_published_ones(rt: HostRuntime) -> Result<(), Fail> {
    for (bytes, first, last) in [
        (
            b"".as_slice(),
            0xC672B8D1EF56ED28AB87C3622C511406,
            0x9BDD3AD7B8F9737498D0C01ECEF0967A,
        ),
        (
            b"abc".as_slice(),
            0x53048E2681941EF99B2E29B76B4C7DAB,
            0xE4C2D0C634FC6D46E0E2F13107E7AF23,
        ),
    ] {
        assert_eq!(rt; halves(ShaDigest::digest(bytes)), (first, last));
    }
    Ok(())
}

// The program of docs/DIGEST.md computed these. A word has 7 bytes, and a block 224.
#[test]
fn polynomial_digests_are_the_computed_ones(rt: HostRuntime) -> Result<(), Fail> {
    let mut message = [0; 4085];
    for i in 0..4085 {
        message[i] = (i * i % 251) as u8;
    }
    for (len, digest) in [
        (0, 0x00000000000000000000000000000000),
        (1, 0xD408A385886A3F046F2AED8A6251E117),
        (6, 0xF835D62A43987C199EFF924A5F01480F),
        (7, 0xCC3E79B0CB02E01D0E2A80D5C1524D07),
        (8, 0x5A724EDFC82AC213FABBC4B36E528713),
        (223, 0x0DAC25E0418EBA1227BD1CA139B4D101),
        (224, 0x6AC363F85B06C80E7538E4107A59780F),
        (225, 0xB0FE56767CC2DC1DB82AF7E54A6E721D),
        (448, 0x5112CB915500A409BECE7DA14305980D),
        (4083, 0x450E363A36E8D518A0058F2A5B60AF16),
        (4084, 0x4718811F2FB6DD10DE83A1CE970D5811),
        (4085, 0x4922EE6D2884E5081C02D6DBD4BA000C),
    ] {
        let bytes = &message[..len.min(4085)];
        assert_eq!(rt; halves(PolyDigest::digest(bytes)), (digest, 0), "at {len}");
    }
    Ok(())
}
