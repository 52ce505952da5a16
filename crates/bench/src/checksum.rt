//! A number for many bytes.

const MODULUS: u64 = 4_294_967_291;

/// The bytes as digits to base 257, modulo a prime.
pub(crate) fn checksum(bytes: &[u8]) -> u64 {
    let mut sum: u64 = 0;
    for byte in bytes {
        sum = (sum * 257 + *byte as u64) % MODULUS;
    }
    sum
}
