// FNV-1a of 32 bits.

pub const START: u32 = 2166136261;

const PRIME: u32 = 16777619;

// The hash h, carried on over the bytes.
pub fn carried(h: u32, bytes: &[u8]) -> u32 {
    bytes
        .iter()
        .fold(h, |h, &byte| (h ^ u32::from(byte)).wrapping_mul(PRIME))
}
