//! The CRC-32 of images.

/// Returns the sum with a further byte.
fn with_byte(sum: u32, byte: u8) -> u32 {
    let mut sum = sum ^ u32::from(byte);
    for _ in 0..8 {
        let low = sum % 2;
        sum /= 2;
        if low == 1 {
            sum ^= 0xEDB8_8320;
        }
    }
    sum
}

/// Returns the CRC-32 of bytes, as zlib has it.
pub(crate) fn crc_32(bytes: &[u8]) -> u32 {
    let mut sum = u32::MAX;
    for byte in bytes {
        sum = with_byte(sum, *byte);
    }
    !sum
}
