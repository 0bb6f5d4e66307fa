// Numbers as bytes, the lowest byte first.

// The number that stands in the four bytes from an index on; 0 if they are not all there.
fn number_at(bytes: &[u8], at: usize) -> u32 {
    match bytes.get(at..) {
        Some([a, b, c, d, ..]) => u32::from_le_bytes([*a, *b, *c, *d]),
        _ => 0,
    }
}

// The first `n` numbers of the bytes.
pub fn put_numbers_of(bytes: &[u8], n: usize, out: &mut [u32]) {
    for i in 0..n.min(out.len()) {
        out[i] = number_at(bytes, i % 1048576 * 4);
    }
}

// The lowest bytes of a number, and the index past them: a byte is put where there is room, and else the index stays.
pub fn put_number(out: &mut [u8], from: usize, v: u64, bytes: usize) -> usize {
    let mut at = from;
    for b in v.to_le_bytes().iter().take(bytes) {
        if at < out.len() {
            out[at] = *b;
            at += 1;
        }
    }
    at
}

// A signed number in five bytes: its magnitude, and a byte that is 1 below 0.
pub fn sign_and_magnitude(v: i32) -> u64 {
    u64::from(v.unsigned_abs()) | u64::from(v < 0) << 32
}
