// Memory filled with a pattern, so that a changed byte shows.
use std::alloc::{AllocError, Global};

// Byte i of the pattern.
pub fn pattern(i: usize) -> u8 {
    ((i.wrapping_mul(0x9E37_79B1) >> 16) & 0xff) as u8
}

pub fn patterned(heap: Global, size: usize) -> Result<Vec<u8>, AllocError> {
    (0..size).map(pattern).collect(heap)
}

// Whether these are bytes of the pattern, from this one on.
fn goes_on(bytes: &[u8], from: usize) -> bool {
    bytes
        .iter()
        .zip(from..)
        .all(|(byte, i)| *byte == pattern(i))
}

// Whether every byte is as `patterned` left it.
pub fn untouched(bytes: &[u8]) -> bool {
    goes_on(bytes, 0)
}

// Whether the bytes from `at` on are these, and all others as `patterned` left them.
pub fn replaced(bytes: &[u8], at: usize, by: &[u8]) -> bool {
    let Some((before, others)) = bytes.split_at_checked(at) else {
        return false;
    };
    let Some(behind) = others.strip_prefix(by) else {
        return false;
    };
    untouched(before) && goes_on(behind, at + by.len())
}

// Writes bytes from `at` on, as far as there is memory.
pub fn put(memory: &mut [u8], at: usize, bytes: &[u8]) {
    for (place, byte) in memory.iter_mut().skip(at).zip(bytes) {
        *place = *byte;
    }
}

// Writes words from `at` on, low byte first.
pub fn put_words(memory: &mut [u8], at: usize, words: &[u16]) {
    let bytes = words.iter().flat_map(|word| word.to_le_bytes());
    for (place, byte) in memory.iter_mut().skip(at).zip(bytes) {
        *place = byte;
    }
}

pub fn zero(memory: &mut [u8], at: usize, size: usize) {
    for place in memory.iter_mut().skip(at).take(size) {
        *place = 0;
    }
}
