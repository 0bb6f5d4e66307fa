// What a case is given, from standard input: its head and then its words, its plan and its bytes. False if the input ends, or is past the room for it.
use crate::{coded, head};
use std::io::Read;

fn read_bytes(input: &mut impl Read, n: usize, out: &mut [u8]) -> bool {
    n <= out.len() && prints::read_full(input, &mut out[..n]) == n
}

// More than the largest room are not asked for, so the bytes can be counted.
fn read_numbers(input: &mut impl Read, n: usize, space: &mut [u8], out: &mut [u32]) -> bool {
    if n <= out.len() && n <= 8192 && read_bytes(input, n * 4, space) {
        coded::put_numbers_of(space, n, out);
        return true;
    }
    false
}

pub fn read_head(input: &mut impl Read, case: &mut [u32]) -> bool {
    let mut space = [0u8; 52];
    read_numbers(input, 13, &mut space, case)
}

pub fn is_small(case: &[u32]) -> bool {
    head::length(case, head::WORDS) <= 512
        && head::length(case, head::PLAN) <= 128
        && head::length(case, head::BYTES) <= 2048
}

pub fn read_inputs(
    input: &mut impl Read,
    case: &[u32],
    words: &mut [u32],
    plan: &mut [u32],
    bytes: &mut [u8],
    space: &mut [u8],
) -> bool {
    read_numbers(input, head::length(case, head::WORDS), space, words)
        && read_numbers(input, head::length(case, head::PLAN), space, plan)
        && read_bytes(input, head::length(case, head::BYTES), bytes)
}
