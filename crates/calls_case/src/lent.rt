// The buffers that are lent: filled before a call, and written to standard output after it, from the first entry to the last that was filled.
ghost use Rattle.std.specs.Prelude.{◌<◌};

use crate::{coded, head};
use std::io::Write;

// What stands at an index before a call: another number at each.
fn pattern(seed: u32, i: usize) -> u32
    ensures { result < 2000000011 }
{
    ((seed as u64 + (i % 4194304) as u64 * 40503) % 2000000011) as u32
}

// An entry of a lent buffer: what it is at an index before a call, and how it is written from an index on, which gives the index past it.
pub trait Entry: Copy {
    fn before(seed: u32, i: usize) -> Self;

    fn put(self, out: &mut [u8], at: usize) -> usize;
}

impl Entry for u8 {
    fn before(seed: u32, i: usize) -> u8 {
        (pattern(seed, i) % 251) as u8
    }

    fn put(self, out: &mut [u8], at: usize) -> usize {
        coded::put_number(out, at, self as u64, 1)
    }
}

impl Entry for u32 {
    fn before(seed: u32, i: usize) -> u32 {
        pattern(seed, i)
    }

    fn put(self, out: &mut [u8], at: usize) -> usize {
        coded::put_number(out, at, self as u64, 4)
    }
}

impl Entry for i32 {
    fn before(seed: u32, i: usize) -> i32 {
        pattern(seed, i) as i32
    }

    fn put(self, out: &mut [u8], at: usize) -> usize {
        coded::put_number(out, at, coded::sign_and_magnitude(self), 5)
    }
}

impl Entry for u64 {
    fn before(seed: u32, i: usize) -> u64 {
        pattern(seed, i) as u64 * 1000003
    }

    fn put(self, out: &mut [u8], at: usize) -> usize {
        coded::put_number(out, at, self, 8)
    }
}

pub fn fill<E: Entry>(case: &[u32], which: usize, out: &mut [E]) {
    let seed = head::number(case, head::SEED);
    for i in 0..out.len().min(head::shown(case, which)) {
        out[i] = E::before(seed, i);
    }
}

pub fn say<E: Entry>(to: &mut impl Write, case: &[u32], which: usize, s: &[E], out: &mut [u8]) {
    let mut at = 0;
    for entry in s.iter().take(head::shown(case, which)) {
        at = entry.put(out, at);
    }
    prints::send(to, out, at);
}
