// What an entry point answered, as numbers: that of the refusal and its place, or 0 and the values of a success.
use crate::coded;
use refusal::Refusal;
use std::io::Write;

// The number, and then five values.
#[derive(Clone, Copy)]
pub struct Answer {
    said: [u64; 6],
}

pub fn success(a: u64, b: u64, c: u64, d: u64, e: u64) -> Answer {
    Answer {
        said: [0, a, b, c, d, e],
    }
}

fn of_number(number: u64, place: u64) -> Answer {
    Answer {
        said: [number, place, 0, 0, 0, 0],
    }
}

pub fn refused(f: Refusal) -> Answer {
    of_number(refusal::number(f) as u64, refusal::place(f) as u64)
}

// The mark of a case that this program has no room for, or that asks for an entry point that is not there: nothing is lent then, and nothing more written.
pub fn not_called() -> Answer {
    of_number(255, 0)
}

pub fn say(to: &mut impl Write, answer: Answer) {
    let mut out = [0u8; 48];
    let mut end = 0;
    for v in answer.said.iter() {
        end = coded::put_number(&mut out, end, *v, 8);
    }
    prints::send(to, &out, end);
}
