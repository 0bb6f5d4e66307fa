// The entry points that are lent room for a plan or for a table: the decoder, and the reader of a sheet.
use calls_case::answer::Answer;
use calls_case::{answer, head, lent};
use std::io::Write;

// Entry points 5 and 7.
pub fn are_lent(entry: u32) -> bool {
    entry == 5 || entry == 7
}

// The list is the case's bytes.
fn decode(words: &[u32], hard: u32, side: u32, list: &[u8], plan: &mut [u32]) -> Answer {
    match decoder::decode(words, hard, side, list, plan) {
        Err(f) => answer::refused(f),
        Ok(sum) => answer::success(sum, 0, 0, 0, 0),
    }
}

fn read_sheet(text: &[u8], table: &mut [u32]) -> Answer {
    match sheet_in::read_sheet(text, table) {
        Err(f) => answer::refused(f),
        Ok(r) => answer::success(r.hard as u64, r.side as u64, r.words as u64, 0, 0),
    }
}

fn call(case: &[u32], words: &[u32], bytes: &[u8], out: &mut [u32]) -> Answer {
    if head::number(case, head::ENTRY) == 5 {
        let hard = head::number(case, head::HARD);
        let side = head::number(case, head::SIDE);
        return decode(words, hard, side, bytes, out);
    }
    read_sheet(bytes, out)
}

// Lent as much of the buffer as the case says.
fn call_lent(case: &[u32], words: &[u32], bytes: &[u8], out: &mut [u32]) -> Answer {
    let n = head::cut(case, head::TABLE, out.len());
    call(case, words, bytes, &mut out[..n])
}

fn show_in(
    to: &mut impl Write,
    case: &[u32],
    words: &[u32],
    bytes: &[u8],
    out: &mut [u32],
    space: &mut [u8],
) {
    lent::fill(case, head::TABLE, out);
    answer::say(to, call_lent(case, words, bytes, out));
    lent::say(to, case, head::TABLE, out, space);
}

pub fn show(to: &mut impl Write, case: &[u32], words: &[u32], bytes: &[u8]) {
    let mut out = [0u32; 5120];
    let mut space = [0u8; 20480];
    show_in(to, case, words, bytes, &mut out, &mut space);
}
