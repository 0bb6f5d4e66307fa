// The entry points that are lent room for a list or for a sheet: the list maker, and the writer of a sheet.
use calls_case::answer::Answer;
use calls_case::{answer, head, lent};
use std::io::Write;

fn make_list(words: &[u32], hard: u32, side: u32, plan: &[u32], list: &mut [u8]) -> Answer {
    match maker::make_list(words, hard, side, plan, list) {
        Err(f) => answer::refused(f),
        Ok(n) => answer::success(n as u64, 0, 0, 0, 0),
    }
}

fn write_sheet(words: &[u32], hard: u32, side: u32, text: &mut [u8]) -> Answer {
    match sheet_out::write_sheet(words, hard, side, text) {
        Err(f) => answer::refused(f),
        Ok(n) => answer::success(n as u64, 0, 0, 0, 0),
    }
}

// Entry points 6 and 8.
fn call(case: &[u32], words: &[u32], plan: &[u32], out: &mut [u8]) -> Answer {
    let hard = head::number(case, head::HARD);
    let side = head::number(case, head::SIDE);
    if head::number(case, head::ENTRY) == 6 {
        return make_list(words, hard, side, plan, out);
    }
    write_sheet(words, hard, side, out)
}

// Lent as much of the buffer as the case says.
fn call_lent(case: &[u32], words: &[u32], plan: &[u32], out: &mut [u8]) -> Answer {
    let n = head::cut(case, head::TEXT, out.len());
    call(case, words, plan, &mut out[..n])
}

fn show_in(to: &mut impl Write, case: &[u32], words: &[u32], plan: &[u32], out: &mut [u8]) {
    lent::fill(case, head::TEXT, out);
    answer::say(to, call_lent(case, words, plan, out));
    prints::send(to, out, head::shown(case, head::TEXT));
}

pub fn show(to: &mut impl Write, case: &[u32], words: &[u32], plan: &[u32]) {
    let mut out = [0u8; 131072];
    show_in(to, case, words, plan, &mut out);
}
