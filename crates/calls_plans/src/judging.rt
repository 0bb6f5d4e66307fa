// The entry points that are lent no buffer.
use calls_case::answer::Answer;
use calls_case::{answer, head};
use std::io::Write;

fn check(words: &[u32]) -> Answer {
    match table_check::check(words) {
        Err(f) => answer::refused(f),
        Ok(c) => answer::success(c.boxes as u64, c.pairs as u64, 0, 0, 0),
    }
}

fn cost(words: &[u32], of: &[u32]) -> Answer {
    match plan::cost(words, of) {
        Err(f) => answer::refused(f),
        Ok(sum) => answer::success(sum, 0, 0, 0, 0),
    }
}

fn exact_lengths(words: &[u32], hard: u32, side: u32) -> Answer {
    match measure::exact_lengths(words, hard, side) {
        Err(f) => answer::refused(f),
        Ok(l) => answer::success(
            l.variables as u64,
            l.clauses as u64,
            l.literals as u64,
            l.entries as u64,
            l.top,
        ),
    }
}

fn scratch_lengths(words: &[u32], hard: u32, side: u32) -> Answer {
    match measure::scratch_lengths(words, hard, side) {
        Err(f) => answer::refused(f),
        Ok(s) => answer::success(s.first as u64, s.second as u64, 0, 0, 0),
    }
}

// Entry points 1 to 4.
fn call(case: &[u32], words: &[u32], of: &[u32]) -> Answer {
    let hard = head::number(case, head::HARD);
    let side = head::number(case, head::SIDE);
    match head::number(case, head::ENTRY) {
        1 => check(words),
        2 => cost(words, of),
        3 => exact_lengths(words, hard, side),
        4 => scratch_lengths(words, hard, side),
        _ => answer::not_called(),
    }
}

pub fn show(to: &mut impl Write, case: &[u32], words: &[u32], of: &[u32]) {
    answer::say(to, call(case, words, of));
}
