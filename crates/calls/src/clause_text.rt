// The WCNF text of a table: two scratch buffers, and room for the text.
use calls_case::answer::Answer;
use calls_case::{answer, head, lent};
use std::io::Write;

fn write_wcnf(
    case: &[u32],
    words: &[u32],
    first: &mut [i32],
    second: &mut [i32],
    text: &mut [u8],
) -> Answer {
    let hard = head::number(case, head::HARD);
    let side = head::number(case, head::SIDE);
    match wcnf_out::write_wcnf(words, hard, side, first, second, text) {
        Err(f) => answer::refused(f),
        Ok(n) => answer::success(n as u64, 0, 0, 0, 0),
    }
}

// Entry point 11, lent as much of each buffer as the case says.
fn call(
    case: &[u32],
    words: &[u32],
    first: &mut [i32],
    second: &mut [i32],
    text: &mut [u8],
) -> Answer {
    let a = head::cut(case, head::FIRST, first.len());
    let b = head::cut(case, head::SECOND, second.len());
    let c = head::cut(case, head::TEXT, text.len());
    write_wcnf(
        case,
        words,
        &mut first[..a],
        &mut second[..b],
        &mut text[..c],
    )
}

fn call_filled(
    case: &[u32],
    words: &[u32],
    first: &mut [i32],
    second: &mut [i32],
    text: &mut [u8],
) -> Answer {
    lent::fill(case, head::FIRST, first);
    lent::fill(case, head::SECOND, second);
    lent::fill(case, head::TEXT, text);
    call(case, words, first, second, text)
}

fn show_in(to: &mut impl Write, case: &[u32], words: &[u32], text: &mut [u8]) {
    let mut first = [0i32; 2048];
    let mut second = [0i32; 2048];
    let mut space = [0u8; 16384];
    answer::say(to, call_filled(case, words, &mut first, &mut second, text));
    lent::say(to, case, head::FIRST, &first, &mut space);
    lent::say(to, case, head::SECOND, &second, &mut space);
    prints::send(to, text, head::shown(case, head::TEXT));
}

fn show_small(to: &mut impl Write, case: &[u32], words: &[u32]) {
    let mut text = [0u8; 131072];
    show_in(to, case, words, &mut text);
}

fn show_large(to: &mut impl Write, case: &[u32], words: &[u32]) {
    let mut text = [0u8; 1800000];
    show_in(to, case, words, &mut text);
}

pub fn show(to: &mut impl Write, case: &[u32], words: &[u32]) {
    if head::fits(case, head::TEXT, 131072) {
        show_small(to, case, words);
    } else if head::fits(case, head::TEXT, 1800000) {
        show_large(to, case, words);
    } else {
        answer::say(to, answer::not_called());
    }
}
