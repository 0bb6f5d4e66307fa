// The clause list of a table: two scratch buffers, and room for literals and weights.
use calls_case::answer::Answer;
use calls_case::{answer, head, lent};
use std::io::Write;

fn encode(
    case: &[u32],
    words: &[u32],
    first: &mut [i32],
    second: &mut [i32],
    literals: &mut [i32],
    weights: &mut [u64],
) -> Answer {
    let hard = head::number(case, head::HARD);
    let side = head::number(case, head::SIDE);
    match encoder::encode(words, hard, side, first, second, literals, weights) {
        Err(f) => answer::refused(f),
        Ok(w) => answer::success(w.literals as u64, w.weights as u64, 0, 0, 0),
    }
}

// Entry point 10, lent as much of each buffer as the case says.
fn call(
    case: &[u32],
    words: &[u32],
    first: &mut [i32],
    second: &mut [i32],
    literals: &mut [i32],
    weights: &mut [u64],
) -> Answer {
    let a = head::cut(case, head::FIRST, first.len());
    let b = head::cut(case, head::SECOND, second.len());
    let c = head::cut(case, head::LITERALS, literals.len());
    let d = head::cut(case, head::WEIGHTS, weights.len());
    encode(
        case,
        words,
        &mut first[..a],
        &mut second[..b],
        &mut literals[..c],
        &mut weights[..d],
    )
}

fn call_filled(
    case: &[u32],
    words: &[u32],
    first: &mut [i32],
    second: &mut [i32],
    literals: &mut [i32],
    weights: &mut [u64],
) -> Answer {
    lent::fill(case, head::FIRST, first);
    lent::fill(case, head::SECOND, second);
    lent::fill(case, head::LITERALS, literals);
    lent::fill(case, head::WEIGHTS, weights);
    call(case, words, first, second, literals, weights)
}

fn say_left(
    to: &mut impl Write,
    case: &[u32],
    first: &[i32],
    second: &[i32],
    literals: &[i32],
    weights: &[u64],
    space: &mut [u8],
) {
    lent::say(to, case, head::FIRST, first, space);
    lent::say(to, case, head::SECOND, second, space);
    lent::say(to, case, head::LITERALS, literals, space);
    lent::say(to, case, head::WEIGHTS, weights, space);
}

fn show_in(
    to: &mut impl Write,
    case: &[u32],
    words: &[u32],
    literals: &mut [i32],
    weights: &mut [u64],
    space: &mut [u8],
) {
    let mut first = [0i32; 2048];
    let mut second = [0i32; 2048];
    answer::say(
        to,
        call_filled(case, words, &mut first, &mut second, literals, weights),
    );
    say_left(to, case, &first, &second, literals, weights, space);
}

fn show_small(to: &mut impl Write, case: &[u32], words: &[u32]) {
    let mut literals = [0i32; 16384];
    let mut weights = [0u64; 8192];
    let mut space = [0u8; 131072];
    show_in(to, case, words, &mut literals, &mut weights, &mut space);
}

// What the largest tables need, and more: they have 220,736 literals with their zeros and 73,280 weights.
fn show_large(to: &mut impl Write, case: &[u32], words: &[u32]) {
    let mut literals = [0i32; 262144];
    let mut weights = [0u64; 81920];
    let mut space = [0u8; 1400000];
    show_in(to, case, words, &mut literals, &mut weights, &mut space);
}

fn is_small(case: &[u32]) -> bool {
    head::fits(case, head::LITERALS, 16384) && head::fits(case, head::WEIGHTS, 8192)
}

fn is_large(case: &[u32]) -> bool {
    head::fits(case, head::LITERALS, 262144) && head::fits(case, head::WEIGHTS, 81920)
}

pub fn show(to: &mut impl Write, case: &[u32], words: &[u32]) {
    if is_small(case) {
        show_small(to, case, words);
    } else if is_large(case) {
        show_large(to, case, words);
    } else {
        answer::say(to, answer::not_called());
    }
}
