// calls: runs the entry points of the library on cases from standard input. A case says which, what it is given and how long the lent buffers are;
// calls_case has its form. The buffers that the entry point is lent are filled, it is called, and its answer and these buffers are written to standard
// output, with eight entries past each: so a stray store, or one before a refusal, shows. tests/second holds it to its own answers.
#![tactic(auto)]

use calls_case::{answer, given, head};
use std::io::{Read, Write};

mod clause_text;
mod clauses;

// What calls_plans and calls_list make: the largest table has 4930 words.
fn has_plain_room(case: &[u32]) -> bool {
    head::fits(case, head::TABLE, 5120) && head::fits(case, head::TEXT, 131072)
}

fn has_scratch(case: &[u32]) -> bool {
    head::fits(case, head::FIRST, 2048) && head::fits(case, head::SECOND, 2048)
}

// Whether there is room for what the entry point is lent; clauses and their text, from 10 on, are judged where they are made.
fn has_room(case: &[u32]) -> bool {
    if head::number(case, head::ENTRY) < 10 {
        return has_plain_room(case);
    }
    has_scratch(case)
}

// Entry points 10 and 11; with another number none is called.
fn show_clauses(to: &mut impl Write, case: &[u32], words: &[u32]) {
    let entry = head::number(case, head::ENTRY);
    if entry == 10 {
        clauses::show(to, case, words);
    } else if entry == 11 {
        clause_text::show(to, case, words);
    } else {
        answer::say(to, answer::not_called());
    }
}

fn show_in_room(to: &mut impl Write, case: &[u32], words: &[u32], plan: &[u32], bytes: &[u8]) {
    let entry = head::number(case, head::ENTRY);
    if entry < 9 {
        calls_plans::show(to, case, words, plan, bytes);
    } else if entry == 9 {
        calls_list::show(to, case, bytes);
    } else {
        show_clauses(to, case, words);
    }
}

fn show(to: &mut impl Write, case: &[u32], words: &[u32], plan: &[u32], bytes: &[u8]) {
    if has_room(case) {
        show_in_room(to, case, words, plan, bytes);
    } else {
        answer::say(to, answer::not_called());
    }
}

// The call, on as many words, entries of a plan and bytes as the case has: with more than there is room for it was not read.
fn show_on_given(to: &mut impl Write, case: &[u32], words: &[u32], plan: &[u32], bytes: &[u8]) {
    let n = head::length(case, head::WORDS);
    let m = head::length(case, head::PLAN);
    let k = head::length(case, head::BYTES);
    if n <= words.len() && m <= plan.len() && k <= bytes.len() {
        show(to, case, &words[..n], &plan[..m], &bytes[..k]);
    }
}

// A case in the room lent for what it is given: false if the input ends before the case does.
fn run_in(
    input: &mut impl Read,
    to: &mut impl Write,
    case: &[u32],
    words: &mut [u32],
    plan: &mut [u32],
    bytes: &mut [u8],
    space: &mut [u8],
) -> bool {
    if given::read_inputs(input, case, words, plan, bytes, space) {
        show_on_given(to, case, words, plan, bytes);
        return true;
    }
    false
}

fn run_small(input: &mut impl Read, to: &mut impl Write, case: &[u32]) -> bool {
    let mut words = [0u32; 512];
    let mut plan = [0u32; 128];
    let mut bytes = [0u8; 2048];
    let mut space = [0u8; 2048];
    run_in(
        input, to, case, &mut words, &mut plan, &mut bytes, &mut space,
    )
}

// The largest table has 4930 words.
fn run_large(input: &mut impl Read, to: &mut impl Write, case: &[u32]) -> bool {
    let mut words = [0u32; 8192];
    let mut plan = [0u32; 1024];
    let mut bytes = [0u8; 131072];
    let mut space = [0u8; 32768];
    run_in(
        input, to, case, &mut words, &mut plan, &mut bytes, &mut space,
    )
}

// Most cases are small, and room costs time: it is zero before each.
fn run(input: &mut impl Read, to: &mut impl Write, case: &[u32]) -> bool {
    if given::is_small(case) {
        return run_small(input, to, case);
    }
    run_large(input, to, case)
}

// False if no case is left.
fn run_case(input: &mut impl Read, to: &mut impl Write) -> bool {
    let mut case = [0u32; 13];
    given::read_head(input, &mut case) && run(input, to, &case)
}

// A million cases at most.
fn main(rt: HostRuntime) {
    let mut input = rt.stdin();
    let mut to = rt.stdout();
    for _ in 0..1000000 {
        if !run_case(&mut input, &mut to) {
            break;
        }
    }
}
