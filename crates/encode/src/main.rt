// encode: one sheet on standard input, its WCNF text on standard output, part by part. A refusal prints one line and nothing else.
#![tactic(auto)]

ghost use Rattle.std.specs.Prelude.{◌≡◌, ◌^◌, ◌≤◌, ◌<◌, length, IfSome};
ghost use Rattle.table.specs.Table.{In};
ghost use Rattle.table.specs.Words.{box_count, Accepted, PairStands};
ghost use Rattle.table.specs.Answers.{Counted};

use clause::{Encoding, Hard, Side};
use refusal::Refusal;
use std::io::{Read, Write};
use table::Checked;

// Text is gathered until 65536 bytes are full. No part is longer than that, so a buffer of twice as many holds what stands there and the
// next part. None says that a write failed: then no more is put and no more is written.
fn drained(to: &mut impl Write, text: &[u8], at: usize) -> Option<usize>
    ensures { IfSome result (λ end. end ≤ 65536) }
{
    if at < 65536 {
        return Some(at);
    }
    if prints::send(to, text, at) {
        return Some(0);
    }
    None
}

fn print_box(
    to: &mut impl Write,
    words: &[u32],
    n: u32,
    part: Hard,
    b: u32,
    top: u64,
    clauses: &mut [i32],
    text: &mut [u8],
    at: usize,
) -> Option<usize>
    requires { Accepted words.now
        × (n ≡ box_count words.now)
        × In 1 (box_count words.now) b
        × (1024 ≤ length clauses.old)
        × (at ≤ 65536) }
    ensures { IfSome result (λ end. end ≤ 65536) }
{
    let end = wcnf_parts::put_box(words, n, part, b, top, clauses, text, at);
    drained(to, text, end)
}

fn print_boxes(
    to: &mut impl Write,
    words: &[u32],
    n: u32,
    part: Hard,
    top: u64,
    clauses: &mut [i32],
    text: &mut [u8],
    from: usize,
) -> Option<usize>
    requires { Accepted words.now × (n ≡ box_count words.now) × (1024 ≤ length clauses.old) × (from ≤ 65536) }
    ensures { IfSome result (λ end. end ≤ 65536) }
{
    let mut at = from;
    for b in 1..=n {
        at = print_box(to, words, n, part, b, top, clauses, text, at)?;
    }
    Some(at)
}

fn print_pair(
    to: &mut impl Write,
    words: &[u32],
    side: Side,
    switch: u32,
    pair: usize,
    first: &mut [i32],
    second: &mut [i32],
    clauses: &mut [i32],
    text: &mut [u8],
    at: usize,
) -> Option<usize>
    requires { Accepted words.now × PairStands words.now pair
        × (1 ≤ switch) × (switch < 2 ^ 31)
        × (1024 ≤ length first.old)
        × (1024 ≤ length second.old)
        × (1024 ≤ length clauses.old)
        × (at ≤ 65536) }
    ensures { IfSome result (λ end. end ≤ 65536) }
{
    let end = wcnf_parts::put_pair(words, side, switch, pair, first, second, clauses, text, at);
    drained(to, text, end)
}

fn print_pairs(
    to: &mut impl Write,
    table: Checked,
    part: Hard,
    side: Side,
    first: &mut [i32],
    second: &mut [i32],
    clauses: &mut [i32],
    text: &mut [u8],
    from: usize,
) -> Option<usize>
    requires { (1024 ≤ length first.old)
        × (1024 ≤ length second.old)
        × (1024 ≤ length clauses.old)
        × (from ≤ 65536) }
    ensures { IfSome result (λ end. end ≤ 65536) }
{
    let words = table.words;
    let p = table.counts.pairs;
    let n = lists::word(words, 0);
    let mut switch = numbers::switch_base(words, n, part);
    let mut end = from;
    let mut at = table.counts.boxes + 2;
    for _ in 0..p {
        switch += 1;
        end = print_pair(
            to, words, side, switch, at, first, second, clauses, text, end,
        )?;
        at = totals::next_pair(words, at);
    }
    Some(end)
}

// The header, the boxes and the pairs of a checked table. None says that a write failed.
fn print_all(to: &mut impl Write, table: Checked, e: Encoding) -> Option<()> {
    let words = table.words;
    let part = e.hard;
    let side = e.side;
    let needed = measure::measure(words, table.counts, e);
    let top = needed.top;
    let n = lists::word(words, 0);
    let mut first = [0i32; 1024];
    let mut second = [0i32; 1024];
    let mut clauses = [0i32; 1024];
    let mut text = [0u8; 131072];
    let head = wcnf_header::put_header(
        &mut text,
        0,
        needed.variables as u64,
        needed.clauses as u64,
        top,
    );
    let boxes = print_boxes(to, words, n, part, top, &mut clauses, &mut text, head)?;
    let end = print_pairs(
        to,
        table,
        part,
        side,
        &mut first,
        &mut second,
        &mut clauses,
        &mut text,
        boxes,
    )?;
    prints::send(to, &text, end);
    Some(())
}

// A table has at most 2 words, 64 sizes and 256 pairs of 19 words.
fn judge(to: &mut impl Write, sheet: &[u8]) -> Result<(), Refusal> {
    let mut table = [0u32; 4930];
    let read = sheet_in::read_sheet(sheet, &mut table)?;
    let words = &table[..read.words];
    let (e, counts) = asked::ask(words, read.hard, read.side)?;
    print_all(to, Checked { words, counts }, e);
    Ok(())
}

// One byte more than an input may have tells a longer one.
fn answer(input: &mut impl Read, to: &mut impl Write) -> Result<(), Refusal> {
    let mut text = [0u8; 65537];
    let n = prints::read_input(input, &mut text)?;
    judge(to, &text[..n])
}

// stays beside the other program's, which has the same lines: a function that took `judge` from its caller could promise nothing of what is written
fn main(rt: HostRuntime) {
    let mut to = rt.stdout();
    if let Err(f) = answer(&mut rt.stdin(), &mut to) {
        prints::refuse(&mut to, f);
    }
}
