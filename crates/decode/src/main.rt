// decode: a sheet and the line of a solver's list on standard input, the plan and its cost on standard output. A refusal prints one line and
// nothing else.
#![tactic(auto)]

ghost use Rattle.std.specs.Prelude.{◌≤◌, length};

use refusal::Refusal;
use std::io::{Read, Write};

// A value line is at most 17 bytes long and the cost line 26.
fn print_plan(to: &mut impl Write, plan: &[u32], cost: u64)
    requires { length plan.now ≤ 64 }
{
    let mut text = [0u8; 1114];
    let n = answer_out::put_answer(&mut text, 0, plan, cost);
    prints::send(to, &text, n);
}

// The plan of a list for the table of these words. The decoder's answer is taken apart at once, by the form that 01 names: a refusal is handed on as it is.
fn print_decoded(
    to: &mut impl Write,
    words: &[u32],
    hard: u32,
    side: u32,
    list: &[u8],
) -> Result<(), Refusal> {
    let counts = table_check::check(words)?;
    let mut plan = [0u32; 64];
    let answer = decoder::decode(words, hard, side, list, &mut plan);
    let Ok(cost) = answer else {
        return answer.and(Ok(()));
    };
    print_plan(to, &plan[..counts.boxes], cost);
    Ok(())
}

// A table has at most 2 words, 64 sizes and 256 pairs of 19 words; a list at most 16 values and 15 thresholds a box and 256 c_k.
fn judge(to: &mut impl Write, text: &[u8]) -> Result<(), Refusal> {
    let mut table = [0u32; 4930];
    let mut list = [0u8; 2240];
    let read = list_in::read_list(text, &mut table, &mut list)?;
    let words = &table[..read.words];
    let entries = &list[..read.entries];
    print_decoded(to, words, read.hard, read.side, entries)
}

// One byte more than an input may have tells a longer one.
fn answer(input: &mut impl Read, to: &mut impl Write) -> Result<(), Refusal> {
    let mut text = [0u8; 65537];
    let n = prints::read_input(input, &mut text)?;
    judge(to, &text[..n])
}

// stays beside the other program's, which has the same lines: a function that took `judge` from its caller could promise nothing of what is written
fn main(rt: HostRuntime) {
    let mut to = rt.stdout();
    if let Err(f) = answer(&mut rt.stdin(), &mut to) {
        prints::refuse(&mut to, f);
    }
}
