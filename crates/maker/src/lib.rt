// The list maker: the list of 0 and 1 that a plan is, in any of the ten encodings.
#![tactic(auto)]

ghost use Rattle.std.specs.Prelude.{◌≡◌, ◌^◌, ◌≤◌, ◌<◌, length, Ok};
ghost use Rattle.lists.specs.Stores.{Wrote};
ghost use Rattle.table.specs.Words.{table_of, judged, Accepted};
ghost use Rattle.table.specs.Answers.{Counted};
ghost use Rattle.plan.specs.Plan.{IsPlan};
ghost use Rattle.clause.specs.Encodings.{picked_of};
ghost use Rattle.decoder.specs.Lists.{step_bits, made};
ghost use Rattle.decoder.specs.Answers.{made_of, list_after};
ghost use Rattle.maker.specs.Rows.{first_in, due_in, row_of, rows_of};

use clause::{Encoding, Hard, Side};
use refusal::Refusal;
use table::Checked;

// Which variables of a box a row is for.
#[derive(Clone, Copy)]
enum Part {
    Values,
    Thresholds,
}

// Whether value or threshold `j` of a box that holds `a` is 1.
fn due(part: Part, j: u32, a: u32) -> bool
    ensures { result ≡ due_in part j a }
{
    match part {
        Part::Values => j == a,
        Part::Thresholds => j <= a,
    }
}

// The values of a box start at 1, its thresholds at 2.
fn first(part: Part) -> u32
    ensures { result ≡ first_in part }
{
    match part {
        Part::Values => 1,
        Part::Thresholds => 2,
    }
}

// The row of a box of `m` values that holds `a`.
#[tactic(auto, using(lists::proofs::Stores::owes_all, lists::proofs::Stores::owes_part, lists::proofs::Stores::owes_none, crate::proofs::Rows::row_all, crate::proofs::Rows::row_turn, crate::proofs::Rows::row_end, crate::proofs::Rows::first_low))]
fn put_row(list: &mut [u8], from: usize, part: Part, m: u32, a: u32) -> usize
    requires { (from < 2 ^ 32) × (m ≤ 16) }
    ensures { Wrote list.old from (row_of part m a) result list.new }
{
    let mut at = from;
    for j in first(part)..=m {
        at = stores::put(list, at, u8::from(due(part, j, a)));
    }
    at
}

// The rows of all boxes.
#[tactic(auto, using(lists::proofs::Stores::owes_all, lists::proofs::Stores::owes_none, crate::proofs::Rows::rows_all, crate::proofs::Rows::rows_end, crate::proofs::Long::rows_few, crate::proofs::Long::boxes_few, crate::proofs::Long::size_few, list_judge::proofs::Judged::counts_stand, table::proofs::Tables::table_boxes, table::proofs::Tables::table_size, table::proofs::Tables::accepted_box))]
fn put_rows(words: &[u32], plan: &[u32], list: &mut [u8], from: usize, part: Part) -> usize
    requires { Accepted words.now × IsPlan (table_of words.now) plan.now × (from ≤ 2048) }
    ensures { Wrote list.old from (rows_of part (table_of words.now) plan.now) result list.new }
{
    let n = lists::word(words, 0);
    let mut at = from;
    for b in 1..n + 1 {
        let m = table::size(words, b);
        let a = lists::word(plan, lists::wide(b) - 1);
        at = put_row(list, at, part, m, a);
    }
    at
}

// Only the regular part has thresholds.
#[tactic(auto, using(lists::proofs::Stores::wrote_none), unfolding(decoder::specs::Lists::step_bits))]
fn put_thresholds(words: &[u32], hard: Hard, plan: &[u32], list: &mut [u8], from: usize) -> usize
    requires { Accepted words.now × IsPlan (table_of words.now) plan.now × (from ≤ 2048) }
    ensures { Wrote list.old from (step_bits hard (table_of words.now) plan.now) result list.new }
{
    match hard {
        Hard::Standard => from,
        Hard::Regular => put_rows(words, plan, list, from, Part::Thresholds),
    }
}

// The list of a plan: values, thresholds, and every c_k 0.
#[tactic(auto, using(crate::proofs::Long::values_long, crate::proofs::Long::steps_long, list_judge::proofs::Judged::variables_small, list_judge::proofs::Judged::counts_stand, numbers::proofs::Counted::values_small))]
fn put_list(words: &[u32], hard: Hard, side: Side, plan: &[u32], list: &mut [u8]) -> usize
    requires { Accepted words.now × IsPlan (table_of words.now) plan.now }
    ensures { Wrote list.old 0 (made hard side (table_of words.now) plan.now) result list.new }
{
    let p = lists::word(words, 1);
    let count = numbers::switch_count(words, p, side);
    let switches = lists::wide(count);
    let thresholds = put_rows(words, plan, list, 0, Part::Values);
    let end = put_thresholds(words, hard, plan, list, thresholds);
    fills::put_run(list, end, 0, switches)
}

// The answer over an accepted table.
#[tactic(auto, using(refusal::proofs::Results::judged_fine, refusal::proofs::Results::judged_wrong, crate::proofs::Long::made_long, plan::proofs::Plans::fine_plan), unfolding(decoder::specs::Answers::make_fault))]
fn answer(table: Checked, e: Encoding, plan: &[u32], list: &mut [u8]) -> Result<usize, Refusal>
    ensures { (result ≡ made_of (Ok e) (judged table.entry.words.now) plan.now (length list.old))
        × (list.new ≡ list_after (Ok e) (judged table.entry.words.now) plan.now list.old) }
{
    let words = table.words;
    let hard = e.hard;
    let side = e.side;
    plan::judge(words, table.counts.boxes, plan)?;
    let needed = list_judge::variables(words, hard, side);
    if list.len() < needed {
        return Err(Refusal::Room(needed));
    }
    Ok(put_list(words, hard, side, plan, list))
}

// The list of a plan and its length: 8, then 1 to 7 for the table, 10 and 11 for the plan, and 9 for the lent list. A refusal writes nothing.
#[tactic(auto, using(asked::proofs::Answers::asked_ready, asked::proofs::Answers::asked_refused))]
pub fn make_list(
    words: &[u32],
    hard: u32,
    side: u32,
    plan: &[u32],
    list: &mut [u8],
) -> Result<usize, Refusal>
    ensures { (result ≡ made_of (picked_of hard side) (judged words.now) plan.now (length list.old))
        × (list.new ≡ list_after (picked_of hard side) (judged words.now) plan.now list.old) }
{
    let (e, counts) = asked::ask(words, hard, side)?;
    answer(Checked { words, counts }, e, plan, list)
}
