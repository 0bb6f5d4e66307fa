// The cost of a plan: the sum of the weights of the pairs that it breaks.
#![tactic(auto)]

ghost use Rattle.refusal.specs.Refusals.{judged_of};
ghost use Rattle.std.specs.Prelude.{◌≡◌, ◌+◌, ◌≤◌, ◌<◌, length};
ghost use Rattle.lists.specs.Lists.{nth};
ghost use Rattle.table.specs.Table.{boxes};
ghost use Rattle.table.specs.Words.{box_count, pair_at, table_of, judged, Accepted, PairStands};
ghost use Rattle.table.specs.Answers.{Counted};
ghost use Rattle.reader.specs.Reader.{head_at_lem};
ghost use Rattle.plan.specs.Plan.{IsPlan, charge, cost, value_fault, plan_fault, costed_of};

use reader::PairHead;
use refusal::Refusal;
use table::{Checked, Counts};

// The value that the plan gives to the box at index `i` lies in that box's domain.
fn value(words: &[u32], plan: &[u32], i: usize) -> Result<(), Refusal>
    requires { Accepted words.now × (i < box_count words.now) × (i < length plan.now) }
    ensures { result ≡ judged_of (value_fault (table_of words.now) plan.now i) }
{
    let v = lists::word(plan, i);
    if v < 1 {
        return Err(Refusal::Entry(i));
    }
    let values = lists::word(words, i + 2);
    if values < v {
        return Err(Refusal::Entry(i));
    }
    Ok(())
}

// The plan gives each of the `n` boxes a value of its domain.
#[tactic(auto, using(lists::proofs::Firsts::first_found, lists::proofs::Firsts::first_next, lists::proofs::Firsts::first_end, refusal::proofs::Results::judged_fine, refusal::proofs::Results::judged_wrong, crate::proofs::Plans::plan_values, crate::proofs::Plans::plan_short))]
pub fn judge(words: &[u32], n: usize, plan: &[u32]) -> Result<(), Refusal>
    requires { Accepted words.now × (n ≡ boxes (table_of words.now)) }
    ensures { result ≡ judged_of (plan_fault (table_of words.now) plan.now) }
{
    if plan.len() != n {
        return Err(Refusal::Length(n));
    }
    for i in 0..n {
        value(words, plan, i)?;
    }
    Ok(())
}

// The value that the plan gives to a box.
fn value_of(plan: &[u32], b: u32) -> u32
    requires { (1 ≤ b) × (b ≤ length plan.now) }
    ensures { result ≡ nth plan.now b }
{
    lists::word(plan, lists::wide(b) - 1)
}

// What the pair at `at` is charged: its weight if the plan breaks it.
fn charged(words: &[u32], at: usize, pair: PairHead, plan: &[u32]) -> u64
    requires { Accepted words.now × IsPlan (table_of words.now) plan.now × PairStands words.now at × (pair ≡ head_at_lem words.now at) }
    ensures { result ≡ charge plan.now (pair_at words.now at) }
{
    let a = value_of(plan, pair.first);
    let b = value_of(plan, pair.second);
    if masks::allows(words, at, a, b) {
        return 0;
    }
    let weight = pair.weight;
    weight as u64
}

// The cost of a plan over an accepted table: the sum over the pairs, which begin after the sizes.
pub fn total(words: &[u32], counts: Counts, plan: &[u32]) -> u64
    requires { Counted words.now counts × IsPlan (table_of words.now) plan.now }
    ensures { result ≡ cost (table_of words.now) plan.now }
{
    let p = counts.pairs;
    let mut sum = 0;
    let mut at = counts.boxes + 2;
    for _ in 0..p {
        let pair = reader::pair_at(words, at);
        sum += charged(words, at, pair, plan);
        at = pair.next;
    }
    sum
}

// The answer over an accepted table.
#[tactic(auto, using(crate::proofs::Plans::fine_plan, refusal::proofs::Results::judged_fine, refusal::proofs::Results::judged_wrong))]
fn counted(table: Checked, plan: &[u32]) -> Result<u64, Refusal>
    ensures { result ≡ costed_of (judged table.entry.words.now) plan.now }
{
    let words = table.words;
    let n = table.counts.boxes;
    judge(words, n, plan)?;
    Ok(total(words, table.counts, plan))
}

// The cost of a plan: 1 to 7 for the table, then 10 and 11 for the plan.
#[tactic(auto, using(table::proofs::Answers::checked_accepted, table::proofs::Answers::checked_refused))]
pub fn cost(words: &[u32], plan: &[u32]) -> Result<u64, Refusal>
    ensures { result ≡ costed_of (judged words.now) plan.now }
{
    let counts = table_check::check(words)?;
    counted(Checked { words, counts }, plan)
}
