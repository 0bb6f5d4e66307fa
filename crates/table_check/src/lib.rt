// The check of a table: its words are read left to right, to the first fault or to their end.
#![tactic(auto)]

ghost use Rattle.std.specs.Prelude.{◌≡◌, ◌+◌, ◌^◌, ◌≤◌, ◌<◌, length, get_or};
ghost use Rattle.std.proofs.Math.Option.{none};
ghost use Rattle.table.specs.Words.{
  box_count,
  pair_next,
  pairs_end,
  range_fault,
  mask_fault,
  sizes_fault,
  masks_fault,
  partners_fault,
  rows_fault,
  pair_fault,
  pairs_fault,
  judged,
  BoxStands,
};
ghost use Rattle.table.specs.Answers.{checked_of};
ghost use Rattle.refusal.specs.Refusals.{result_of};
ghost use Rattle.table_check.specs.Reading.{body_of};
ghost use Rattle.table_check.specs.Highest.{AtMost};

use refusal::Refusal;
use table::Counts;

// The word at `at`, if it is there and lies in low..=high.
#[tactic(auto, unfolding(table::specs::Words::range_fault))]
fn ranged(words: &[u32], at: usize, low: u32, high: u32, out: Refusal) -> Result<u32, Refusal>
    ensures { result ≡ result_of (range_fault words.now at low high out) (get_or words.now at 0) }
{
    if words.len() <= at {
        return Err(Refusal::Missing(at));
    }
    let x = words[at];
    if x < low {
        return Err(out);
    }
    if high < x {
        return Err(out);
    }
    Ok(x)
}

// The mask at `at`, if it is there and has no bit past `m` values.
#[tactic(auto, unfolding(table::specs::Words::mask_fault))]
fn narrow(words: &[u32], m: u32, at: usize) -> Result<u32, Refusal>
    requires { m < 32 }
    ensures { result ≡ result_of (mask_fault words.now m at) (get_or words.now at 0) }
{
    if words.len() <= at {
        return Err(Refusal::Missing(at));
    }
    let x = words[at];
    let past = x >> m;
    if past == 0 {
        return Ok(x);
    }
    Err(Refusal::Mask(at))
}

// The `n` domain sizes, which begin at word 2: where they end.
#[tactic(auto, using(crate::proofs::Reading::turns))]
fn sizes(words: &[u32], n: usize) -> Result<usize, Refusal>
    requires { n ≤ 64 }
    ensures { result ≡ result_of (sizes_fault words.now n 2) (n + 2) }
{
    for at in 2..n + 2 {
        ranged(words, at, 1, 16, Refusal::Domain(at))?;
    }
    Ok(n + 2)
}

// The largest of the words from `from` up to `to`, and 0 if there are none.
#[tactic(auto, using(crate::proofs::Highest::most_none, crate::proofs::Highest::most_turn, crate::proofs::Highest::most_all))]
fn largest(words: &[u32], from: usize, to: usize) -> u32
    requires { (from ≤ to) × (to ≤ length words.now) }
    ensures { AtMost words.now from to result }
{
    let mut most = 0;
    for at in from..to {
        most = words[at].max(most);
    }
    most
}

// The `count` masks that begin at word `from`, each of at most `m` values: where they end. The largest says at once that all of them are; which one
// is not, or is not there, is looked for one by one. Most of a table is masks.
#[tactic(auto, using(crate::proofs::Reading::turns, crate::proofs::Highest::masks_narrow))]
fn masks(words: &[u32], m: u32, count: usize, from: usize) -> Result<usize, Refusal>
    requires { (m < 32) × (from + count < 2 ^ 64) }
    ensures { result ≡ result_of (masks_fault words.now m count from) (from + count) }
{
    let end = from + count;
    if end <= words.len() {
        let past = largest(words, from, end) >> m;
        if past == 0 {
            return Ok(end);
        }
    }
    for at in from..end {
        narrow(words, m, at)?;
    }
    Ok(end)
}

// The two boxes of the pair at word `at`: where its weight stands.
#[tactic(auto, using(crate::proofs::Reading::faultless), unfolding(table::specs::Words::partners_fault))]
fn partners(words: &[u32], n: u32, at: usize) -> Result<usize, Refusal>
    ensures { result ≡ result_of (partners_fault words.now n at) (at + 2) }
{
    let first = ranged(words, at, 1, n, Refusal::Partner(at))?;
    let after = at + 1;
    let second = ranged(words, after, 1, n, Refusal::Partner(after))?;
    if second == first {
        return Err(Refusal::Partner(after));
    }
    Ok(at + 2)
}

// The masks of the pair at word `at`, whose boxes and weight stand: where the next pair begins.
fn rows(words: &[u32], at: usize) -> Result<usize, Refusal>
    requires { (at + 2 < length words.now) × BoxStands words.now (get_or words.now at 0) × BoxStands words.now (get_or words.now (at + 1) 0) }
    ensures { result ≡ result_of (rows_fault words.now at) (pair_next words.now at) }
{
    let first = lists::word(words, at);
    let second = lists::word(words, at + 1);
    let count = lists::wide(table::size(words, first));
    masks(words, table::size(words, second), count, at + 3)
}

// The pair at word `at`: where the next one begins.
#[tactic(auto, using(crate::proofs::Reading::faultless), unfolding(table::specs::Words::pair_fault))]
fn pair(words: &[u32], n: u32, at: usize) -> Result<usize, Refusal>
    requires { (n ≡ box_count words.now) × (sizes_fault words.now (box_count words.now) 2 ≡ none) }
    ensures { result ≡ result_of (pair_fault words.now n at) (pair_next words.now at) }
{
    let weight = partners(words, n, at)?;
    ranged(words, weight, 1, 1000000, Refusal::Weight(weight))?;
    rows(words, at)
}

// The `p` pairs that begin at word `from`: where they end.
#[tactic(auto, using(crate::proofs::Reading::turns))]
fn pairs(words: &[u32], n: u32, p: u32, from: usize) -> Result<usize, Refusal>
    requires { (n ≡ box_count words.now) × (sizes_fault words.now (box_count words.now) 2 ≡ none) }
    ensures { result ≡ result_of (pairs_fault words.now n p from) (pairs_end words.now p from) }
{
    let mut at = from;
    for _ in 0..p {
        at = pair(words, n, at)?;
    }
    Ok(at)
}

// What follows the two counts.
#[tactic(auto, unfolding(table::specs::Words::body_fault))]
fn body(words: &[u32], n: u32, p: u32) -> Result<Counts, Refusal>
    requires { (n ≡ box_count words.now) × (1 ≤ n) × (n ≤ 64) }
    ensures { result ≡ body_of words.now n p }
{
    let boxes = lists::wide(n);
    let from = sizes(words, boxes)?;
    let end = pairs(words, n, p, from)?;
    if end < words.len() {
        return Err(Refusal::Extra(end));
    }
    Ok(Counts {
        boxes,
        pairs: lists::wide(p),
    })
}

// The table's counts, or the first fault that reading its words left to right meets.
#[tactic(auto, using(crate::proofs::Reading::whole))]
pub fn check(words: &[u32]) -> Result<Counts, Refusal>
    ensures { result ≡ checked_of (judged words.now) }
{
    let n = ranged(words, 0, 1, 64, Refusal::Count(0))?;
    let p = ranged(words, 1, 0, 256, Refusal::Count(1))?;
    body(words, n, p)
}
