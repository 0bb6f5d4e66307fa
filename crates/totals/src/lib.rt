// Totals over all boxes and all pairs of a table: the clauses and literals of each part of the list, and the weights.
#![tactic(auto)]

ghost use Rattle.std.specs.Prelude.{◌≡◌, ◌≤◌};
ghost use Rattle.table.specs.Words.{table_of, box_count, pair_next, Accepted, PairStands};
ghost use Rattle.table.specs.Answers.{Counted};
ghost use Rattle.clause.specs.declared.Hard.TheVariants.{Standard};
ghost use Rattle.clause.specs.Clause.{bare};
ghost use Rattle.clause.specs.List.{hard_part, soft_part};
ghost use Rattle.clause.specs.Lengths.{top};
ghost use Rattle.hard.specs.Tallies.{tally_of};

use clause::{Hard, Side};
use hard::Tally;
use table::Counts;

// 1 plus the sum of the weights of all pairs.
pub fn top_of(words: &[u32], counts: Counts) -> u64
    requires { Counted words.now counts }
    ensures { result ≡ top (table_of words.now) }
{
    let mut sum = 1;
    let mut at = counts.boxes + 2;
    for _ in 0..counts.pairs {
        let pair = reader::pair_at(words, at);
        sum += u64::from(pair.weight);
        at = pair.next;
    }
    sum
}

// What the boxes' clauses come to.
pub fn hard_tally(words: &[u32], n: u32, hard: Hard) -> Tally
    requires { Accepted words.now × (n ≡ box_count words.now) }
    ensures { (result ≡ tally_of (hard_part hard (table_of words.now))) × (result.clauses ≤ 8192) × (result.literals ≤ 25600) }
{
    let mut clauses = 0;
    let mut literals = 0;
    for b in 1..n + 1 {
        let part = hard::box_tally(hard, table::size(words, b));
        clauses += part.clauses;
        literals += part.literals;
    }
    Tally { clauses, literals }
}

// The cursor before the next pair.
pub fn next_pair(words: &[u32], at: usize) -> usize
    requires { PairStands words.now at }
    ensures { result ≡ pair_next words.now at }
{
    let pair = reader::pair_at(words, at);
    pair.next
}

// What the pairs' clauses come to, with either hard part alike.
pub fn soft_tally(words: &[u32], counts: Counts, side: Side) -> Tally
    requires { Counted words.now counts }
    ensures { (result ≡ tally_of (bare (soft_part Standard side (table_of words.now))))
        × (result.clauses ≤ 65536)
        × (result.literals ≤ 262144) }
{
    let mut clauses = 0;
    let mut literals = 0;
    let mut at = counts.boxes + 2;
    for _ in 0..counts.pairs {
        let part = pairs::pair_tally(words, side, at);
        clauses += part.clauses;
        literals += part.literals;
        at = next_pair(words, at);
    }
    Tally { clauses, literals }
}
