// The weights of the clause list, part by part, into a lent buffer.
#![tactic(auto)]

ghost use Rattle.std.specs.Prelude.{◌≡◌, ◌+◌, ◌^◌, ◌<◌, length, replicate};
ghost use Rattle.lists.specs.Stores.{Wrote};
ghost use Rattle.table.specs.Words.{box_count, pair_at, table_of, Accepted, PairStands};
ghost use Rattle.table.specs.Answers.{Counted};
ghost use Rattle.clause.specs.declared.Hard.TheVariants.{Standard};
ghost use Rattle.clause.specs.Clause.{weights};
ghost use Rattle.clause.specs.List.{hard_part, soft_part};
ghost use Rattle.weights.specs.Weights.{pair_count};

use clause::{Hard, Side};
use table::Counts;

// The weights of the hard part: 0 for each clause.
#[tactic(auto, using(crate::proofs::Weighing::hards_none, table::proofs::Tables::accepted_box))]
pub fn weigh_hard(words: &[u32], n: u32, part: Hard, out: &mut [u64], from: usize) -> usize
    requires { Accepted words.now × (n ≡ box_count words.now) × (from + length (hard_part part (table_of words.now)) < 2 ^ 64) }
    ensures { Wrote out.old from (replicate (length (hard_part part (table_of words.now))) 0) result out.new }
{
    let mut at = from;
    for b in 1..=n {
        let tally = hard::box_tally(part, table::size(words, b));
        at = fills::put_run(out, at, 0, tally.clauses);
    }
    at
}

// The weights of the clauses of the pair at the cursor.
fn weigh_pair(words: &[u32], side: Side, at: usize, out: &mut [u64], cursor: usize) -> usize
    requires { Accepted words.now × PairStands words.now at × (cursor + pair_count side words.now at < 2 ^ 64) }
    ensures { Wrote out.old cursor (replicate (pair_count side words.now at) (pair_at words.now at).weight) result out.new }
{
    let tally = pairs::pair_tally(words, side, at);
    let pair = reader::pair_at(words, at);
    fills::put_run(out, cursor, lists::wide(pair.weight) as u64, tally.clauses)
}

// The weights of the soft part, pair by pair; with either hard part alike.
#[tactic(auto, using(table::proofs::Words::ahead_turn))]
pub fn weigh_soft(words: &[u32], counts: Counts, side: Side, out: &mut [u64], from: usize) -> usize
    requires { Counted words.now counts × (from + length (weights (soft_part Standard side (table_of words.now))) < 2 ^ 64) }
    ensures { Wrote out.old from (weights (soft_part Standard side (table_of words.now))) result out.new }
{
    let p = counts.pairs;
    let mut cursor = from;
    let mut at = counts.boxes + 2;
    for _ in 0..p {
        cursor = weigh_pair(words, side, at, out, cursor);
        at = totals::next_pair(words, at);
    }
    cursor
}
