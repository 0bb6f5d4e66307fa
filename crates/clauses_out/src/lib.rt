// The clause list of a table with its weights, into buffers that were judged to hold them.
#![tactic(auto)]

ghost use Rattle.std.specs.Prelude.{◌^◌, ◌≤◌, ◌<◌, length};
ghost use Rattle.table.specs.Words.{table_of};
ghost use Rattle.table.specs.Answers.{Counted};
ghost use Rattle.clause.specs.Ends.{one, two};
ghost use Rattle.clause.specs.Lengths.{clause_count, entry_count, scratch_length};
ghost use Rattle.clauses_out.specs.Listed.{Listed};

use clause::Encoding;
use table::Counts;

// How many literal entries and weights were written.
#[derive(Clone, Copy)]
pub struct Written {
    pub literals: usize,
    pub weights: usize,
}

// The list, its weights, and both scratch slices put in order.
#[tactic(auto, using(clause::proofs::Turns::weights_count), unfolding(clause::specs::Lengths::entry_count))]
pub fn write_all(
    words: &[u32],
    counts: Counts,
    e: Encoding,
    first: &mut [i32],
    second: &mut [i32],
    literals: &mut [i32],
    weights: &mut [u64],
) -> Written
    requires { Counted words.now counts
        × (scratch_length e.side one (table_of words.now) ≤ length first.old)
        × (scratch_length e.side two (table_of words.now) ≤ length second.old)
        × (entry_count e.hard e.side (table_of words.now) < 2 ^ 64)
        × (clause_count e.hard e.side (table_of words.now) < 2 ^ 64) }
    ensures { Listed e (table_of words.now)
        first.old second.old literals.old weights.old
        result first.new second.new literals.new weights.new }
{
    let part = e.hard;
    let side = e.side;
    let entries = whole::put_all(words, counts, part, side, first, second, literals);
    let count = whole::weigh_all(words, counts, part, side, weights);
    whole::tidy(side, first);
    whole::tidy(side, second);
    Written {
        literals: entries,
        weights: count,
    }
}
