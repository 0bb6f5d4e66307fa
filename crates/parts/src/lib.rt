// The two parts of the clause list, each into a lent buffer.
#![tactic(auto)]

ghost use Rattle.std.specs.Prelude.{◌≡◌, ◌+◌, ◌^◌, ◌≤◌, ◌<◌, length};
ghost use Rattle.lists.specs.Stores.{Wrote};
ghost use Rattle.table.specs.Table.{In};
ghost use Rattle.table.specs.Words.{box_count, table_of, Accepted};
ghost use Rattle.table.specs.Answers.{Counted};
ghost use Rattle.clause.specs.Clause.{entries_of, entries};
ghost use Rattle.clause.specs.Ends.{one, two};
ghost use Rattle.clause.specs.Hard.{box_clauses};
ghost use Rattle.clause.specs.List.{hard_part, soft_part};
ghost use Rattle.clause.specs.Lengths.{scratch_length};
ghost use Rattle.parts.specs.Parts.{scratch_through};

use clause::{Hard, Side};
use table::Counts;

// The hard clauses of box `b`, for a caller that goes part by part.
pub fn put_box(words: &[u32], n: u32, part: Hard, b: u32, out: &mut [i32], at: usize) -> usize
    requires { Accepted words.now
        × (n ≡ box_count words.now)
        × In 1 (box_count words.now) b
        × (at + length (entries_of (box_clauses part (table_of words.now) b)) < 2 ^ 64) }
    ensures { Wrote out.old at (entries_of (box_clauses part (table_of words.now) b)) result out.new }
{
    let values = numbers::value_base(words, b);
    let steps = numbers::step_base(words, n, b);
    let m = table::size(words, b);
    hard::put_box(part, values, steps, m, out, at)
}

// The hard part, box by box.
#[tactic(auto, using(crate::proofs::Writing::hards_room, crate::proofs::Writing::hards_none))]
pub fn put_hard(words: &[u32], n: u32, part: Hard, out: &mut [i32], from: usize) -> usize
    requires { Accepted words.now × (n ≡ box_count words.now) × (from + length (entries_of (hard_part part (table_of words.now))) < 2 ^ 64) }
    ensures { Wrote out.old from (entries_of (hard_part part (table_of words.now))) result out.new }
{
    let mut at = from;
    for b in 1..=n {
        at = put_box(words, n, part, b, out, at);
    }
    at
}

// The soft part, pair by pair. Only the sides that choose use the scratch slices.
#[tactic(auto, using(crate::proofs::Writing::head_inside, crate::proofs::Writing::boxes_few, table::proofs::Words::ahead_turn, numbers::proofs::Counted::bases_few))]
pub fn put_soft(
    words: &[u32],
    counts: Counts,
    part: Hard,
    side: Side,
    first: &mut [i32],
    second: &mut [i32],
    out: &mut [i32],
    from: usize,
) -> usize
    requires { Counted words.now counts
        × (scratch_length side one (table_of words.now) ≤ length first.old)
        × (scratch_length side two (table_of words.now) ≤ length second.old)
        × (from + length (entries (soft_part part side (table_of words.now))) < 2 ^ 64) }
    ensures { Wrote out.old from (entries (soft_part part side (table_of words.now))) result out.new
        × (first.new
        ≡ scratch_through side one (table_of words.now) (table_of words.now).pairs first.old)
        × (second.new
        ≡ scratch_through side two (table_of words.now) (table_of words.now).pairs second.old) }
{
    let p = counts.pairs;
    let n = lists::word(words, 0);
    let mut switch = numbers::switch_base(words, n, part);
    let mut cursor = from;
    let mut at = counts.boxes + 2;
    for _ in 0..p {
        switch += 1;
        cursor = soft::put_pair(words, side, switch, at, first, second, out, cursor);
        at = totals::next_pair(words, at);
    }
    cursor
}
