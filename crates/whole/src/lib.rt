// The whole clause list from its two parts, into lent buffers, and the scratch put in order after it.
#![tactic(auto)]

ghost use Rattle.std.specs.Prelude.{◌≡◌, ◌^◌, ◌≤◌, ◌<◌, length};
ghost use Rattle.lists.specs.Stores.{Wrote};
ghost use Rattle.table.specs.Words.{table_of};
ghost use Rattle.table.specs.Answers.{Counted};
ghost use Rattle.clause.specs.Clause.{entries, weights};
ghost use Rattle.clause.specs.Ends.{one, two};
ghost use Rattle.clause.specs.List.{clauses};
ghost use Rattle.clause.specs.Lengths.{scratch_length};
ghost use Rattle.parts.specs.Parts.{scratch_through};
ghost use Rattle.whole.specs.Scratch.{scratch_left};

use clause::{Hard, Side};
use table::Counts;

// The literals of the whole list.
#[tactic(auto, using(parts::proofs::Writing::head_inside, crate::proofs::Whole::entries_long))]
pub fn put_all(
    words: &[u32],
    counts: Counts,
    part: Hard,
    side: Side,
    first: &mut [i32],
    second: &mut [i32],
    out: &mut [i32],
) -> usize
    requires { Counted words.now counts
        × (scratch_length side one (table_of words.now) ≤ length first.old)
        × (scratch_length side two (table_of words.now) ≤ length second.old)
        × (length (entries (clauses part side (table_of words.now))) < 2 ^ 64) }
    ensures { Wrote out.old 0 (entries (clauses part side (table_of words.now))) result out.new
        × (first.new
        ≡ scratch_through side one (table_of words.now) (table_of words.now).pairs first.old)
        × (second.new
        ≡ scratch_through side two (table_of words.now) (table_of words.now).pairs second.old) }
{
    let n = lists::word(words, 0);
    let middle = parts::put_hard(words, n, part, out, 0);
    parts::put_soft(words, counts, part, side, first, second, out, middle)
}

// The weights of the whole list.
#[tactic(auto, using(parts::proofs::Writing::head_inside, crate::proofs::Whole::weights_room))]
pub fn weigh_all(words: &[u32], counts: Counts, part: Hard, side: Side, out: &mut [u64]) -> usize
    requires { Counted words.now counts × (length (weights (clauses part side (table_of words.now))) < 2 ^ 64) }
    ensures { Wrote out.old 0 (weights (clauses part side (table_of words.now))) result out.new }
{
    let n = lists::word(words, 0);
    let middle = weights::weigh_hard(words, n, part, out, 0);
    weights::weigh_soft(words, counts, side, out, middle)
}

// A scratch slice after use: zero whole on the sides that choose, untouched on the others.
pub fn tidy(side: Side, scratch: &mut [i32])
    ensures { scratch.new ≡ scratch_left side scratch.old }
{
    match side {
        Side::Direct | Side::Support | Side::First => {}
        Side::Literals | Side::Score => fills::clear(scratch),
    }
}
