// The clauses of a pair on any side.
#![tactic(auto)]

ghost use Rattle.std.specs.Prelude.{◌≡◌, [], ◌∷◌, ◌+◌, ◌^◌, ◌≤◌, ◌<◌, length};
ghost use Rattle.lists.specs.Stores.{Wrote};
ghost use Rattle.table.specs.Words.{pair_at, table_of, Accepted, PairStands};
ghost use Rattle.clause.specs.Clause.{plus, minus, entries_of};
ghost use Rattle.clause.specs.Ends.{one, two};
ghost use Rattle.clause.specs.Soft.{soft};
ghost use Rattle.soft.specs.Scratch.{pair_scratch, scratch_with};

use clause::Side;

// The clauses of the pair at `at`, from `cursor` on; `switch` is the number of its c_k. Only the sides that choose use the scratch slices.
pub fn put_pair(
    words: &[u32],
    side: Side,
    switch: u32,
    at: usize,
    first: &mut [i32],
    second: &mut [i32],
    out: &mut [i32],
    cursor: usize,
) -> usize
    requires { Accepted words.now × PairStands words.now at × (switch < 2 ^ 31)
        × (pair_scratch side one (table_of words.now) (pair_at words.now at) ≤ length first.old)
        × (pair_scratch side two (table_of words.now) (pair_at words.now at) ≤ length second.old)
        × (cursor + length (entries_of (soft side (table_of words.now) (plus switch ∷ []) (minus switch ∷ []) (pair_at words.now at))) < 2 ^ 64) }
    ensures { Wrote out.old cursor
        (entries_of (soft side (table_of words.now) (plus switch ∷ []) (minus switch ∷ []) (pair_at words.now at)))
        result out.new
        × (first.new ≡ scratch_with side one (table_of words.now) (pair_at words.now at) first.old)
        × (second.new ≡ scratch_with side two (table_of words.now) (pair_at words.now at) second.old) }
{
    let a = sight::from_first(words, at);
    let b = sight::turned(a);
    match side {
        Side::Direct => direct::put_direct(words, a, out, cursor),
        Side::Support => both_ends::put_both(words, a, b, switch, out, cursor),
        Side::First => support::put_support(words, a, None, out, cursor),
        Side::Literals => both_ends::put_chosen(words, a, b, false, first, second, out, cursor),
        Side::Score => both_ends::put_chosen(words, a, b, true, first, second, out, cursor),
    }
}
