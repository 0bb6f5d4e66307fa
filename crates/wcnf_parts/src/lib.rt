// The WCNF lines of one box or one pair, by way of a lent slice that holds the part's clauses: for a program that prints part by part.
#![tactic(auto)]

ghost use Rattle.std.specs.Prelude.{◌≡◌, [], ◌∷◌, ◌+◌, ◌^◌, ◌≤◌, ◌<◌, length};
ghost use Rattle.std.proofs.lemmas.List.Edits.{sets};
ghost use Rattle.lists.specs.Stores.{Wrote};
ghost use Rattle.table.specs.Table.{In};
ghost use Rattle.table.specs.Words.{box_count, pair_at, table_of, Accepted, PairStands};
ghost use Rattle.clause.specs.Clause.{plus, minus, entries_of};
ghost use Rattle.clause.specs.Ends.{one, two};
ghost use Rattle.clause.specs.Hard.{box_clauses};
ghost use Rattle.clause.specs.Soft.{soft};
ghost use Rattle.soft.specs.Scratch.{pair_scratch, scratch_with};
ghost use Rattle.wcnf.specs.Wcnf.{lines_of};

use clause::{Hard, Side};

// The lines of box `b`, which show the top. No part has more than 1024 entries, nor takes more than 65536 bytes.
pub fn put_box(
    words: &[u32],
    n: u32,
    part: Hard,
    b: u32,
    top: u64,
    clauses: &mut [i32],
    text: &mut [u8],
    at: usize,
) -> usize
    requires { Accepted words.now
        × (n ≡ box_count words.now)
        × In 1 (box_count words.now) b
        × (1024 ≤ length clauses.old)
        × (at + 65536 < 2 ^ 64) }
    ensures { Wrote text.old at (lines_of top (box_clauses part (table_of words.now) b)) result text.new
        × (clauses.new ≡ sets clauses.old 0 (entries_of (box_clauses part (table_of words.now) b)))
        × (result ≤ at + 65536) }
{
    let long = parts::put_box(words, n, part, b, clauses, 0);
    wcnf::put_clauses(text, at, top, clauses, long)
}

// The lines of the pair at `pair`, which show its weight; `switch` is the number of its c_k. Only the sides that choose use the scratch slices.
pub fn put_pair(
    words: &[u32],
    side: Side,
    switch: u32,
    pair: usize,
    first: &mut [i32],
    second: &mut [i32],
    clauses: &mut [i32],
    text: &mut [u8],
    at: usize,
) -> usize
    requires { Accepted words.now × PairStands words.now pair
        × (1 ≤ switch) × (switch < 2 ^ 31)
        × (pair_scratch side one (table_of words.now) (pair_at words.now pair) ≤ length first.old)
        × (pair_scratch side two (table_of words.now) (pair_at words.now pair) ≤ length second.old)
        × (1024 ≤ length clauses.old)
        × (at + 65536 < 2 ^ 64) }
    ensures { Wrote text.old at
        (lines_of
        (pair_at words.now pair).weight
        (soft side (table_of words.now) (plus switch ∷ []) (minus switch ∷ []) (pair_at words.now pair)))
        result text.new
        × (first.new ≡ scratch_with side one (table_of words.now) (pair_at words.now pair) first.old)
        × (second.new ≡ scratch_with side two (table_of words.now) (pair_at words.now pair) second.old)
        × (clauses.new
        ≡ sets
        clauses.old
        0
        (entries_of (soft side (table_of words.now) (plus switch ∷ []) (minus switch ∷ []) (pair_at words.now pair))))
        × (result ≤ at + 65536) }
{
    let long = soft::put_pair(words, side, switch, pair, first, second, clauses, 0);
    let head = reader::pair_at(words, pair);
    wcnf::put_clauses(text, at, lists::wide(head.weight) as u64, clauses, long)
}
