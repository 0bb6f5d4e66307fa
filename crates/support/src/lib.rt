// The support clauses of a pair from one of its ends, whichever it is.
#![tactic(auto)]

ghost use Rattle.std.specs.Prelude.{map, ◌+◌, ◌^◌, ◌<◌, length};
ghost use Rattle.lists.specs.Stores.{Wrote};
ghost use Rattle.table.specs.Table.{In};
ghost use Rattle.clause.specs.Clause.{coded, entries_of};
ghost use Rattle.clause.specs.Ends.{supports, support_at, support_clauses};
ghost use Rattle.ends.specs.Seen.{end_of, SeenWell};
ghost use Rattle.support.specs.Tails.{supporter, tail_of, TailFits};

use ends::Seen;
use standard::Literal;

// Value `i` of the other box, if it supports value `j`.
#[tactic(auto, using(crate::proofs::Support::supporter_yes, crate::proofs::Support::supporter_no, lists::proofs::Stores::wrote_none, ends::proofs::Ends::theirs_few))]
fn put_supporter(words: &[u32], seen: Seen, j: u32, i: u32, out: &mut [i32], at: usize) -> usize
    requires { SeenWell words.now seen × In 1 seen.mine j × In 1 seen.theirs i
        × (at + length (map coded (supporter (end_of words.now seen) j i)) < 2 ^ 64) }
    ensures { Wrote out.old at (map coded (supporter (end_of words.now seen) j i)) result out.new }
{
    if ends::goes(words, seen, j, i) {
        let other = seen.other;
        return puts::put_plus(out, at, other + i);
    }
    at
}

// The values that support value `j`, rising.
#[tactic(auto, using(ends::proofs::Ends::theirs_few))]
fn put_supports(words: &[u32], seen: Seen, j: u32, out: &mut [i32], from: usize) -> usize
    requires { SeenWell words.now seen × In 1 seen.mine j
        × (from + length (map coded (supports (end_of words.now seen) j)) < 2 ^ 64) }
    ensures { Wrote out.old from (map coded (supports (end_of words.now seen) j)) result out.new }
{
    let mut at = from;
    for i in 1..seen.theirs + 1 {
        at = put_supporter(words, seen, j, i, out, at);
    }
    at
}

#[tactic(auto, using(lists::proofs::Stores::wrote_none))]
// What ends each clause: a literal, or nothing.
fn put_tail(tail: Option<Literal>, out: &mut [i32], at: usize) -> usize
    requires { TailFits tail × (at + length (map coded (tail_of tail)) < 2 ^ 64) }
    ensures { Wrote out.old at (map coded (tail_of tail)) result out.new }
{
    match tail {
        None => at,
        Some(literal) => standard::put_literal(literal, out, at),
    }
}

// Value `j`'s clause. It has none where all values of the other box support it: how many these are is the other box's to say.
#[tactic(auto, using(crate::proofs::Support::full_text, ends::proofs::Ends::mine_few))]
fn put_support_value(
    words: &[u32],
    seen: Seen,
    tail: Option<Literal>,
    j: u32,
    out: &mut [i32],
    at: usize,
) -> usize
    requires { SeenWell words.now seen × In 1 seen.mine j × TailFits tail
        × (at + length (entries_of (support_at (end_of words.now seen) (tail_of tail) j)) < 2 ^ 64) }
    ensures { Wrote out.old at (entries_of (support_at (end_of words.now seen) (tail_of tail) j)) result out.new }
{
    let own = seen.own;
    let theirs = seen.theirs;
    if ends::supporting(words, seen, j) == theirs {
        return at;
    }
    let first = puts::put_minus(out, at, own + j);
    let second = put_supports(words, seen, j, out, first);
    let third = put_tail(tail, out, second);
    puts::put_close(out, third)
}

// The clauses of all values of the box that sees the pair, rising, each ended by `tail`.
#[tactic(auto, using(ends::proofs::Ends::mine_few, ends::proofs::Texts::turn_none))]
pub fn put_support(
    words: &[u32],
    seen: Seen,
    tail: Option<Literal>,
    out: &mut [i32],
    from: usize,
) -> usize
    requires { SeenWell words.now seen × TailFits tail
        × (from + length (entries_of (support_clauses (end_of words.now seen) (tail_of tail))) < 2 ^ 64) }
    ensures { Wrote out.old from (entries_of (support_clauses (end_of words.now seen) (tail_of tail))) result out.new }
{
    let mut at = from;
    for j in 1..seen.mine + 1 {
        at = put_support_value(words, seen, tail, j, out, at);
    }
    at
}
