// The direct clauses of a pair: one for each two values that are not allowed together.
#![tactic(auto)]

ghost use Rattle.std.specs.Prelude.{◌≡◌, ◌+◌, ◌^◌, ◌<◌, length};
ghost use Rattle.lists.specs.Stores.{Wrote};
ghost use Rattle.table.specs.Table.{In};
ghost use Rattle.clause.specs.Clause.{entries_of};
ghost use Rattle.clause.specs.Ends.{direct_at, direct_row, direct_clauses};
ghost use Rattle.ends.specs.Seen.{end_of, SeenWell};

use ends::Seen;

// How many clauses value `j` has: one for each value of the other box that does not support it.
#[tactic(auto, using(crate::proofs::Direct::row_split, ends::proofs::Ends::supports_few))]
fn row_count(words: &[u32], seen: Seen, j: u32) -> usize
    requires { SeenWell words.now seen × In 1 seen.mine j }
    ensures { result ≡ length (direct_row (end_of words.now seen) j) }
{
    let theirs = seen.theirs;
    let supporting = ends::supporting(words, seen, j);
    lists::wide(theirs - supporting)
}

// How many clauses the pair has.
#[tactic(auto, using(crate::proofs::Direct::row_split, ends::proofs::Ends::mine_few, ends::proofs::Ends::theirs_few))]
pub fn direct_count(words: &[u32], seen: Seen) -> usize
    requires { SeenWell words.now seen }
    ensures { result ≡ length (direct_clauses (end_of words.now seen)) }
{
    let mut sum = 0;
    for j in 1..seen.mine + 1 {
        sum += row_count(words, seen, j);
    }
    sum
}

// The clause of value `j` and the other box's value `i`, if they are not allowed together.
#[tactic(auto, using(crate::proofs::Direct::allowed_text, crate::proofs::Direct::forbidden_text, crate::proofs::Direct::forbidden_room, ends::proofs::Ends::mine_few, ends::proofs::Ends::theirs_few, lists::proofs::Stores::wrote_none, lists::proofs::Stores::wrote_append))]
fn put_forbidden(words: &[u32], seen: Seen, j: u32, i: u32, out: &mut [i32], at: usize) -> usize
    requires { SeenWell words.now seen × In 1 seen.mine j × In 1 seen.theirs i
        × (at + length (entries_of (direct_at (end_of words.now seen) j i)) < 2 ^ 64) }
    ensures { Wrote out.old at (entries_of (direct_at (end_of words.now seen) j i)) result out.new }
{
    let own = seen.own;
    let other = seen.other;
    if ends::goes(words, seen, j, i) {
        return at;
    }
    let first = puts::put_minus(out, at, own + j);
    let second = puts::put_minus(out, first, other + i);
    puts::put_close(out, second)
}

// The clauses of value `j`, the other box's values rising.
#[tactic(auto, using(ends::proofs::Ends::theirs_few, ends::proofs::Texts::turn_none))]
fn put_row(words: &[u32], seen: Seen, j: u32, out: &mut [i32], from: usize) -> usize
    requires { SeenWell words.now seen × In 1 seen.mine j
        × (from + length (entries_of (direct_row (end_of words.now seen) j)) < 2 ^ 64) }
    ensures { Wrote out.old from (entries_of (direct_row (end_of words.now seen) j)) result out.new }
{
    let mut at = from;
    for i in 1..seen.theirs + 1 {
        at = put_forbidden(words, seen, j, i, out, at);
    }
    at
}

// The clauses of all values, rising.
#[tactic(auto, using(ends::proofs::Ends::mine_few, ends::proofs::Texts::turn_none))]
pub fn put_direct(words: &[u32], seen: Seen, out: &mut [i32], from: usize) -> usize
    requires { SeenWell words.now seen × (from + length (entries_of (direct_clauses (end_of words.now seen))) < 2 ^ 64) }
    ensures { Wrote out.old from (entries_of (direct_clauses (end_of words.now seen))) result out.new }
{
    let mut at = from;
    for j in 1..seen.mine + 1 {
        at = put_row(words, seen, j, out, at);
    }
    at
}
