// What the clauses of a pair of an accepted table come to on each side.
#![tactic(auto)]

ghost use Rattle.std.specs.Prelude.{◌≡◌, [], ◌+◌, length};
ghost use Rattle.table.specs.Words.{Accepted, PairStands};
ghost use Rattle.table.specs.Words.{pair_at, table_of};
ghost use Rattle.clause.specs.Clause.{entries_of};
ghost use Rattle.clause.specs.Ends.{one, two, end, direct_clauses, support_clauses};
ghost use Rattle.hard.specs.Tallies.{tally_of};
ghost use Rattle.ends.specs.Seen.{end_of, SeenWell};
ghost use Rattle.pairs.specs.Pairs.{bare_tally, both_tally_lem, chosen_tally_lem, pair_tally_lem};

use choice::EndTally;
use clause::Side;
use ends::Seen;
use hard::Tally;

// An end's tally without its score.
fn bare(tally: EndTally) -> Tally
    ensures { result ≡ bare_tally tally }
{
    Tally {
        clauses: tally.clauses,
        literals: tally.literals,
    }
}

// How many entries an end's list has, closing zeros included.
#[tactic(auto, using(crate::proofs::Sums::end_clauses, crate::proofs::Sums::end_literals, crate::proofs::Sums::end_few, sight::proofs::Sight::seen_small, clause::proofs::Lengths::entries_length))]
pub fn candidate_length(words: &[u32], seen: Seen) -> usize
    requires { SeenWell words.now seen }
    ensures { result ≡ length (entries_of (support_clauses (end_of words.now seen) [])) }
{
    let tally = choice::tally(words, seen);
    tally.clauses + tally.literals
}

#[tactic(auto, using(crate::proofs::Sums::direct_tally_lem, crate::proofs::Sums::direct_few, sight::proofs::Sight::seen_small))]
fn direct_tally(words: &[u32], seen: Seen) -> Tally
    requires { SeenWell words.now seen }
    ensures { result ≡ tally_of (direct_clauses (end_of words.now seen)) }
{
    let clauses = direct::direct_count(words, seen);
    Tally {
        clauses,
        literals: clauses * 2,
    }
}

// Both ends, each clause with one literal more.
#[tactic(auto, using(crate::proofs::Sums::both_tally_law, crate::proofs::Sums::end_few, sight::proofs::Sight::seen_small))]
fn both_tally(words: &[u32], first: Seen, second: Seen) -> Tally
    requires { SeenWell words.now first × SeenWell words.now second }
    ensures { result ≡ both_tally_lem (end_of words.now first) (end_of words.now second) }
{
    let a = choice::tally(words, first);
    let b = choice::tally(words, second);
    let clauses = a.clauses + b.clauses;
    let literals = a.literals + b.literals;
    Tally {
        clauses,
        literals: literals + clauses,
    }
}

// The end that is taken.
fn chosen_tally(words: &[u32], first: Seen, second: Seen, by_score: bool) -> Tally
    requires { SeenWell words.now first × SeenWell words.now second }
    ensures { result ≡ chosen_tally_lem by_score (end_of words.now first) (end_of words.now second) }
{
    let a = choice::tally(words, first);
    let b = choice::tally(words, second);
    if choice::prefers_second(a, b, by_score) {
        return bare(b);
    }
    bare(a)
}

// How many clauses and literals the pair at the cursor has.
#[tactic(auto, using(sight::proofs::Sight::both_seen, crate::proofs::Sums::sides))]
pub fn pair_tally(words: &[u32], side: Side, at: usize) -> Tally
    requires { Accepted words.now × PairStands words.now at }
    ensures { result
        ≡ pair_tally_lem side (end (table_of words.now) (pair_at words.now at) one)
        (end (table_of words.now) (pair_at words.now at) two) }
{
    let first = sight::from_first(words, at);
    let second = sight::turned(first);
    match side {
        Side::Direct => direct_tally(words, first),
        Side::Support => both_tally(words, first, second),
        Side::First => bare(choice::tally(words, first)),
        Side::Literals => chosen_tally(words, first, second, false),
        Side::Score => chosen_tally(words, first, second, true),
    }
}
