// Clauses from both ends of a pair: those of each, or those of the end that is taken, whose list is handed on from where it was written.
#![tactic(auto)]

ghost use Rattle.std.specs.Prelude.{◌≡◌, [], ◌∷◌, ◌+◌, ◌^◌, ◌≤◌, ◌<◌, length};
ghost use Rattle.std.proofs.lemmas.List.Edits.{sets};
ghost use Rattle.lists.specs.Stores.{Wrote};
ghost use Rattle.clause.specs.declared.Side.TheVariants.{Support};
ghost use Rattle.clause.specs.Clause.{plus, minus, entries_of};
ghost use Rattle.clause.specs.Ends.{support_clauses};
ghost use Rattle.clause.specs.Soft.{soft_with};
ghost use Rattle.ends.specs.Seen.{end_of, SeenWell};
ghost use Rattle.choice.specs.Tally.{end_tally, second_by};
ghost use Rattle.both_ends.specs.Chosen.{chosen};

use ends::Seen;
use standard::Literal;

// Both ends: the first one's clauses end in the switch, the second one's in its negation.
pub fn put_both(
    words: &[u32],
    a: Seen,
    b: Seen,
    switch: u32,
    out: &mut [i32],
    cursor: usize,
) -> usize
    requires { SeenWell words.now a × SeenWell words.now b × (switch < 2 ^ 31)
        × (cursor + length (entries_of (soft_with Support (end_of words.now a) (end_of words.now b) (plus switch ∷ []) (minus switch ∷ []))) < 2 ^ 64) }
    ensures { Wrote out.old cursor
        (entries_of (soft_with Support (end_of words.now a) (end_of words.now b) (plus switch ∷ []) (minus switch ∷ [])))
        result out.new }
{
    let next = support::put_support(words, a, Some(Literal::Plus(switch)), out, cursor);
    support::put_support(words, b, Some(Literal::Minus(switch)), out, next)
}

// Whether the second end is the one that is taken.
fn takes_second(words: &[u32], a: Seen, b: Seen, by_score: bool) -> bool
    requires { SeenWell words.now a × SeenWell words.now b }
    ensures { result ≡ second_by by_score (end_tally (end_of words.now a)) (end_tally (end_of words.now b)) }
{
    let first = choice::tally(words, a);
    let second = choice::tally(words, b);
    choice::prefers_second(first, second, by_score)
}

// The end that is taken: each end's list is written into its scratch slice, and one of the two is put.
pub fn put_chosen(
    words: &[u32],
    a: Seen,
    b: Seen,
    by_score: bool,
    first: &mut [i32],
    second: &mut [i32],
    out: &mut [i32],
    cursor: usize,
) -> usize
    requires { SeenWell words.now a × SeenWell words.now b
        × (length (entries_of (support_clauses (end_of words.now a) [])) ≤ length first.old)
        × (length (entries_of (support_clauses (end_of words.now b) [])) ≤ length second.old)
        × (cursor + length (entries_of (chosen by_score (end_of words.now a) (end_of words.now b))) < 2 ^ 64) }
    ensures { Wrote out.old cursor
        (entries_of (chosen by_score (end_of words.now a) (end_of words.now b)))
        result out.new
        × (first.new ≡ sets first.old 0 (entries_of (support_clauses (end_of words.now a) [])))
        × (second.new ≡ sets second.old 0 (entries_of (support_clauses (end_of words.now b) []))) }
{
    let la = support::put_support(words, a, None, first, 0);
    let lb = support::put_support(words, b, None, second, 0);
    let over = takes_second(words, a, b, by_score);
    let part = choice::better(first, la, second, lb, over);
    stores::put_all(out, cursor, part)
}
