// The regular hard part of one box, written into a lent buffer: a chain of thresholds, and each value bound to those beside it.
#![tactic(auto)]

ghost use Rattle.std.specs.Prelude.{[], ◌∷◌, ◌+◌, ◌^◌, ◌≤◌, ◌<◌, length};
ghost use Rattle.lists.specs.Stores.{Wrote};
ghost use Rattle.clause.specs.Clause.{closed, entries_of};
ghost use Rattle.clause.specs.Numbers.{value_from, step_from};
ghost use Rattle.clause.specs.Hard.{lowest, between, highest, regular_box};
ghost use Rattle.standard.specs.Writers.{lit_of, number_of};
ghost use Rattle.regular.specs.Thresholds.{chain, all_between};

use standard::Literal;

#[tactic(auto, using(lists::proofs::Stores::wrote_append))]
fn put_three(first: Literal, second: Literal, third: Literal, out: &mut [i32], at: usize) -> usize
    requires { (number_of first < 2 ^ 31) × (number_of second < 2 ^ 31) × (number_of third < 2 ^ 31) × (at + 4 < 2 ^ 64) }
    ensures { Wrote out.old at (closed (lit_of first ∷ lit_of second ∷ lit_of third ∷ [])) result out.new }
{
    let next = standard::put_literal(first, out, at);
    standard::put_two(second, third, out, next)
}

// At least j only if at least j - 1. The threshold of j is variable s + (j - 1), since value 1 has none.
#[tactic(auto, using(standard::proofs::Texts::text_none))]
fn put_chain(s: u32, m: u32, out: &mut [i32], from: usize) -> usize
    requires { (2 ≤ m) × (m ≤ 16) × (s < 2 ^ 20) × (from + length (entries_of (chain (step_from s) m)) < 2 ^ 64) }
    ensures { Wrote out.old from (entries_of (chain (step_from s) m)) result out.new }
{
    let mut at = from;
    for j in 3..m + 1 {
        let step = s + (j - 1);
        let lower = s + (j - 2);
        at = standard::put_two(Literal::Minus(step), Literal::Plus(lower), out, at);
    }
    at
}

// Value 1 exactly if not at least 2.
#[tactic(auto, using(lists::proofs::Stores::wrote_append, crate::proofs::Pieces::lowest_text))]
fn put_lowest(v: u32, s: u32, out: &mut [i32], at: usize) -> usize
    requires { (v < 2 ^ 20) × (s < 2 ^ 20) × (at + length (entries_of (lowest (value_from v) (step_from s))) < 2 ^ 64) }
    ensures { Wrote out.old at (entries_of (lowest (value_from v) (step_from s))) result out.new }
{
    let value = v + 1;
    let step = s + 1;
    let next = standard::put_two(Literal::Minus(value), Literal::Minus(step), out, at);
    standard::put_two(Literal::Plus(value), Literal::Plus(step), out, next)
}

// Value j exactly if at least j and not at least j + 1.
#[tactic(auto, using(lists::proofs::Stores::wrote_append, crate::proofs::Pieces::between_text))]
fn put_between(v: u32, s: u32, j: u32, out: &mut [i32], at: usize) -> usize
    requires { (1 ≤ j) × (j ≤ 16) × (v < 2 ^ 20) × (s < 2 ^ 20) × (at + length (entries_of (between (value_from v) (step_from s) j)) < 2 ^ 64) }
    ensures { Wrote out.old at (entries_of (between (value_from v) (step_from s) j)) result out.new }
{
    let value = v + j;
    let step = s + (j - 1);
    let higher = s + j;
    let second = standard::put_two(Literal::Minus(value), Literal::Plus(step), out, at);
    let third = standard::put_two(Literal::Minus(value), Literal::Minus(higher), out, second);
    put_three(
        Literal::Plus(value),
        Literal::Minus(step),
        Literal::Plus(higher),
        out,
        third,
    )
}

// The values strictly between the lowest and the highest.
#[tactic(auto, using(standard::proofs::Texts::texts_none))]
fn put_all_between(v: u32, s: u32, m: u32, out: &mut [i32], from: usize) -> usize
    requires { (2 ≤ m) × (m ≤ 16) × (v < 2 ^ 20) × (s < 2 ^ 20) × (from + length (entries_of (all_between (value_from v) (step_from s) m)) < 2 ^ 64) }
    ensures { Wrote out.old from (entries_of (all_between (value_from v) (step_from s) m)) result out.new }
{
    let mut at = from;
    for j in 2..m {
        at = put_between(v, s, j, out, at);
    }
    at
}

// Value m exactly if at least m.
#[tactic(auto, using(lists::proofs::Stores::wrote_append, crate::proofs::Pieces::highest_text))]
fn put_highest(v: u32, s: u32, m: u32, out: &mut [i32], at: usize) -> usize
    requires { (1 ≤ m) × (m ≤ 16) × (v < 2 ^ 20) × (s < 2 ^ 20) × (at + length (entries_of (highest (value_from v) (step_from s) m)) < 2 ^ 64) }
    ensures { Wrote out.old at (entries_of (highest (value_from v) (step_from s) m)) result out.new }
{
    let value = v + m;
    let step = s + (m - 1);
    let next = standard::put_two(Literal::Minus(value), Literal::Plus(step), out, at);
    standard::put_two(Literal::Plus(value), Literal::Minus(step), out, next)
}

#[tactic(auto, using(lists::proofs::Stores::wrote_append, crate::proofs::Pieces::single_text, crate::proofs::Pieces::regular_text, crate::proofs::Pieces::regular_size))]
pub fn put_regular(v: u32, s: u32, m: u32, out: &mut [i32], at: usize) -> usize
    requires { (1 ≤ m) × (m ≤ 16) × (v < 2 ^ 20) × (s < 2 ^ 20) × (at + length (entries_of (regular_box (value_from v) (step_from s) m)) < 2 ^ 64) }
    ensures { Wrote out.old at (entries_of (regular_box (value_from v) (step_from s) m)) result out.new }
{
    if m == 1 {
        return standard::put_one_of(v, m, out, at);
    }
    let lowest = put_chain(s, m, out, at);
    let between = put_lowest(v, s, out, lowest);
    let highest = put_all_between(v, s, m, out, between);
    put_highest(v, s, m, out, highest)
}
