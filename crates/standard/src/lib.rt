// The standard hard part of one box, written into a lent buffer, and the clauses that it shares with the regular one. A function for
// each piece of the definitions, and its loops count from where the definitions count, so that code and definition speak of the same numbers.
#![tactic(auto)]

ghost use Rattle.std.specs.Prelude.{[], ◌∷◌, ◌+◌, ◌^◌, ◌≤◌, ◌<◌, length};
ghost use Rattle.lists.specs.Stores.{Wrote};
ghost use Rattle.clause.specs.Clause.{coded, closed, entries_of};
ghost use Rattle.clause.specs.Numbers.{value_from};
ghost use Rattle.clause.specs.Hard.{one_of, standard_box};
ghost use Rattle.standard.specs.Writers.{lit_of, number_of, apart_from, apart};

// A variable or its negation, so that the clauses of two and of three literals are written by one function each.
#[derive(Clone, Copy)]
pub enum Literal {
    Plus(u32),
    Minus(u32),
}

pub fn put_literal(literal: Literal, out: &mut [i32], at: usize) -> usize
    requires { (number_of literal < 2 ^ 31) × (at + 1 < 2 ^ 64) }
    ensures { Wrote out.old at (coded (lit_of literal) ∷ []) result out.new }
{
    match literal {
        Literal::Plus(v) => puts::put_plus(out, at, v),
        Literal::Minus(v) => puts::put_minus(out, at, v),
    }
}

#[tactic(auto, using(lists::proofs::Stores::wrote_append))]
pub fn put_two(first: Literal, second: Literal, out: &mut [i32], at: usize) -> usize
    requires { (number_of first < 2 ^ 31) × (number_of second < 2 ^ 31) × (at + 3 < 2 ^ 64) }
    ensures { Wrote out.old at (closed (lit_of first ∷ lit_of second ∷ [])) result out.new }
{
    let next = put_literal(first, out, at);
    let last = put_literal(second, out, next);
    puts::put_close(out, last)
}

// The box has one of its values.
pub fn put_one_of(v: u32, m: u32, out: &mut [i32], from: usize) -> usize
    requires { (m ≤ 16) × (v < 2 ^ 20) × (from + length (closed (one_of (value_from v) m)) < 2 ^ 64) }
    ensures { Wrote out.old from (closed (one_of (value_from v) m)) result out.new }
{
    let mut at = from;
    for j in 1..m + 1 {
        at = puts::put_plus(out, at, v + j);
    }
    puts::put_close(out, at)
}

// Not value j and a higher one at once.
#[tactic(auto, using(crate::proofs::Texts::text_none, crate::proofs::Texts::run_start))]
fn put_apart_from(v: u32, j: u32, m: u32, out: &mut [i32], from: usize) -> usize
    requires { (j ≤ m) × (m ≤ 16) × (v < 2 ^ 20) × (from + length (entries_of (apart_from (value_from v) m j)) < 2 ^ 64) }
    ensures { Wrote out.old from (entries_of (apart_from (value_from v) m j)) result out.new }
{
    let value = v + j;
    let mut at = from;
    for k in j + 1..m + 1 {
        let higher = v + k;
        at = put_two(Literal::Minus(value), Literal::Minus(higher), out, at);
    }
    at
}

// No two values at once.
#[tactic(auto, using(crate::proofs::Texts::texts_none))]
fn put_apart(v: u32, m: u32, out: &mut [i32], from: usize) -> usize
    requires { (m ≤ 16) × (v < 2 ^ 20) × (from + length (entries_of (apart (value_from v) m)) < 2 ^ 64) }
    ensures { Wrote out.old from (entries_of (apart (value_from v) m)) result out.new }
{
    let mut at = from;
    for j in 1..m + 1 {
        at = put_apart_from(v, j, m, out, at);
    }
    at
}

#[tactic(auto, using(lists::proofs::Stores::wrote_append, crate::proofs::Texts::standard_text, crate::proofs::Texts::standard_size))]
pub fn put_standard(v: u32, m: u32, out: &mut [i32], at: usize) -> usize
    requires { (m ≤ 16) × (v < 2 ^ 20) × (at + length (entries_of (standard_box (value_from v) m)) < 2 ^ 64) }
    ensures { Wrote out.old at (entries_of (standard_box (value_from v) m)) result out.new }
{
    let next = put_one_of(v, m, out, at);
    put_apart(v, m, out, next)
}
