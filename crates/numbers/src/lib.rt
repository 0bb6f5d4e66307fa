// The numbers of the variables, counted from the words.
#![tactic(auto)]

ghost use Rattle.std.specs.Prelude.{◌≡◌, ◌+◌};
ghost use Rattle.table.specs.Table.{In};
ghost use Rattle.table.specs.Words.{box_count, pair_count, table_of, Accepted};
ghost use Rattle.clause.specs.Numbers.{values, value_base_lem, step_base_lem, thresholds, switches};

use clause::{Hard, Side};

// How many variables stand before the values of box `b`.
#[tactic(auto, using(crate::proofs::Counted::base_first, crate::proofs::Counted::base_turn, crate::proofs::Counted::base_small, table::proofs::Tables::accepted_box))]
pub fn value_base(words: &[u32], b: u32) -> u32
    requires { Accepted words.now × In 1 (box_count words.now + 1) b }
    ensures { result ≡ value_base_lem (table_of words.now) b }
{
    let mut sum = 0;
    for i in 1..b {
        sum += table::size(words, i);
    }
    sum
}

// How many values the boxes have in all.
#[tactic(auto, using(crate::proofs::Counted::base_all, crate::proofs::Counted::few_boxes))]
fn value_count(words: &[u32], n: u32) -> u32
    requires { Accepted words.now × (n ≡ box_count words.now) }
    ensures { result ≡ values (table_of words.now) }
{
    value_base(words, n + 1)
}

// How many variables stand before the thresholds of box `b`: the values, and one less than its values for each box before it.
#[tactic(auto, using(crate::proofs::Counted::step_base_law, crate::proofs::Counted::values_small, crate::proofs::Counted::base_small))]
pub fn step_base(words: &[u32], n: u32, b: u32) -> u32
    requires { Accepted words.now × (n ≡ box_count words.now) × In 1 (box_count words.now + 1) b }
    ensures { result ≡ step_base_lem (table_of words.now) b }
{
    let before = value_base(words, b);
    value_count(words, n) + before - (b - 1)
}

// How many variables stand before c_1: the values, and on the regular part one less for each box.
#[tactic(auto, using(crate::proofs::Counted::values_small, crate::proofs::Counted::thresholds_less), unfolding(clause::specs::Numbers::thresholds))]
pub fn switch_base(words: &[u32], n: u32, hard: Hard) -> u32
    requires { Accepted words.now × (n ≡ box_count words.now) }
    ensures { result ≡ values (table_of words.now) + thresholds (table_of words.now) hard }
{
    let count = value_count(words, n);
    match hard {
        Hard::Standard => count,
        Hard::Regular => count + count - n,
    }
}

// How many c_k there are: one for each of the `p` pairs on the support side.
#[tactic(auto, using(crate::proofs::Counted::switches_support), unfolding(clause::specs::Numbers::switches))]
pub fn switch_count(words: &[u32], p: u32, side: Side) -> u32
    requires { Accepted words.now × (p ≡ pair_count words.now) }
    ensures { result ≡ switches (table_of words.now) side }
{
    match side {
        Side::Support => p,
        Side::Direct | Side::First | Side::Literals | Side::Score => 0,
    }
}
