// The hard part of one box, standard or regular as it is asked for: how long it is, and its clauses in a lent buffer.
#![tactic(auto)]

ghost use Rattle.std.specs.Prelude.{◌≡◌, ◌+◌, ◌^◌, ◌≤◌, ◌<◌, length};
ghost use Rattle.lists.specs.Stores.{Wrote};
ghost use Rattle.clause.specs.Clause.{entries_of};
ghost use Rattle.clause.specs.Hard.{box_with};
ghost use Rattle.clause.specs.declared.Hard.TheVariants.{Standard, Regular};
ghost use Rattle.hard.specs.Tallies.{box_tally_lem};

use clause::Hard;

// How many clauses and literals the hard part of a box has.
#[derive(Clone, Copy)]
pub struct Tally {
    pub clauses: usize,
    pub literals: usize,
}

#[tactic(auto, using(crate::proofs::Tallies::standard_tally_lem, crate::proofs::Tallies::square_few, crate::proofs::Tallies::pairs_few))]
fn standard_tally(m: usize) -> Tally
    requires { (1 ≤ m) × (m ≤ 16) }
    ensures { result ≡ box_tally_lem Standard m }
{
    let clauses = 1 + m * (m - 1) / 2;
    let literals = m * m;
    Tally { clauses, literals }
}

#[tactic(auto, using(crate::proofs::Tallies::single_tally, crate::proofs::Tallies::regular_tally_lem))]
fn regular_tally(m: usize) -> Tally
    requires { (1 ≤ m) × (m ≤ 16) }
    ensures { result ≡ box_tally_lem Regular m }
{
    if m == 1 {
        return Tally {
            clauses: 1,
            literals: 1,
        };
    }
    let clauses = 4 * m - 4;
    let literals = 9 * m - 10;
    Tally { clauses, literals }
}

// The tally of a box with m values, which does not depend on its variables: a caller knows the lengths before it has buffers.
pub fn box_tally(hard: Hard, m: u32) -> Tally
    requires { (1 ≤ m) × (m ≤ 16) }
    ensures { result ≡ box_tally_lem hard m }
{
    match hard {
        Hard::Standard => standard_tally(lists::wide(m)),
        Hard::Regular => regular_tally(lists::wide(m)),
    }
}

// The hard clauses of a box with m values: v variables stand before its values, s before its thresholds.
#[tactic(auto, unfolding(clause::specs::Hard::box_with))]
pub fn put_box(hard: Hard, v: u32, s: u32, m: u32, out: &mut [i32], at: usize) -> usize
    requires { (1 ≤ m) × (m ≤ 16) × (v < 2 ^ 20) × (s < 2 ^ 20) × (at + length (entries_of (box_with hard v s m)) < 2 ^ 64) }
    ensures { Wrote out.old at (entries_of (box_with hard v s m)) result out.new }
{
    match hard {
        Hard::Standard => standard::put_standard(v, m, out, at),
        Hard::Regular => regular::put_regular(v, s, m, out, at),
    }
}
