// Judges a solver's list: its length, its entries, and the hard clauses of each box.
#![tactic(auto)]

ghost use Rattle.refusal.specs.Refusals.{judged_of};
ghost use Rattle.std.specs.Prelude.{◌≡◌};
ghost use Rattle.table.specs.Words.{table_of, Accepted};
ghost use Rattle.clause.specs.Numbers.{variables};
ghost use Rattle.list_judge.specs.Faults.{entries_fault, boxes_fault, list_fault};

use clause::{Hard, Side};
use refusal::Refusal;

// Every entry is 0 or 1.
#[tactic(auto, using(lists::proofs::Firsts::first_found, lists::proofs::Firsts::first_next, lists::proofs::Firsts::first_end, crate::proofs::Loops::entry_wrong, crate::proofs::Loops::entry_fine))]
fn entries(list: &[u8]) -> Result<(), Refusal>
    ensures { result ≡ judged_of (entries_fault list.now) }
{
    for i in 0..list.len() {
        if 1 < list[i] {
            return Err(Refusal::Entry(i));
        }
    }
    Ok(())
}

// No hard clause of any box is false.
#[tactic(auto, using(lists::proofs::Firsts::first_next, lists::proofs::Firsts::first_end, crate::proofs::Loops::box_fine, crate::proofs::Judged::counts_stand, table::proofs::Tables::table_boxes))]
fn boxes(words: &[u32], hard: Hard, list: &[u8]) -> Result<(), Refusal>
    requires { Accepted words.now }
    ensures { result ≡ judged_of (boxes_fault hard (table_of words.now) list.now) }
{
    let n = lists::word(words, 0);
    for b in 1..=n {
        if !list_boxes::box_ok(words, n, hard, list, b) {
            return Err(Refusal::Broken(lists::wide(b)));
        }
    }
    Ok(())
}

// How many variables the table has in this encoding: the length of a list.
#[tactic(auto, using(crate::proofs::Judged::counts_stand, crate::proofs::Judged::variables_small), unfolding(clause::specs::Numbers::variables))]
pub fn variables(words: &[u32], hard: Hard, side: Side) -> usize
    requires { Accepted words.now }
    ensures { result ≡ variables (table_of words.now) hard side }
{
    let n = lists::word(words, 0);
    let p = lists::word(words, 1);
    let base = numbers::switch_base(words, n, hard);
    let count = numbers::switch_count(words, p, side);
    lists::wide(base + count)
}

// The list is accepted: 10, then 11, then 12.
#[tactic(auto, using(refusal::proofs::Results::judged_fine, refusal::proofs::Results::judged_wrong), unfolding(crate::specs::Faults::list_fault))]
pub fn judge(words: &[u32], hard: Hard, side: Side, list: &[u8]) -> Result<(), Refusal>
    requires { Accepted words.now }
    ensures { result ≡ judged_of (list_fault hard side (table_of words.now) list.now) }
{
    let wanted = variables(words, hard, side);
    if list.len() != wanted {
        return Err(Refusal::Length(wanted));
    }
    entries(list)?;
    boxes(words, hard, list)
}
