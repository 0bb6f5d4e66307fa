// Whether the lent buffers hold what is to be written: the first that is too short, in the document's order.
#![tactic(auto)]

ghost use Rattle.std.specs.Prelude.{◌≡◌};
ghost use Rattle.refusal.specs.Refusals.{judged_of};
ghost use Rattle.room.specs.Room.{two_fault, clauses_fault, text_fault};

use measure::{Lengths, Scratch};
use refusal::Refusal;

// Of two buffers that need `a` and `b` entries, the first that is too short.
#[tactic(auto, using(crate::proofs::Fits::tests), unfolding(crate::specs::Room::two_fault))]
fn for_two(a: usize, b: usize, first: usize, second: usize) -> Result<(), Refusal>
    ensures { result ≡ judged_of (two_fault a b first second) }
{
    if first < a {
        return Err(Refusal::Room(a));
    }
    if second < b {
        return Err(Refusal::Room(b));
    }
    Ok(())
}

// For a clause list and its weights.
#[tactic(auto, using(refusal::proofs::Results::judged_fine, refusal::proofs::Results::judged_wrong), unfolding(crate::specs::Room::clauses_fault))]
pub fn for_clauses(
    needed: Lengths,
    scratch: Scratch,
    first: usize,
    second: usize,
    literals: usize,
    weights: usize,
) -> Result<(), Refusal>
    ensures { result ≡ judged_of (clauses_fault needed scratch first second literals weights) }
{
    for_two(scratch.first, scratch.second, first, second)?;
    for_two(needed.entries, needed.clauses, literals, weights)
}

// For a text of that length.
#[tactic(auto, using(refusal::proofs::Results::judged_fine, refusal::proofs::Results::judged_wrong, crate::proofs::Fits::tests), unfolding(crate::specs::Room::text_fault))]
pub fn for_text(
    scratch: Scratch,
    long: usize,
    first: usize,
    second: usize,
    text: usize,
) -> Result<(), Refusal>
    ensures { result ≡ judged_of (text_fault scratch long first second text) }
{
    for_two(scratch.first, scratch.second, first, second)?;
    if text < long {
        return Err(Refusal::Room(long));
    }
    Ok(())
}
