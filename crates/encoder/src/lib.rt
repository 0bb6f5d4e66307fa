// The clause list of a table, into lent buffers. Everything is judged, by counts, before the first store.
#![tactic(auto)]

ghost use Rattle.table.specs.Words.{table_of, judged};
ghost use Rattle.table.specs.Checked.{table_in};
ghost use Rattle.clause.specs.Encodings.{picked_of};
ghost use Rattle.encoder.specs.Encoded.{judged_room, verdict, Outcomes};

use clause::Encoding;
pub use clauses_out::Written;
use refusal::Refusal;
use table::Checked;

// The list of a checked table, if the buffers hold it.
#[tactic(auto, using(refusal::proofs::Results::judged_fine, refusal::proofs::Results::judged_wrong, crate::proofs::Judged::refusal_left, crate::proofs::Judged::list_left, room::proofs::Fits::clauses_hold))]
fn encode_checked(
    table: Checked,
    e: Encoding,
    first: &mut [i32],
    second: &mut [i32],
    literals: &mut [i32],
    weights: &mut [u64],
) -> Result<Written, Refusal>
    ensures { Outcomes
        (judged_room e (table_in table.entry) first.old second.old literals.old weights.old)
        first.old second.old literals.old weights.old
        result first.new second.new literals.new weights.new }
{
    let words = table.words;
    let counts = table.counts;
    let needed = measure::measure(words, counts, e);
    let scratch = measure::scratch_over(words, counts, e.side);
    room::for_clauses(
        needed,
        scratch,
        first.len(),
        second.len(),
        literals.len(),
        weights.len(),
    )?;
    Ok(clauses_out::write_all(words, counts, e, first, second, literals, weights))
}

// The clause list of a table: 8 for an unknown encoding, then 1 to 7, then 9 for the first buffer that is too short.
#[tactic(auto, using(asked::proofs::Answers::asked_ready, asked::proofs::Answers::asked_refused, crate::proofs::Judged::refusal_left))]
pub fn encode(
    words: &[u32],
    hard: u32,
    side: u32,
    first: &mut [i32],
    second: &mut [i32],
    literals: &mut [i32],
    weights: &mut [u64],
) -> Result<Written, Refusal>
    ensures { Outcomes
        (verdict (picked_of hard side) (judged words.now) first.old second.old literals.old weights.old)
        first.old second.old literals.old weights.old
        result first.new second.new literals.new weights.new }
{
    let (e, counts) = asked::ask(words, hard, side)?;
    encode_checked(
        Checked { words, counts },
        e,
        first,
        second,
        literals,
        weights,
    )
}
