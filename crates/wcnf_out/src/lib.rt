// WCNF text of a table, into a lent slice of bytes. It is measured first, so that a refusal writes nothing.
#![tactic(auto)]

ghost use Rattle.std.specs.Prelude.{◌≡◌, ◌≤◌, length};
ghost use Rattle.table.specs.Words.{table_of, judged};
ghost use Rattle.table.specs.Checked.{table_in};
ghost use Rattle.clause.specs.Ends.{one, two};
ghost use Rattle.clause.specs.Encodings.{picked_of};
ghost use Rattle.clause.specs.Lengths.{scratch_length};
ghost use Rattle.measure.specs.Measures.{lengths_for};
ghost use Rattle.whole.specs.Verdict.{yes};
ghost use Rattle.wcnf_out.specs.Written.{judged_room, verdict, Outcomes};

use clause::Encoding;
use measure::Lengths;
use refusal::Refusal;
use table::Checked;

// The text, into buffers that were judged to hold it.
fn write_text(
    table: Checked,
    e: Encoding,
    needed: Lengths,
    first: &mut [i32],
    second: &mut [i32],
    text: &mut [u8],
) -> Result<usize, Refusal>
    requires { (needed ≡ lengths_for e (table_in table))
        × (scratch_length e.side one (table_in table) ≤ length first.old)
        × (scratch_length e.side two (table_in table) ≤ length second.old) }
    ensures { Outcomes
        (yes e (table_in table.entry))
        first.old second.old text.old
        result first.new second.new text.new }
{
    let side = e.side;
    let long = wcnf_text::put_text(table.words, table.counts, e, needed, first, second, text);
    whole::tidy(side, first);
    whole::tidy(side, second);
    Ok(long)
}

// The text of a checked table, if the buffers hold it.
#[tactic(auto, using(refusal::proofs::Results::judged_fine, refusal::proofs::Results::judged_wrong, crate::proofs::Answers::refusal_left, room::proofs::Fits::text_holds))]
fn write_checked(
    table: Checked,
    e: Encoding,
    first: &mut [i32],
    second: &mut [i32],
    text: &mut [u8],
) -> Result<usize, Refusal>
    ensures { Outcomes
        (judged_room e (table_in table.entry) (length first.old) (length second.old) (length text.old))
        first.old second.old text.old
        result first.new second.new text.new }
{
    let words = table.words;
    let counts = table.counts;
    let scratch = measure::scratch_over(words, counts, e.side);
    let needed = measure::measure(words, counts, e);
    let long = wcnf_text::text_length(words, counts, e, needed);
    room::for_text(scratch, long, first.len(), second.len(), text.len())?;
    write_text(table, e, needed, first, second, text)
}

// WCNF text of a table: 8 for an unknown encoding, then 1 to 7, then 9 for the first buffer that is too short.
#[tactic(auto, using(asked::proofs::Answers::asked_ready, asked::proofs::Answers::asked_refused, crate::proofs::Answers::refusal_left))]
pub fn write_wcnf(
    words: &[u32],
    hard: u32,
    side: u32,
    first: &mut [i32],
    second: &mut [i32],
    text: &mut [u8],
) -> Result<usize, Refusal>
    ensures { Outcomes
        (verdict (picked_of hard side) (judged words.now) (length first.old) (length second.old) (length text.old))
        first.old second.old text.old
        result first.new second.new text.new }
{
    let (e, counts) = asked::ask(words, hard, side)?;
    write_checked(Checked { words, counts }, e, first, second, text)
}
