// What an entry point is asked for: an encoding by its two numbers, and a table. Both are judged here, in the document's order, for all of them.
#![tactic(auto)]

ghost use Rattle.std.specs.Prelude.{◌≡◌};
ghost use Rattle.table.specs.Words.{judged};
ghost use Rattle.clause.specs.Encodings.{picked_of};
ghost use Rattle.asked.specs.Asked.{asked_of};

use clause::Encoding;
use refusal::Refusal;
use table::Counts;

// The encoding and the counts of the table: 8 for an unknown encoding, then 1 to 7.
#[tactic(auto, using(table::proofs::Answers::checked_refused, crate::proofs::Answers::ready))]
pub fn ask(words: &[u32], hard: u32, side: u32) -> Result<(Encoding, Counts), Refusal>
    ensures { result ≡ asked_of (picked_of hard side) (judged words.now) }
{
    let encoding = clause::pick(hard, side)?;
    let counts = table_check::check(words)?;
    Ok((encoding, counts))
}
