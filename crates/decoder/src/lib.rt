// The decoder of solver lists. The answers of the list maker, and what both promise, stand here too.
#![tactic(auto)]

ghost use Rattle.std.specs.Prelude.{◌≡◌, ◌≤◌, length, Ok};
ghost use Rattle.std.proofs.lemmas.List.Edits.{sets};
ghost use Rattle.lists.specs.Stores.{Wrote};
ghost use Rattle.table.specs.Table.{boxes};
ghost use Rattle.table.specs.Words.{table_of, judged, Accepted};
ghost use Rattle.table.specs.Checked.{table_in};
ghost use Rattle.plan.specs.Plan.{IsPlan, cost};
ghost use Rattle.clause.specs.Encodings.{picked_of};
ghost use Rattle.decoder.specs.Lists.{plan_of};
ghost use Rattle.decoder.specs.Answers.{decoded_of, plan_after};

use clause::Encoding;
use refusal::Refusal;
use table::Checked;

// The plan of the list, one value for each box.
#[tactic(auto, using(lists::proofs::Stores::owes_all, lists::proofs::Stores::owes_part, lists::proofs::Stores::owes_none, lists::proofs::Runs::count_turn, lists::proofs::Runs::count_end, list_judge::proofs::Judged::counts_stand, table::proofs::Tables::table_boxes, crate::proofs::Judged::plan_whole))]
fn put_plan(words: &[u32], list: &[u8], plan: &mut [u32]) -> usize
    requires { Accepted words.now }
    ensures { Wrote plan.old 0 (plan_of (table_of words.now) list.now) result plan.new }
{
    let n = lists::word(words, 0);
    let mut at = 0;
    for b in 1..=n {
        let v = list_boxes::value_of(words, list, b);
        at = stores::put(plan, at, v);
    }
    at
}

// The plan of an accepted list is put where there is room for it: its cost.
#[tactic(auto, using(crate::proofs::Judged::put_begins))]
fn priced(table: Checked, list: &[u8], plan: &mut [u32]) -> u64
    requires { IsPlan (table_in table) (plan_of (table_in table) list.now)
        × (boxes (table_in table) ≤ length plan.old) }
    ensures { (result ≡ cost (table_in table.entry) (plan_of (table_in table.entry) list.now))
        × (plan.new ≡ sets plan.old 0 (plan_of (table_in table.entry) list.now)) }
{
    let words = table.words;
    let n = put_plan(words, list, plan);
    plan::total(words, table.counts, &plan[..n])
}

// The answer over an accepted table.
#[tactic(auto, using(refusal::proofs::Results::judged_fine, refusal::proofs::Results::judged_wrong, crate::proofs::PlanOfList::fine_plan), unfolding(crate::specs::Answers::decode_fault))]
fn answer(table: Checked, e: Encoding, list: &[u8], plan: &mut [u32]) -> Result<u64, Refusal>
    ensures { (result ≡ decoded_of (Ok e) (judged table.entry.words.now) list.now (length plan.old))
        × (plan.new ≡ plan_after (Ok e) (judged table.entry.words.now) list.now plan.old) }
{
    let words = table.words;
    list_judge::judge(words, e.hard, e.side, list)?;
    let n = table.counts.boxes;
    if plan.len() < n {
        return Err(Refusal::Room(n));
    }
    Ok(priced(table, list, plan))
}

// The plan of a solver's list and its cost: 8, then 1 to 7 for the table, 10 to 12 for the list, and 9 for the lent plan. A refusal writes nothing.
#[tactic(auto, using(asked::proofs::Answers::asked_ready, asked::proofs::Answers::asked_refused))]
pub fn decode(
    words: &[u32],
    hard: u32,
    side: u32,
    list: &[u8],
    plan: &mut [u32],
) -> Result<u64, Refusal>
    ensures { (result ≡ decoded_of (picked_of hard side) (judged words.now) list.now (length plan.old))
        × (plan.new ≡ plan_after (picked_of hard side) (judged words.now) list.now plan.old) }
{
    let (e, counts) = asked::ask(words, hard, side)?;
    answer(Checked { words, counts }, e, list, plan)
}
