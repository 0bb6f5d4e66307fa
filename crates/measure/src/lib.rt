// The exact lengths of a table's clause list, counted without writing anything, and what the scratch buffers must hold.
#![tactic(auto)]

ghost use Rattle.std.specs.Prelude.{◌≡◌};
ghost use Rattle.table.specs.Words.{table_of, judged, pair_at, Accepted, PairStands};
ghost use Rattle.table.specs.Answers.{Counted};
ghost use Rattle.table.specs.Checked.{table_in};
ghost use Rattle.clause.specs.Encodings.{picked_of};
ghost use Rattle.clause.specs.Lengths.{longest, candidate_length_lem};
ghost use Rattle.measure.specs.Measures.{lengths_for, longest_lists_lem, scratch_for, measured_of, needed_of, which_by};

use clause::{Encoding, Side};
use refusal::Refusal;
use table::{Checked, Counts};

// Variables, clauses, literals without and with their closing zeros, and the top of the text.
#[derive(Clone, Copy)]
pub struct Lengths {
    pub variables: usize,
    pub clauses: usize,
    pub literals: usize,
    pub entries: usize,
    pub top: u64,
}

// What the two scratch buffers must hold.
#[derive(Clone, Copy)]
pub struct Scratch {
    pub first: usize,
    pub second: usize,
}

// The exact lengths over an accepted table.
#[tactic(auto, using(crate::proofs::Measuring::lengths_made, numbers::proofs::Counted::bases_few, numbers::proofs::Counted::switches_few))]
pub fn measure(words: &[u32], counts: Counts, e: Encoding) -> Lengths
    requires { Counted words.now counts }
    ensures { result ≡ lengths_for e (table_of words.now) }
{
    let part = e.hard;
    let side = e.side;
    let n = lists::word(words, 0);
    let p = lists::word(words, 1);
    let hard = totals::hard_tally(words, n, part);
    let soft = totals::soft_tally(words, counts, side);
    let variables = numbers::switch_base(words, n, part) + numbers::switch_count(words, p, side);
    let clauses = hard.clauses + soft.clauses;
    let literals = hard.literals + soft.literals;
    Lengths {
        variables: lists::wide(variables),
        clauses,
        literals,
        entries: clauses + literals,
        top: totals::top_of(words, counts),
    }
}

// The exact lengths of the clause list: 8 for an unknown encoding, then 1 to 7.
#[tactic(auto, using(asked::proofs::Answers::asked_ready, asked::proofs::Answers::asked_refused))]
pub fn exact_lengths(words: &[u32], hard: u32, side: u32) -> Result<Lengths, Refusal>
    ensures { result ≡ measured_of (picked_of hard side) (judged words.now) }
{
    let (e, counts) = asked::ask(words, hard, side)?;
    Ok(measure(words, counts, e))
}

// How long the list of one end of the pair at the cursor is, closing zeros included.
#[tactic(auto, using(crate::proofs::Measuring::candidate_is, sight::proofs::Sight::sees, sight::proofs::Sight::both_seen))]
fn candidate(words: &[u32], at: usize, second: bool) -> usize
    requires { Accepted words.now × PairStands words.now at }
    ensures { result ≡ candidate_length_lem (table_of words.now) (which_by second) (pair_at words.now at) }
{
    let first = sight::from_first(words, at);
    if second {
        return pairs::candidate_length(words, sight::turned(first));
    }
    pairs::candidate_length(words, first)
}

// The longest list of that end in the table.
fn longest_list(table: Checked, second: bool) -> usize
    ensures { result ≡ longest (candidate_length_lem (table_in table.entry) (which_by second)) (table_in table.entry).pairs }
{
    let words = table.words;
    let mut best = 0_usize;
    let mut at = table.counts.boxes + 2;
    for _ in 0..table.counts.pairs {
        best = best.max(candidate(words, at, second));
        at = totals::next_pair(words, at);
    }
    best
}

fn longest_lists(table: Checked) -> Scratch
    ensures { result ≡ longest_lists_lem (table_in table.entry) }
{
    Scratch {
        first: longest_list(table, false),
        second: longest_list(table, true),
    }
}

// What the two scratch buffers must hold over an accepted table: nothing on the sides that do not choose.
#[tactic(auto, unfolding(clause::specs::Lengths::scratch_length))]
pub fn scratch_over(words: &[u32], counts: Counts, side: Side) -> Scratch
    requires { Counted words.now counts }
    ensures { result ≡ scratch_for side (table_of words.now) }
{
    match side {
        Side::Direct | Side::Support | Side::First => Scratch {
            first: 0,
            second: 0,
        },
        Side::Literals | Side::Score => longest_lists(Checked { words, counts }),
    }
}

// The scratch lengths: 8 for an unknown encoding, then 1 to 7.
#[tactic(auto, using(asked::proofs::Answers::asked_ready, asked::proofs::Answers::asked_refused))]
pub fn scratch_lengths(words: &[u32], hard: u32, side: u32) -> Result<Scratch, Refusal>
    ensures { result ≡ needed_of (picked_of hard side) (judged words.now) }
{
    let (e, counts) = asked::ask(words, hard, side)?;
    Ok(scratch_over(words, counts, e.side))
}
