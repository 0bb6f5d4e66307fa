// What the clauses of each end come to, which end the sides literals and score take by it, and that end's list handed on.
#![tactic(auto)]

ghost use Rattle.std.specs.Prelude.{◌≡◌, cond, [], ◌≤◌, ◌<◌, length, take};
ghost use Rattle.table.specs.Table.{In};
ghost use Rattle.clause.specs.Ends.{support_at};
ghost use Rattle.clause.specs.Choice.{points};
ghost use Rattle.ends.specs.Seen.{end_of, SeenWell};
ghost use Rattle.choice.specs.Tally.{tally_of, end_tally, second_by};

use ends::Seen;

// How many clauses, how many literals in all, and their score. A value that all values of the other box support counts in none.
#[derive(Clone, Copy)]
pub struct EndTally {
    pub clauses: usize,
    pub literals: usize,
    pub score: u32,
}

// The score of a clause by its length, at most 17: the box's value and the 16 of the other.
const POINTS: [u32; 18] = [0, 16, 4, 1, 0, 0, 0, 0, 0, 0, 0, 0, 0, 0, 0, 0, 0, 0];

fn points(long: usize) -> u32
    requires { long < 18 }
    ensures { result ≡ points long }
{
    POINTS[long]
}

// What value `j` adds.
#[tactic(auto, using(crate::proofs::Tallies::share_full, crate::proofs::Tallies::share_partly, ends::proofs::Ends::theirs_few, ends::proofs::Ends::supports_few, ends::proofs::Ends::full_yes, ends::proofs::Ends::full_no))]
fn share(words: &[u32], seen: Seen, j: u32) -> EndTally
    requires { SeenWell words.now seen × In 1 seen.mine j }
    ensures { result ≡ tally_of (support_at (end_of words.now seen) [] j) }
{
    let theirs = seen.theirs;
    let supporting = ends::supporting(words, seen, j);
    if supporting == theirs {
        return EndTally {
            clauses: 0,
            literals: 0,
            score: 0,
        };
    }
    let long = lists::wide(supporting) + 1;
    EndTally {
        clauses: 1,
        literals: long,
        score: points(long),
    }
}

// The tally of all values of the box that sees the pair.
#[tactic(auto, using(ends::proofs::Ends::mine_few, ends::proofs::Ends::theirs_few, crate::proofs::Tallies::shared_few))]
pub fn tally(words: &[u32], seen: Seen) -> EndTally
    requires { SeenWell words.now seen }
    ensures { result ≡ end_tally (end_of words.now seen) }
{
    let mut clauses = 0;
    let mut literals = 0;
    let mut score = 0;
    for j in 1..seen.mine + 1 {
        let value = share(words, seen, j);
        clauses += value.clauses;
        literals += value.literals;
        score += value.score;
    }
    EndTally {
        clauses,
        literals,
        score,
    }
}

// Whether the second box's end is taken: by the higher score, or by fewer literals; at a tie the first box's.
pub fn prefers_second(first: EndTally, second: EndTally, by_score: bool) -> bool
    ensures { result ≡ second_by by_score first second }
{
    if by_score {
        return first.score < second.score;
    }
    second.literals < first.literals
}

// The list of the end that is taken, a part of where it was written.
pub fn better<'a>(a: &'a [i32], la: usize, b: &'a [i32], lb: usize, second: bool) -> &'a [i32]
    requires { (la ≤ length a.now) × (lb ≤ length b.now) }
    ensures { result.now ≡ cond second (take lb b.now) (take la a.now) }
{
    if second {
        return &b[..lb];
    }
    &a[..la]
}
