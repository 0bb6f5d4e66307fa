// One end of a pair: the pair at a cursor as one of its two boxes sees it. What is written from either box is written once, over this.
#![tactic(auto)]

ghost use Rattle.std.specs.Prelude.{◌≡◌, length};
ghost use Rattle.table.specs.Table.{In};
ghost use Rattle.clause.specs.Ends.{supports};
ghost use Rattle.ends.specs.Seen.{end_of, SeenWell};

// How many variables stand before the box's own values and before the other box's, and how many values each has.
// `turned`: it is the second box that sees the pair.
#[derive(Clone, Copy)]
pub struct Seen {
    pub at: usize,
    pub own: u32,
    pub mine: u32,
    pub other: u32,
    pub theirs: u32,
    pub turned: bool,
}

// Whether value `j` of the box and value `i` of the other are allowed together.
#[tactic(auto, using(crate::proofs::Ends::sizes_seen, crate::proofs::Ends::mine_few))]
pub fn goes(words: &[u32], seen: Seen, j: u32, i: u32) -> bool
    requires { SeenWell words.now seen × In 1 seen.mine j × In 1 seen.theirs i }
    ensures { result ≡ (end_of words.now seen).ok j i }
{
    let at = seen.at;
    let turned = seen.turned;
    if turned {
        return masks::allows(words, at, i, j);
    }
    masks::allows(words, at, j, i)
}

// How many values of the other box support value `j`.
#[tactic(auto, using(crate::proofs::Ends::supporters_none, crate::proofs::Ends::theirs_few))]
pub fn supporting(words: &[u32], seen: Seen, j: u32) -> u32
    requires { SeenWell words.now seen × In 1 seen.mine j }
    ensures { result ≡ length (supports (end_of words.now seen) j) }
{
    let mut sum = 0;
    for i in 1..seen.theirs + 1 {
        sum += u32::from(goes(words, seen, j, i));
    }
    sum
}
