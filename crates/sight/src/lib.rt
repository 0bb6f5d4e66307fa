// A pair of an accepted table as each of its two boxes sees it, with the numbers of their variables.
#![tactic(auto)]

ghost use Rattle.std.specs.Prelude.{◌≡◌};
ghost use Rattle.table.specs.Words.{Accepted, PairStands};
ghost use Rattle.clause.specs.Ends.{one};
ghost use Rattle.sight.specs.Sight.{seen_of, turned_of};

use ends::Seen;

// As the first box sees the pair at the cursor.
#[tactic(auto, using(crate::proofs::Sight::head_first, crate::proofs::Sight::head_second, table::proofs::Tables::table_size))]
pub fn from_first(words: &[u32], at: usize) -> Seen
    requires { Accepted words.now × PairStands words.now at }
    ensures { result ≡ seen_of words.now at one }
{
    let pair = reader::pair_at(words, at);
    Seen {
        at,
        own: numbers::value_base(words, pair.first),
        mine: table::size(words, pair.first),
        other: numbers::value_base(words, pair.second),
        theirs: table::size(words, pair.second),
        turned: false,
    }
}

// The same pair as the other box sees it.
pub fn turned(seen: Seen) -> Seen
    ensures { result ≡ turned_of seen }
{
    Seen {
        at: seen.at,
        own: seen.other,
        mine: seen.theirs,
        other: seen.own,
        theirs: seen.mine,
        turned: true,
    }
}
