// What a pair of an accepted table allows, read from its masks where they stand.
#![tactic(auto)]

ghost use Rattle.std.specs.Prelude.{◌≡◌, ◌+◌, get_or};
ghost use Rattle.lists.specs.Lists.{nth};
ghost use Rattle.table.specs.Table.{allowed, In};
ghost use Rattle.table.specs.Words.{size_at, pair_at, PairStands};

// The mask of value `i` of the first box of the pair at `at`.
#[tactic(auto, using(table::proofs::Tables::pair_mask))]
fn mask_at(words: &[u32], at: usize, i: u32) -> u32
    requires { PairStands words.now at × In 1 (size_at words.now (get_or words.now at 0)) i }
    ensures { result ≡ nth (pair_at words.now at).masks i }
{
    lists::word(words, at + 2 + lists::wide(i))
}

// Whether value `i` of the first box and value `j` of the second are allowed together by the pair at `at`.
#[tactic(auto, unfolding(table::specs::Table::allowed, lists::specs::Bits::in_mask))]
pub fn allows(words: &[u32], at: usize, i: u32, j: u32) -> bool
    requires { PairStands words.now at
        × In 1 (size_at words.now (get_or words.now at 0)) i
        × In 1 (size_at words.now (get_or words.now (at + 1) 0)) j }
    ensures { result ≡ allowed (pair_at words.now at) i j }
{
    let mask = mask_at(words, at, i);
    let bit = (mask >> (j - 1)) % 2;
    bit == 1
}
