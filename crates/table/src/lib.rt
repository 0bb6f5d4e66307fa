// The table of boxes and weighted pairs: what its words mean (specs/), what their check answers, and a box's domain size.
#![tactic(auto)]

ghost use Rattle.std.specs.Prelude.{◌≡◌};
ghost use Rattle.table.specs.Words.{size_at, BoxStands};
ghost use Rattle.table.specs.Answers.{Counted};

// How many boxes and pairs a table has.
#[derive(Clone, Copy)]
pub struct Counts {
    pub boxes: usize,
    pub pairs: usize,
}

// A table that was checked: its words, and how many boxes and pairs it has. That they are a table's, and these its counts, stands in it.
#[derive(Clone, Copy)]
pub struct Checked<'a> {
    pub words: &'a [u32],
    pub counts: Counts,
    ghost counted: { Counted words.now counts },
}

// The domain size of a box.
pub fn size(words: &[u32], b: u32) -> u32
    requires { BoxStands words.now b }
    ensures { result ≡ size_at words.now b }
{
    lists::word(words, lists::wide(b) + 1)
}
