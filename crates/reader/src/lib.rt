// Reads an accepted table pair by pair with a cursor, the index of a pair's first word. No mask is copied.
#![tactic(auto)]

ghost use Rattle.std.specs.Prelude.{◌≡◌};
ghost use Rattle.table.specs.Words.{PairStands};
ghost use Rattle.reader.specs.Reader.{head_at_lem, stepped};

// A pair but for its masks, and the cursor before the next pair.
#[derive(Clone, Copy)]
pub struct PairHead {
    pub first: u32,
    pub second: u32,
    pub weight: u32,
    pub next: usize,
}

// A reader over a lent table: its words, and the cursor before the pair that comes next.
#[derive(Clone, Copy)]
pub struct Reader<'a> {
    pub words: &'a [u32],
    pub at: usize,
}

// What is read of the pair at `at`. The reader leaves the reading to this function, over a plain slice.
#[tactic(auto, unfolding(table::specs::Words::pair_at, table::specs::Words::pair_next))]
fn head_at(words: &[u32], at: usize) -> PairHead
    requires { PairStands words.now at }
    ensures { result ≡ head_at_lem words.now at }
{
    let first = lists::word(words, at);
    let second = lists::word(words, at + 1);
    let weight = lists::word(words, at + 2);
    let masks = at + 3;
    let next = masks + lists::wide(table::size(words, first));
    PairHead {
        first,
        second,
        weight,
        next,
    }
}

// A reader before the pair at `at`.
pub fn reader_at<'a>(words: &'a [u32], at: usize) -> Reader<'a>
    ensures { (result.words ≡ words.entry) × (result.at ≡ at) }
{
    Reader { words, at }
}

// The pair that comes next; the reader then stands before the one after it.
pub fn step<'s, 'a>(reader: &'s mut Reader<'a>) -> PairHead
    requires { PairStands reader.old.words.now reader.old.at }
    ensures { (result ≡ head_at_lem reader.old.words.now reader.old.at) × (reader.new ≡ stepped reader.old) }
{
    let head = head_at(reader.words, reader.at);
    reader.at = head.next;
    head
}

// The pair at the cursor `at`, for those who hold no reader.
pub fn pair_at(words: &[u32], at: usize) -> PairHead
    requires { PairStands words.now at }
    ensures { result ≡ head_at_lem words.now at }
{
    let mut reader = reader_at(words, at);
    step(&mut reader)
}
