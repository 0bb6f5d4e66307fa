// Reads a house sheet into a lent table of words. The pairs are read twice, the first time into a table of one word, so that a refusal
// writes nothing.
#![tactic(auto)]

ghost use Rattle.std.specs.Prelude.{◌≡◌, ◌+◌, ◌≤◌, length};
ghost use Rattle.sheet_parts.specs.Reading.{values_at, Sized};
ghost use Rattle.sheet_in.specs.Parsed.{on_sizes, rest_at, parsed, read_of, table_left};

use refusal::Refusal;

// A sheet that was read: the hard part's and the side's number, and how many words the table has.
#[derive(Clone, Copy)]
pub struct ReadSheet {
    pub hard: u32,
    pub side: u32,
    pub words: usize,
}

// What follows the sizes. The pairs are judged before a word is stored.
fn read_rest(
    text: &[u8],
    at: usize,
    sizes: &[u32],
    hard: u32,
    side: u32,
    table: &mut [u32],
) -> Result<ReadSheet, Refusal>
    requires { Sized sizes.now × (at ≤ length text.now) × (length sizes.now + 5 ≤ at) }
    ensures { (result ≡ read_of (rest_at text.now hard side sizes.now at) (length table.old))
        × (table.new ≡ table_left (rest_at text.now hard side sizes.now at) table.old) }
{
    let n = sizes.len();
    let (p, from) = sheet_scan::pairs_line(text, at).ok_or(Refusal::Line(n + 4))?;
    let mut none = [0u32; 1];
    let first = n + 2;
    // Stays a match: that the faulty line's number fits is known here, and a closure under map_err would have to ask for it.
    match sheet_parts::read_pairs(text, from, sizes, p, &mut none, first) {
        Err(word) => Err(Refusal::Line(word + 3)),
        Ok((end, words)) => {
            if end < text.len() {
                return Err(Refusal::Line(words + 3));
            }
            if table.len() < words {
                return Err(Refusal::Room(words));
            }
            sheet_parts::fill(text, from, sizes, p, table);
            Ok(ReadSheet { hard, side, words })
        }
    }
}

// The sizes of `n` boxes and what follows them.
fn read_boxes(
    text: &[u8],
    at: usize,
    n: u32,
    hard: u32,
    side: u32,
    table: &mut [u32],
) -> Result<ReadSheet, Refusal>
    requires { (n ≤ 64) × (at ≤ length text.now) × (5 ≤ at) }
    ensures { (result ≡ read_of (on_sizes text.now hard side (values_at text.now n at)) (length table.old))
        × (table.new ≡ table_left (on_sizes text.now hard side (values_at text.now n at)) table.old) }
{
    let count = n as usize;
    let mut sizes = [0u32; 64];
    // Stays a match, as in read_rest.
    match sheet_parts::read_values(text, at, count, &mut sizes) {
        Err(word) => Err(Refusal::Line(word + 4)),
        Ok((next, _)) => read_rest(text, next, &sizes[..count], hard, side, table),
    }
}

// A whole sheet into the table: 13 at the first faulty line, then 9; a refusal writes nothing.
#[tactic(auto, using(crate::proofs::Answers::sizes_next, crate::proofs::Answers::three_lines))]
pub fn read_sheet(text: &[u8], table: &mut [u32]) -> Result<ReadSheet, Refusal>
    ensures { (result ≡ read_of (parsed text.now) (length table.old))
        × (table.new ≡ table_left (parsed text.now) table.old) }
{
    let (hard, a) = sheet_scan::hard_line(text, 0).ok_or(Refusal::Line(1))?;
    let (side, b) = sheet_scan::side_line(text, a).ok_or(Refusal::Line(2))?;
    let (n, values) = sheet_scan::boxes_line(text, b).ok_or(Refusal::Line(3))?;
    read_boxes(text, values, n, hard, side, table)
}
