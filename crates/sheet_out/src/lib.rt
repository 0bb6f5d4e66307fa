// Writes the house sheet of a table. The sheet is measured first, by the same function lent one byte, so that a refusal writes nothing.
#![tactic(auto)]

ghost use Rattle.std.specs.Prelude.{◌≡◌, ◌+◌, ◌^◌, ◌<◌, length};
ghost use Rattle.lists.specs.Stores.{Wrote};
ghost use Rattle.table.specs.Words.{pair_at, pairs_at, table_of, PairStands, Ahead};
ghost use Rattle.table.specs.Checked.{table_in};
ghost use Rattle.reader.specs.Reader.{head_at_lem};
ghost use Rattle.sheet.specs.Sheet.{values_text, rows_text, pair_text, pairs_text, body_text, sheet_text};
ghost use Rattle.sheet_out.specs.Written.{of_table, sheet_of, written_of, text_left};

use clause::Encoding;
use reader::PairHead;
use refusal::Refusal;
use table::Checked;

// A line for each domain size.
#[tactic(auto, using(text_out::proofs::Listed::listed_none, text_out::proofs::Listed::listed_room, text_out::proofs::Listed::listed_all), unfolding(sheet::specs::Sheet::values_text))]
fn put_values(text: &mut [u8], from: usize, sizes: &[u32]) -> usize
    requires { from + length (values_text sizes.now) < 2 ^ 64 }
    ensures { Wrote text.old from (values_text sizes.now) result text.new }
{
    let mut at = from;
    for m in sizes {
        at = sheet::put_size(text, at, *m);
    }
    at
}

// A line for each mask, with a character for each of `m` values.
#[tactic(auto, using(text_out::proofs::Listed::listed_none, text_out::proofs::Listed::listed_room, text_out::proofs::Listed::listed_all), unfolding(sheet::specs::Sheet::rows_text))]
fn put_rows(text: &mut [u8], from: usize, m: u32, masks: &[u32]) -> usize
    requires { from + length (rows_text m masks.now) < 2 ^ 64 }
    ensures { Wrote text.old from (rows_text m masks.now) result text.new }
{
    let mut at = from;
    for mask in masks {
        at = sheet::put_allow(text, at, m, *mask);
    }
    at
}

// The lines of the pair at the cursor.
#[tactic(auto, using(crate::proofs::Parts::head_next, crate::proofs::Parts::pair_long))]
fn put_pair(text: &mut [u8], at: usize, words: &[u32], cursor: usize, pair: PairHead) -> usize
    requires { PairStands words.now cursor
        × (pair ≡ head_at_lem words.now cursor)
        × (at + length (pair_text (table_of words.now).sizes (pair_at words.now cursor)) < 2 ^ 64) }
    ensures { Wrote text.old at (pair_text (table_of words.now).sizes (pair_at words.now cursor)) result text.new }
{
    let second = pair.second;
    let masks = cursor + 3;
    let next = pair.next;
    let rows = sheet::put_head(text, at, pair.first, second, pair.weight);
    put_rows(text, rows, table::size(words, second), &words[masks..next])
}

// The lines of the `p` pairs from the cursor on.
#[tactic(auto, using(crate::proofs::Parts::paired_none, crate::proofs::Parts::paired_stands, crate::proofs::Parts::paired_all))]
fn put_pairs(text: &mut [u8], from: usize, words: &[u32], first: usize, p: usize) -> usize
    requires { Ahead words.now p first × (from + length (pairs_text (table_of words.now).sizes (pairs_at words.now p first)) < 2 ^ 64) }
    ensures { Wrote text.old from (pairs_text (table_of words.now).sizes (pairs_at words.now p first)) result text.new }
{
    let mut at = from;
    let mut cursor = first;
    for _ in 0..p {
        let pair = reader::pair_at(words, cursor);
        at = put_pair(text, at, words, cursor, pair);
        cursor = pair.next;
    }
    at
}

// What follows the lines of the two choices.
#[tactic(auto, using(crate::proofs::Parts::begun, crate::proofs::Parts::body_long))]
fn put_body(text: &mut [u8], at: usize, table: Checked) -> usize
    requires { at + length (body_text (table_in table)) < 2 ^ 64 }
    ensures { Wrote text.old at (body_text (table_in table.entry)) result text.new }
{
    let words = table.words;
    let n = table.counts.boxes;
    let p = table.counts.pairs;
    let first = n + 2;
    let values = sheet::put_boxes(text, at, n as u32);
    let count = put_values(text, values, &words[2..first]);
    let pairs = sheet::put_count(text, count, p as u32);
    put_pairs(text, pairs, words, first, p)
}

fn put_sheet(text: &mut [u8], table: Checked, encoding: Encoding) -> usize
    ensures { Wrote text.old 0 (sheet_text encoding.hard encoding.side (table_in table.entry)) result text.new }
{
    let hard = encoding.hard;
    let side = encoding.side;
    let second = sheet::put_hard(text, 0, hard);
    let body = sheet::put_side(text, second, side);
    put_body(text, body, table)
}

// The answer over an accepted table.
#[tactic(auto, using(crate::proofs::Answers::too_short, crate::proofs::Answers::long_enough))]
fn write_table(table: Checked, encoding: Encoding, text: &mut [u8]) -> Result<usize, Refusal>
    ensures { (result ≡ written_of (of_table encoding (table_in table.entry)) (length text.old))
        × (text.new ≡ text_left (of_table encoding (table_in table.entry)) text.old) }
{
    let mut none = [0u8; 1];
    let needed = put_sheet(&mut none, table, encoding);
    if text.len() < needed {
        return Err(Refusal::Room(needed));
    }
    put_sheet(text, table, encoding);
    Ok(needed)
}

// The sheet of a table with its hard part's and its side's number: 8, then the table's 1 to 7, then 9; a refusal writes nothing.
#[tactic(auto, using(asked::proofs::Answers::asked_refused, asked::proofs::Answers::asked_ready), unfolding(crate::specs::Written::sheet_of))]
pub fn write_sheet(words: &[u32], hard: u32, side: u32, text: &mut [u8]) -> Result<usize, Refusal>
    ensures { (result ≡ written_of (sheet_of words.now hard side) (length text.old))
        × (text.new ≡ text_left (sheet_of words.now hard side) text.old) }
{
    let (encoding, counts) = asked::ask(words, hard, side)?;
    write_table(Checked { words, counts }, encoding, text)
}
