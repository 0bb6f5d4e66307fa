// The whole WCNF text of a table from the lines of its boxes and pairs, into a lent slice of bytes. Its length is taken by the same
// function, lent one byte and scratch of its own.
#![tactic(auto)]

ghost use Rattle.std.specs.Prelude.{◌≡◌, ◌+◌, ◌^◌, ◌≤◌, ◌<◌, length};
ghost use Rattle.lists.specs.Stores.{Wrote};
ghost use Rattle.table.specs.Words.{box_count, table_of, Accepted};
ghost use Rattle.table.specs.Answers.{Counted};
ghost use Rattle.table.specs.Checked.{table_in};
ghost use Rattle.clause.specs.Ends.{one, two};
ghost use Rattle.clause.specs.List.{hard_part, soft_part};
ghost use Rattle.clause.specs.Lengths.{scratch_length, top};
ghost use Rattle.measure.specs.Measures.{lengths_for};
ghost use Rattle.parts.specs.Parts.{scratch_through};
ghost use Rattle.wcnf.specs.Wcnf.{lines_of, body_text};
ghost use Rattle.wcnf_text.specs.Text.{text_of};

use clause::{Encoding, Hard, Side};
use measure::Lengths;
use table::{Checked, Counts};

// The lines of the boxes.
fn put_boxes(
    words: &[u32],
    n: u32,
    part: Hard,
    top: u64,
    clauses: &mut [i32],
    text: &mut [u8],
    from: usize,
) -> usize
    requires { Accepted words.now
        × (n ≡ box_count words.now)
        × (1024 ≤ length clauses.old)
        × (from + 4194304 < 2 ^ 64) }
    ensures { Wrote text.old from (lines_of top (hard_part part (table_of words.now))) result text.new
        × (length clauses.new ≡ length clauses.old)
        × (result ≤ from + 4194304) }
{
    let mut at = from;
    for b in 1..=n {
        at = wcnf_parts::put_box(words, n, part, b, top, clauses, text, at);
    }
    at
}

// The lines of the pairs.
#[tactic(auto, using(parts::proofs::Writing::head_inside, parts::proofs::Writing::boxes_few, table::proofs::Words::ahead_turn, numbers::proofs::Counted::bases_few))]
fn put_pairs(
    table: Checked,
    part: Hard,
    side: Side,
    first: &mut [i32],
    second: &mut [i32],
    clauses: &mut [i32],
    text: &mut [u8],
    from: usize,
) -> usize
    requires { (scratch_length side one (table_in table) ≤ length first.old)
        × (scratch_length side two (table_in table) ≤ length second.old)
        × (1024 ≤ length clauses.old)
        × (from + 16777216 < 2 ^ 64) }
    ensures { Wrote text.old from
        (body_text (top (table_in table.entry)) (soft_part part side (table_in table.entry)))
        result text.new
        × (first.new ≡ scratch_through side one (table_in table.entry) (table_in table.entry).pairs first.old)
        × (second.new ≡ scratch_through side two (table_in table.entry) (table_in table.entry).pairs second.old)
        × (result ≤ from + 16777216) }
{
    let words = table.words;
    let p = table.counts.pairs;
    let n = lists::word(words, 0);
    let mut switch = numbers::switch_base(words, n, part);
    let mut end = from;
    let mut at = table.counts.boxes + 2;
    for _ in 0..p {
        switch += 1;
        end = wcnf_parts::put_pair(words, side, switch, at, first, second, clauses, text, end);
        at = totals::next_pair(words, at);
    }
    end
}

// The whole text.
#[tactic(auto, using(parts::proofs::Writing::head_inside))]
pub fn put_text(
    words: &[u32],
    counts: Counts,
    e: Encoding,
    needed: Lengths,
    first: &mut [i32],
    second: &mut [i32],
    text: &mut [u8],
) -> usize
    requires { Counted words.now counts
        × (needed ≡ lengths_for e (table_of words.now))
        × (scratch_length e.side one (table_of words.now) ≤ length first.old)
        × (scratch_length e.side two (table_of words.now) ≤ length second.old) }
    ensures { Wrote text.old 0 (text_of e (table_of words.now)) result text.new
        × (first.new
        ≡ scratch_through e.side one (table_of words.now) (table_of words.now).pairs first.old)
        × (second.new
        ≡ scratch_through e.side two (table_of words.now) (table_of words.now).pairs second.old) }
{
    let part = e.hard;
    let side = e.side;
    let n = lists::word(words, 0);
    let mut clauses = [0i32; 1024];
    let variables = needed.variables as u64;
    let count = needed.clauses as u64;
    let boxes = wcnf_header::put_header(text, 0, variables, count, needed.top);
    let pairs = put_boxes(words, n, part, needed.top, &mut clauses, text, boxes);
    put_pairs(
        Checked { words, counts },
        part,
        side,
        first,
        second,
        &mut clauses,
        text,
        pairs,
    )
}

// How long the text is. Nothing that is lent is touched.
pub fn text_length(words: &[u32], counts: Counts, e: Encoding, needed: Lengths) -> usize
    requires { Counted words.now counts × (needed ≡ lengths_for e (table_of words.now)) }
    ensures { result ≡ length (text_of e (table_of words.now)) }
{
    let mut first = [0i32; 1024];
    let mut second = [0i32; 1024];
    let mut none = [0u8; 1];
    put_text(words, counts, e, needed, &mut first, &mut second, &mut none)
}
