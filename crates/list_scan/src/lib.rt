// The list line of a text, found at its place.
#![tactic(auto)]

ghost use Rattle.std.specs.Prelude.{◌≡◌, cond, ◌-◌, ◌≤◌, drop, eqb};
ghost use Rattle.list_scan.specs.ListLines.{line_start_lem, bit_count_lem, line_found};

// What stands below the sheet: a list line with so many entries and nothing after it, no list line, or a list line and more.
// Three cases, of which two are faults on different lines: neither an Option nor a Result.
#[derive(Clone, Copy)]
pub enum ListLine {
    Entries(usize),
    Bad,
    More,
}

// How many lines are still to be passed after this byte.
fn passed(left: usize, byte: u8) -> usize
    requires { 1 ≤ left }
    ensures { result ≡ cond (eqb byte 10) (left - 1) left }
{
    left - usize::from(byte == b'\n')
}

// Where line number `line` begins; the end of the text if it has no such line.
#[tactic(auto, using(crate::proofs::ListLines::start_none, crate::proofs::ListLines::start_here, crate::proofs::ListLines::start_step))]
pub fn line_start(text: &[u8], line: usize) -> usize
    ensures { result ≡ line_start_lem line text.now }
{
    let mut left = line;
    for i in 0..text.len() {
        if left <= 1 {
            return i;
        }
        left = passed(left, text[i]);
    }
    text.len()
}

// How many characters 0 or 1 stand at `from`.
#[tactic(auto, using(crate::proofs::ListLines::count_none, crate::proofs::ListLines::count_low, crate::proofs::ListLines::count_high, crate::proofs::ListLines::count_step))]
fn bit_count(text: &[u8], from: usize) -> usize
    ensures { result ≡ bit_count_lem (drop from text.now) }
{
    let mut m = 0;
    for i in from..text.len() {
        if text[i] < b'0' || b'1' < text[i] {
            return m;
        }
        m += 1;
    }
    m
}

// The list line at `at`, up to the end of the text. Its characters are counted, and none is stored.
#[tactic(auto, using(crate::proofs::ListLines::line_bad, crate::proofs::ListLines::line_open, crate::proofs::ListLines::line_more, crate::proofs::ListLines::line_last, scan::proofs::Places::begins_long, crate::proofs::ListLines::count_ends))]
pub fn list_line(text: &[u8], at: usize) -> ListLine
    ensures { result ≡ line_found (drop at text.now) }
{
    if !scan::starts(text, at, b"list=") {
        return ListLine::Bad;
    }
    let from = at + 5;
    let m = bit_count(text, from);
    let feed = from + m;
    if !scan::starts(text, feed, b"\n") {
        return ListLine::Bad;
    }
    if feed + 1 < text.len() {
        return ListLine::More;
    }
    ListLine::Entries(m)
}
