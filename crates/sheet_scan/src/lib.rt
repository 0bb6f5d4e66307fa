// The lines of the house sheet found in a text, each at its place.
#![tactic(auto)]

ghost use Rattle.std.specs.Prelude.{◌≡◌, ◌≤◌};
ghost use Rattle.scan.specs.Lines.{line_at};
ghost use Rattle.row_scan.specs.Rows.{row_at};
ghost use Rattle.sheet.specs.Keys.{boxes_key, values_key, pairs_key, first_key, weight_key, allow_key};
ghost use Rattle.sheet_scan.specs.Found.{hard_at, side_at, other_than_lem, second_at};

// The hard part's number.
#[tactic(auto, unfolding(crate::specs::Found::hard_at, sheet::specs::Keys::hard_line_lem))]
pub fn hard_line(text: &[u8], at: usize) -> Option<(u32, usize)>
    ensures { result ≡ hard_at text.now at }
{
    let regular = scan::word_line(text, at, b"hard=regular\n", 1, None);
    scan::word_line(text, at, b"hard=standard\n", 0, regular)
}

// The side's number.
#[tactic(auto, unfolding(crate::specs::Found::side_at, sheet::specs::Keys::side_line_lem))]
pub fn side_line(text: &[u8], at: usize) -> Option<(u32, usize)>
    ensures { result ≡ side_at text.now at }
{
    let score = scan::word_line(text, at, b"side=score\n", 5, None);
    let literals = scan::word_line(text, at, b"side=literals\n", 4, score);
    let first = scan::word_line(text, at, b"side=first\n", 3, literals);
    let support = scan::word_line(text, at, b"side=support\n", 2, first);
    scan::word_line(text, at, b"side=direct\n", 1, support)
}

pub fn boxes_line(text: &[u8], at: usize) -> Option<(u32, usize)>
    ensures { result ≡ line_at text.now at boxes_key 1 64 }
{
    scan::number_line(text, at, b"boxes=", 1, 64)
}

pub fn values_line(text: &[u8], at: usize) -> Option<(u32, usize)>
    ensures { result ≡ line_at text.now at values_key 1 16 }
{
    scan::number_line(text, at, b"values=", 1, 16)
}

pub fn pairs_line(text: &[u8], at: usize) -> Option<(u32, usize)>
    ensures { result ≡ line_at text.now at pairs_key 0 256 }
{
    scan::number_line(text, at, b"pairs=", 0, 256)
}

pub fn first_line(text: &[u8], at: usize, n: u32) -> Option<(u32, usize)>
    ensures { result ≡ line_at text.now at first_key 1 n }
{
    scan::number_line(text, at, b"first=", 1, n)
}

// What was found, if it is not the number `first`.
#[tactic(auto, unfolding(crate::specs::Found::other_than_lem, scan::specs::Lines::either))]
fn other_than(first: u32, line: Option<(u32, usize)>) -> Option<(u32, usize)>
    ensures { result ≡ other_than_lem first line }
{
    line.filter(|&(v, _)| v != first)
}

// The second box of a pair, which differs from its first.
#[tactic(auto, unfolding(crate::specs::Found::second_at))]
pub fn second_line(text: &[u8], at: usize, n: u32, first: u32) -> Option<(u32, usize)>
    ensures { result ≡ second_at text.now n first at }
{
    other_than(first, scan::number_line(text, at, b"second=", 1, n))
}

pub fn weight_line(text: &[u8], at: usize) -> Option<(u32, usize)>
    ensures { result ≡ line_at text.now at weight_key 1 1000000 }
{
    scan::number_line(text, at, b"weight=", 1, 1000000)
}

// The mask of one value of the first box, over the second box's `m` values.
pub fn allow_line(text: &[u8], at: usize, m: usize) -> Option<(u32, usize)>
    requires { m ≤ 32 }
    ensures { result ≡ row_at text.now at allow_key m }
{
    row_scan::row_line(text, at, b"allow=", m)
}
