// Text found in a slice of bytes at a place. The grammar is what is written (text_out): a line is found exactly where its text stands.
// Reading a line gives its number and the index past it, or nothing where no such line stands.
#![tactic(auto)]

ghost use Rattle.std.specs.Prelude.{◌≡◌, ◌<◌, drop};
ghost use Rattle.scan.specs.Stands.{begins};
ghost use Rattle.scan.specs.Lines.{digits_at_lem, number_at, line_at, word_at};

// Whether all of `t` stands in `s` from index `at` on.
#[tactic(auto, using(crate::proofs::Places::starts_begins))]
pub fn starts(s: &[u8], at: usize, t: &[u8]) -> bool
    ensures { result ≡ begins t.now (drop at s.now) }
{
    // Past the end nothing is left, and only the empty text stands there.
    let from = at.min(s.len());
    s[from..].starts_with(t)
}

// A number from `low` to `high` at `at`, and the byte `stop` that closes it.
#[tactic(auto, using(crate::proofs::Lines::number_none, crate::proofs::Lines::number_low, crate::proofs::Lines::number_high, crate::proofs::Lines::number_first))]
fn number_at(s: &[u8], at: usize, stop: u8, low: u32, high: u32) -> Option<(u32, usize)>
    ensures { result ≡ number_at stop low high at (drop at s.now) }
{
    let b = *s.get(at)?;
    if !b.is_ascii_digit() {
        return None;
    }
    digits_at(s, at + 1, stop, low, high, u64::from(b - b'0'))
}

// The rest of a number whose first digit is `first`. A digit after a 0 is a leading zero's, and no number.
#[tactic(auto, using(crate::proofs::Lines::rest_none, crate::proofs::Lines::rest_over, crate::proofs::Lines::rest_under, crate::proofs::Lines::rest_end, crate::proofs::Lines::rest_low, crate::proofs::Lines::rest_high, crate::proofs::Lines::rest_zero, crate::proofs::Lines::rest_step))]
fn digits_at(
    s: &[u8],
    from: usize,
    stop: u8,
    low: u32,
    high: u32,
    first: u64,
) -> Option<(u32, usize)>
    requires { first < 10 }
    ensures { result ≡ digits_at_lem stop low high first from (drop from s.now) }
{
    let mut v = first;
    for i in from..s.len() {
        if u64::from(high) < v {
            return None;
        }
        let c = s[i];
        if c == stop {
            if v < u64::from(low) {
                return None;
            }
            return Some((v as u32, i + 1));
        }
        if v == 0 || !c.is_ascii_digit() {
            return None;
        }
        v = v * 10 + u64::from(c - b'0');
    }
    None
}

// The line `key` with a number from `low` to `high`.
#[tactic(auto, using(crate::proofs::Places::begins_long), unfolding(crate::specs::Lines::line_at, crate::specs::Lines::gate))]
pub fn number_line(s: &[u8], at: usize, key: &[u8], low: u32, high: u32) -> Option<(u32, usize)>
    ensures { result ≡ line_at s.now at key.now low high }
{
    if !starts(s, at, key) {
        return None;
    }
    number_at(s, at + key.len(), b'\n', low, high)
}

// A whole line that is known by heart: `v` where `t` stands at `at`, else what was found for the other words.
#[tactic(auto, using(crate::proofs::Places::begins_long), unfolding(crate::specs::Lines::word_at, crate::specs::Lines::either))]
pub fn word_line(
    s: &[u8],
    at: usize,
    t: &[u8],
    v: u32,
    other: Option<(u32, usize)>,
) -> Option<(u32, usize)>
    ensures { result ≡ word_at s.now at t.now v other }
{
    if starts(s, at, t) {
        return Some((v, at + t.len()));
    }
    other
}
