// A row of 0 and 1 characters, value 1 leftmost, found in a slice of bytes at a place: the line of a pair that says which values go together.
#![tactic(auto)]

ghost use Rattle.std.specs.Prelude.{◌≡◌, true, ◌+◌, ◌-◌, ◌≤◌, get_or, drop};
ghost use Rattle.row_scan.specs.Rows.{is_row, value_of, row_at};

// Whether `m` characters 0 or 1 and a line feed stand at `at`.
#[tactic(auto, using(crate::proofs::Rows::row_none, crate::proofs::Rows::row_last, crate::proofs::Rows::row_low, crate::proofs::Rows::row_high, crate::proofs::Rows::row_step))]
fn is_row(s: &[u8], at: usize, m: usize) -> bool
    ensures { result ≡ is_row m (drop at s.now) }
{
    let mut left = m;
    for i in at..s.len() {
        let c = s[i];
        if left == 0 {
            return c == b'\n';
        }
        if c < b'0' || b'1' < c {
            return false;
        }
        left -= 1;
    }
    false
}

// The mask of the row that stands at `at`, from its last character, which is the highest bit, to its first.
#[tactic(auto, using(crate::proofs::Rows::value_none, crate::proofs::Rows::turn_in))]
fn mask_of(s: &[u8], at: usize, m: usize) -> u32
    requires row_stands { is_row m (drop at s.now) ≡ true }
    requires few_bits { m ≤ 32 }
    ensures { result ≡ value_of m (drop at s.now) }
{
    let mut v = 0;
    for j in (0..m).rev() {
        v = v * 2 + u32::from(s[at + j] - b'0');
    }
    v
}

// The line `key` with a row of `m` values.
#[tactic(auto, using(scan::proofs::Places::begins_long, crate::proofs::Rows::row_ends), unfolding(crate::specs::Rows::row_at, scan::specs::Lines::gate))]
pub fn row_line(s: &[u8], at: usize, key: &[u8], m: usize) -> Option<(u32, usize)>
    requires { m ≤ 32 }
    ensures { result ≡ row_at s.now at key.now m }
{
    if !scan::starts(s, at, key) {
        return None;
    }
    let past = at + key.len();
    if !is_row(s, past, m) {
        return None;
    }
    Some((mask_of(s, past, m), past + m + 1))
}
