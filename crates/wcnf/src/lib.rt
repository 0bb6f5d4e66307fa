// The lines of clauses in WCNF text (specs/), put into a lent slice of bytes from clauses as they stand in a clause list.
#![tactic(auto)]

ghost use Rattle.std.specs.Prelude.{◌≡◌, ◌+◌, ◌*◌, ◌^◌, ◌≤◌, ◌<◌, length, take, nat_abs};
ghost use Rattle.lists.specs.Stores.{Wrote};
ghost use Rattle.lists.specs.Decimal.{signed};
ghost use Rattle.wcnf.specs.Entries.{sign, opening, ending, entry_text, entries_text};

#[tactic(auto, using(crate::proofs::Signed::sign_below, crate::proofs::Signed::sign_above, lists::proofs::Stores::wrote_none))]
fn put_sign(out: &mut [u8], at: usize, v: i32) -> usize
    requires { at + length (sign v) < 2 ^ 64 }
    ensures { Wrote out.old at (sign v) result out.new }
{
    if v < 0 {
        return stores::put(out, at, 45);
    }
    at
}

// A signed number.
#[tactic(auto, using(crate::proofs::Signed::back, crate::proofs::Signed::signed_parts, crate::proofs::Signed::signed_long, lists::proofs::Stores::wrote_append))]
fn put_signed(out: &mut [u8], at: usize, v: i32) -> usize
    requires { at + length (signed v) < 2 ^ 64 }
    ensures { Wrote out.old at (signed v) result out.new }
{
    let number = put_sign(out, at, v);
    text_out::put_number(out, number, v.unsigned_abs() as u64)
}

// The weight, where the entry before closes a clause.
#[tactic(auto, using(crate::proofs::Signed::zero_is, crate::proofs::Signed::zero_not, crate::proofs::Signed::opens, crate::proofs::Signed::goes_on, lists::proofs::Stores::wrote_none))]
fn put_opening(out: &mut [u8], at: usize, weight: u64, past: i32) -> usize
    requires { at + length (opening weight past) < 2 ^ 64 }
    ensures { Wrote out.old at (opening weight past) result out.new }
{
    if past == 0 {
        return text_out::put_number(out, at, weight);
    }
    at
}

// An entry after its space: a literal, or the 0 that closes its clause and ends the line.
#[tactic(auto, using(crate::proofs::Signed::back, crate::proofs::Signed::zero_is, crate::proofs::Signed::zero_not, crate::proofs::Signed::closes, crate::proofs::Signed::stays))]
fn put_ending(out: &mut [u8], at: usize, v: i32) -> usize
    requires { at + length (ending v) < 2 ^ 64 }
    ensures { Wrote out.old at (ending v) result out.new }
{
    if v == 0 {
        return stores::put_all(out, at, b"0\n");
    }
    put_signed(out, at, v)
}

// An entry that follows the entry `past`.
#[tactic(auto, using(crate::proofs::Signed::back, crate::proofs::Lines::length_entry))]
fn put_entry(out: &mut [u8], at: usize, weight: u64, past: i32, v: i32) -> usize
    requires { at + length (entry_text weight past v) < 2 ^ 64 }
    ensures { Wrote out.old at (entry_text weight past v) result out.new }
{
    let space = put_opening(out, at, weight, past);
    let number = stores::put(out, space, 32);
    put_ending(out, number, v)
}

// A line for each clause of `part`, all of one weight. No entry takes more than 64 bytes.
#[tactic(auto, using(crate::proofs::Lines::lined_all, crate::proofs::Lines::entry_short, crate::proofs::Signed::back))]
fn put_lines(out: &mut [u8], from: usize, weight: u64, part: &[i32]) -> usize
    requires { from + 64 * length part.now < 2 ^ 64 }
    ensures { Wrote out.old from (entries_text weight part.now) result out.new
        × (result ≤ from + 64 * length part.now) }
{
    let mut at = from;
    let mut past = 0;
    for v in part {
        at = put_entry(out, at, weight, past, *v);
        past = *v;
    }
    at
}

// A line for each clause of the first `long` entries, all of one weight.
pub fn put_clauses(out: &mut [u8], from: usize, weight: u64, entries: &[i32], long: usize) -> usize
    requires { (long ≤ length entries.now) × (from + 64 * long < 2 ^ 64) }
    ensures { Wrote out.old from (entries_text weight (take long entries.now)) result out.new × (result ≤ from + 64 * long) }
{
    put_lines(out, from, weight, &entries[..long])
}
