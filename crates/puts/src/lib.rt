// The stores of literals into lent buffers, of which every writer of clauses is made, as stores puts an entry.
#![tactic(auto)]

ghost use Rattle.std.specs.Prelude.{◌≡◌, [], ◌∷◌, ◌+◌, ◌^◌, ◌<◌, pos};
ghost use Rattle.lists.specs.Stores.{Wrote};
ghost use Rattle.puts.specs.Signed.{neg};

// A variable as a literal, and its negation.
fn literal(v: u32) -> i32
    requires { v < 2 ^ 31 }
    ensures { result ≡ pos v }
{
    v as i32
}

fn negation(v: u32) -> i32
    requires { v < 2 ^ 31 }
    ensures { result ≡ neg v }
{
    -(v as i32)
}

// The literal of a variable.
pub fn put_plus(out: &mut [i32], at: usize, v: u32) -> usize
    requires { (at + 1 < 2 ^ 64) × (v < 2 ^ 31) }
    ensures { Wrote out.old at (pos v ∷ []) result out.new }
{
    stores::put(out, at, literal(v))
}

// The literal of its negation.
pub fn put_minus(out: &mut [i32], at: usize, v: u32) -> usize
    requires { (at + 1 < 2 ^ 64) × (v < 2 ^ 31) }
    ensures { Wrote out.old at (neg v ∷ []) result out.new }
{
    stores::put(out, at, negation(v))
}

// The 0 that closes a clause.
pub fn put_close(out: &mut [i32], at: usize) -> usize
    requires { at + 1 < 2 ^ 64 }
    ensures { Wrote out.old at (pos 0 ∷ []) result out.new }
{
    put_plus(out, at, 0)
}
