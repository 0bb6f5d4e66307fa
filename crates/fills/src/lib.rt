// Lent buffers filled with one value: scratch with zeros, and a run of equal entries. As in stores, what is past the buffer's end moves the
// cursor alone.
#![tactic(auto)]

ghost use Rattle.std.specs.Prelude.{◌≡◌, ◌+◌, ◌^◌, ◌<◌, replicate};
ghost use Rattle.lists.specs.Stores.{Wrote};
ghost use Rattle.fills.specs.Zeros.{zeros};

// Every entry becomes 0.
#[tactic(auto, using(crate::proofs::Fills::all_zero))]
pub fn clear(s: &mut [i32])
    ensures { s.new ≡ zeros s.old }
{
    s.fill(0);
}

// The same value `count` times: the weight of a part's clauses, or the zeros of what is left out.
#[tactic(auto, using(crate::proofs::Fills::run_none, crate::proofs::Fills::run_all))]
pub fn put_run<T: Copy>(out: &mut [T], from: usize, v: T, count: usize) -> usize
    requires { from + count < 2 ^ 64 }
    ensures { Wrote out.old from (replicate count v) result out.new }
{
    let mut at = from;
    for _ in 0..count {
        at = stores::put(out, at, v);
    }
    at
}
