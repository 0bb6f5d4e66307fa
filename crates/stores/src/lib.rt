// Entries put into lent slices. A cursor goes in and the next one comes out; what is past the slice's end moves the cursor alone, so that the
// same function measures and writes, and what is written never depends on what was judged about the room.
#![tactic(auto)]

ghost use Rattle.std.specs.Prelude.{[], ◌∷◌, ◌+◌, ◌^◌, ◌<◌, length};
ghost use Rattle.lists.specs.Stores.{Wrote};

#[tactic(auto, using(lists::proofs::Stores::wrote_out))]
pub fn put<T: Copy>(out: &mut [T], at: usize, v: T) -> usize
    requires { at + 1 < 2 ^ 64 }
    ensures { Wrote out.old at (v ∷ []) result out.new }
{
    if at < out.len() {
        out[at] = v;
        return at + 1;
    }
    at + 1
}

// All entries of `source`.
#[tactic(auto, using(lists::proofs::Stores::copied_none, lists::proofs::Stores::copied_turn, lists::proofs::Stores::copied_all))]
pub fn put_all<T: Copy>(out: &mut [T], from: usize, source: &[T]) -> usize
    requires { from + length source.now < 2 ^ 64 }
    ensures { Wrote out.old from source.now result out.new }
{
    let mut at = from;
    for v in source {
        at = put(out, at, *v);
    }
    at
}
