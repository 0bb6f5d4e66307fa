// What knows nothing of boxes: laws on lists, sums, stores, bits and decimal digits stand in specs/ and proofs/.
// The code is the two readings of a word that every crate above shares.
#![tactic(auto)]

ghost use Rattle.std.specs.Prelude.{◌≡◌, ◌<◌, length, get_or};

// A word as a length or an index. A function and no `From`: Rust has none from u32 to usize, only the cast.
pub fn wide(x: u32) -> usize
    ensures { result ≡ x }
{
    x as usize
}

// The word at an index that is there. A function of its own, since an index in an expression asks two facts and a call one.
pub fn word(words: &[u32], at: usize) -> u32
    requires { at < length words.now }
    ensures { result ≡ get_or words.now at 0 }
{
    words[at]
}
