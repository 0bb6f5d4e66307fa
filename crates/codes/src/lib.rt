// A refusal as one number, for a program in another language.
#![tactic(auto)]

ghost use Rattle.std.specs.Prelude.{◌≡◌, min};
ghost use Rattle.refusal.specs.Refusals.{refusal_says};
ghost use Rattle.codes.specs.Codes.{code_of};

use refusal::Refusal;

// A place as a code holds it.
fn place_code(place: usize) -> u64
    ensures { result ≡ min place 72057594037927935 }
{
    (place as u64).min(72057594037927935)
}

// A refusal's number in the top byte, its place in the seven below.
pub fn code(f: Refusal) -> u64
    ensures { result ≡ code_of (refusal_says f) }
{
    let number = refusal::number(f) as u64;
    number * 72057594037927936 + place_code(refusal::place(f))
}
