// The row of an allow line put into a lent slice of bytes, as text_out puts a line; row_scan reads it back.
#![tactic(auto)]

ghost use Rattle.std.specs.Prelude.{◌+◌, ◌^◌, ◌<◌, length};
ghost use Rattle.lists.specs.Stores.{Wrote};
ghost use Rattle.text_out.specs.Texts.{bits_of, row_of};

// A character 0 or 1 for each of the values 1 to `m`, value 1 leftmost.
#[tactic(auto, using(crate::proofs::Bits::bits_begin, crate::proofs::Bits::bits_all))]
fn put_bits(out: &mut [u8], from: usize, m: u32, mask: u32) -> usize
    requires { from + m < 2 ^ 64 }
    ensures { Wrote out.old from (bits_of m mask) result out.new }
{
    let mut rest = mask;
    let mut at = from;
    for _ in 0..m {
        at = stores::put(out, at, 48 + (rest % 2) as u8);
        rest /= 2;
    }
    at
}

// A row: the key, a character for each of `m` values, a line feed.
#[tactic(auto, using(text_out::proofs::Texts::length_row, text_out::proofs::Texts::length_bits))]
pub fn put_row(out: &mut [u8], at: usize, key: &[u8], m: u32, mask: u32) -> usize
    requires { at + length (row_of key.now m mask) < 2 ^ 64 }
    ensures { Wrote out.old at (row_of key.now m mask) result out.new }
{
    let bits = stores::put_all(out, at, key);
    let end = put_bits(out, bits, m, mask);
    stores::put(out, end, 10)
}
