// Text put into a lent slice of bytes: numbers and lines, as stores puts a byte.
#![tactic(auto)]

ghost use Rattle.std.specs.Prelude.{◌+◌, ◌^◌, ◌<◌, length};
ghost use Rattle.lists.specs.Stores.{Wrote};
ghost use Rattle.lists.specs.Decimal.{digits};
ghost use Rattle.text_out.specs.Texts.{line_of};

// The decimal digits of a number, without leading zeros.
#[tactic(auto, using(lists::proofs::Decimal::length_small, lists::proofs::Decimal::length_big, lists::proofs::Decimal::digits_small))]
pub fn put_number(out: &mut [u8], at: usize, n: u64) -> usize
    requires { at + length (digits n) < 2 ^ 64 }
    ensures { Wrote out.old at (digits n) result out.new }
{
    if n < 10 {
        return stores::put(out, at, 48 + n as u8);
    }
    let last = put_number(out, at, n / 10);
    stores::put(out, last, 48 + (n % 10) as u8)
}

// A line: the key, a number, a line feed.
#[tactic(auto, using(crate::proofs::Texts::length_line))]
pub fn put_line(out: &mut [u8], at: usize, key: &[u8], n: u64) -> usize
    requires { at + length (line_of key.now n) < 2 ^ 64 }
    ensures { Wrote out.old at (line_of key.now n) result out.new }
{
    let number = stores::put_all(out, at, key);
    let feed = put_number(out, number, n);
    stores::put(out, feed, 10)
}
