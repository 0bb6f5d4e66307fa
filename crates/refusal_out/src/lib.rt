// The line that either program prints of a refusal, put into a lent slice of bytes as text_out puts.
#![tactic(auto)]

ghost use Rattle.std.specs.Prelude.{◌+◌, ◌^◌, ◌<◌};
ghost use Rattle.lists.specs.Stores.{Wrote};
ghost use Rattle.refusal_out.specs.Refused.{refused_line};

use refusal::Refusal;

// At most 38 bytes.
pub fn put_refused(out: &mut [u8], at: usize, f: Refusal) -> usize
    requires { at + 38 < 2 ^ 64 }
    ensures { Wrote out.old at (refused_line f) result out.new }
{
    let number = refusal::number(f) as u64;
    let place = refusal::place(f) as u64;
    let one = stores::put_all(out, at, b"refused=");
    let two = text_out::put_number(out, one, number);
    text_out::put_line(out, two, b" place=", place)
}
