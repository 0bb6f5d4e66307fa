// The header of WCNF text, put into a lent slice of bytes.
#![tactic(auto)]

ghost use Rattle.std.specs.Prelude.{◌+◌, ◌^◌, ◌≤◌, ◌<◌, length};
ghost use Rattle.lists.specs.Stores.{Wrote};
ghost use Rattle.wcnf.specs.Wcnf.{ended, header_text};

// A number and the byte that ends it.
fn put_ended(out: &mut [u8], at: usize, n: u64, b: u8) -> usize
    requires { at + length (ended n b) < 2 ^ 64 }
    ensures { Wrote out.old at (ended n b) result out.new }
{
    let end = text_out::put_number(out, at, n);
    stores::put(out, end, b)
}

// p wcnf V C T: variables, clauses and top.
pub fn put_header(out: &mut [u8], at: usize, variables: u64, clauses: u64, top: u64) -> usize
    requires { at + 128 < 2 ^ 64 }
    ensures { Wrote out.old at (header_text variables clauses top) result out.new × (result ≤ at + 128) }
{
    let one = stores::put_all(out, at, b"p wcnf ");
    let two = put_ended(out, one, variables, 32);
    let three = put_ended(out, two, clauses, 32);
    put_ended(out, three, top, 10)
}
