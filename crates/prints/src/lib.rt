// What the programs read from standard input, and what they write to standard output.
#![tactic(auto)]

ghost use Rattle.std.specs.Prelude.{◌≡◌, ◌≤◌, ◌<◌, length, take, IfOk, IfErr};
ghost use Rattle.std.specs.Bool.{OnTrue};
ghost use Rattle.std.specs.Io.KnownBytes.{Appends, Consumes};
ghost use Rattle.refusal.specs.declared.Refusal.TheVariants.{Room};

use refusal::Refusal;
use std::io::{Read, Write};

// Reads until the buffer is full, the input ends or a read fails, and returns how many bytes were read.
// The loop stays a `while`: a read gives as many bytes as it likes, so its turns cannot be counted.
pub fn read_full<R: Read>(input: &mut R, buf: &mut [u8]) -> usize
    ensures bound { result ≤ length buf.new }
    ensures bytes { Consumes (R.remaining input.old) (R.remaining input.new) (take result buf.new) }
{
    let mut done = 0;
    while done < buf.len() {
        match input.read(&mut buf[done..]) {
            Ok(n) if n > 0 => done += n,
            _ => break,
        }
    }
    done
}

// Reads a whole input and returns how many bytes it has. One that fills the buffer is refused, with 9 and place 0: it may be longer. No other
// is: what was read is then the whole buffer.
pub fn read_input<R: Read>(input: &mut R, buf: &mut [u8]) -> Result<usize, Refusal>
    ensures bound { IfOk result (λ n. n < length buf.new) }
    ensures bytes { IfOk result (λ n. Consumes (R.remaining input.old) (R.remaining input.new) (take n buf.new)) }
    ensures refused { IfErr result (λ f. f ≡ Room 0) }
    ensures full { IfErr result (λ f. Consumes (R.remaining input.old) (R.remaining input.new) (take (length buf.new) buf.new)) }
{
    let n = read_full(input, buf);
    if n < buf.len() {
        return Ok(n);
    }
    Err(Refusal::Room(0))
}

// Writes the first `n` bytes, in one piece; false if there are not so many, or a write failed.
pub fn send<W: Write>(to: &mut W, text: &[u8], n: usize) -> bool
    ensures { OnTrue result (Appends (W.contents to.old) (W.contents to.new) (take n text.now)) }
{
    if n <= text.len() {
        return to.write_all(&text[..n]).is_ok();
    }
    false
}

// The one line of a refusal.
pub fn refuse(to: &mut impl Write, f: Refusal) {
    let mut line = [0u8; 38];
    let n = refusal_out::put_refused(&mut line, 0, f);
    send(to, &line, n);
}
