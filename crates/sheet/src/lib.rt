// The house sheet as a text (specs/), and its lines put into a lent slice of bytes.
#![tactic(auto)]

ghost use Rattle.std.specs.Prelude.{◌+◌, ◌^◌, ◌<◌, length};
ghost use Rattle.lists.specs.Stores.{Wrote};
ghost use Rattle.text_out.specs.Texts.{line_of, row_of};
ghost use Rattle.sheet.specs.Keys.{boxes_key, values_key, pairs_key, allow_key, hard_line_lem, side_line_lem};
ghost use Rattle.sheet.specs.Sheet.{head_text};

use clause::{Hard, Side};

#[tactic(auto, unfolding(crate::specs::Keys::hard_line_lem))]
pub fn put_hard(out: &mut [u8], at: usize, hard: Hard) -> usize
    requires { at + length (hard_line_lem hard) < 2 ^ 64 }
    ensures { Wrote out.old at (hard_line_lem hard) result out.new }
{
    match hard {
        Hard::Standard => stores::put_all(out, at, b"hard=standard\n"),
        Hard::Regular => stores::put_all(out, at, b"hard=regular\n"),
    }
}

#[tactic(auto, unfolding(crate::specs::Keys::side_line_lem))]
pub fn put_side(out: &mut [u8], at: usize, side: Side) -> usize
    requires { at + length (side_line_lem side) < 2 ^ 64 }
    ensures { Wrote out.old at (side_line_lem side) result out.new }
{
    match side {
        Side::Direct => stores::put_all(out, at, b"side=direct\n"),
        Side::Support => stores::put_all(out, at, b"side=support\n"),
        Side::First => stores::put_all(out, at, b"side=first\n"),
        Side::Literals => stores::put_all(out, at, b"side=literals\n"),
        Side::Score => stores::put_all(out, at, b"side=score\n"),
    }
}

pub fn put_boxes(out: &mut [u8], at: usize, n: u32) -> usize
    requires { at + length (line_of boxes_key n) < 2 ^ 64 }
    ensures { Wrote out.old at (line_of boxes_key n) result out.new }
{
    text_out::put_line(out, at, b"boxes=", n as u64)
}

pub fn put_size(out: &mut [u8], at: usize, m: u32) -> usize
    requires { at + length (line_of values_key m) < 2 ^ 64 }
    ensures { Wrote out.old at (line_of values_key m) result out.new }
{
    text_out::put_line(out, at, b"values=", m as u64)
}

pub fn put_count(out: &mut [u8], at: usize, p: u32) -> usize
    requires { at + length (line_of pairs_key p) < 2 ^ 64 }
    ensures { Wrote out.old at (line_of pairs_key p) result out.new }
{
    text_out::put_line(out, at, b"pairs=", p as u64)
}

// A pair's boxes and weight, a line each.
#[tactic(auto, using(crate::proofs::Sheets::length_head))]
pub fn put_head(out: &mut [u8], at: usize, first: u32, second: u32, weight: u32) -> usize
    requires { at + length (head_text first second weight) < 2 ^ 64 }
    ensures { Wrote out.old at (head_text first second weight) result out.new }
{
    let one = text_out::put_line(out, at, b"first=", first as u64);
    let two = text_out::put_line(out, one, b"second=", second as u64);
    text_out::put_line(out, two, b"weight=", weight as u64)
}

// The allow line of one value of the first box: a character for each of the second box's `m` values.
pub fn put_allow(out: &mut [u8], at: usize, m: u32, mask: u32) -> usize
    requires { at + length (row_of allow_key m mask) < 2 ^ 64 }
    ensures { Wrote out.old at (row_of allow_key m mask) result out.new }
{
    row_out::put_row(out, at, b"allow=", m, mask)
}
