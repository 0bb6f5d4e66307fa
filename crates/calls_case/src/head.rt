// The head of a case: 13 numbers. Which entry point, the hard part, the side, what the buffers are filled with; how many words, entries of the
// plan and bytes are given; how long the lent buffers are, of which an entry point is lent some.
//
// The entry points by their numbers: 1 check, 2 cost, 3 exact lengths, 4 scratch lengths, 5 decode, 6 make a list, 7 read a sheet, 8 write a sheet,
// 9 read a sheet with its list, 10 encode, 11 write WCNF. With another number none is called, and the answer says so.
ghost use Rattle.std.specs.Prelude.{◌≤◌};

pub const ENTRY: usize = 0;

pub const HARD: usize = 1;

pub const SIDE: usize = 2;

pub const SEED: usize = 3;

pub const WORDS: usize = 4;

pub const PLAN: usize = 5;

pub const BYTES: usize = 6;

pub const FIRST: usize = 7;

pub const SECOND: usize = 8;

pub const LITERALS: usize = 9;

pub const WEIGHTS: usize = 10;

pub const TABLE: usize = 11;

pub const TEXT: usize = 12;

pub fn number(head: &[u32], i: usize) -> u32 {
    head.get(i).copied().unwrap_or(0)
}

pub fn length(head: &[u32], i: usize) -> usize {
    lists::wide(number(head, i))
}

// What is filled and shown of a lent buffer: eight entries past it too, which no entry point may touch.
pub fn shown(head: &[u32], i: usize) -> usize {
    number(head, i) as usize + 8
}

// Whether a buffer of `most` entries has room for what is filled and shown.
pub fn fits(head: &[u32], i: usize, most: usize) -> bool {
    shown(head, i) <= most
}

// How long a lent buffer is, of one that has `most` entries.
pub fn cut(head: &[u32], i: usize, most: usize) -> usize
    ensures { result ≤ most }
{
    length(head, i).min(most)
}
