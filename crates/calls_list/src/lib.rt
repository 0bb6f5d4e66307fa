// The entry point of the program calls that reads a sheet with its list line: room for a table and for a list.
#![tactic(auto)]

use calls_case::answer::Answer;
use calls_case::{answer, head, lent};
use std::io::Write;

fn read_list(text: &[u8], table: &mut [u32], list: &mut [u8]) -> Answer {
    match list_in::read_list(text, table, list) {
        Err(f) => answer::refused(f),
        Ok(r) => answer::success(
            r.hard as u64,
            r.side as u64,
            r.words as u64,
            r.entries as u64,
            0,
        ),
    }
}

// Entry point 9, lent as much of each buffer as the case says.
fn call(case: &[u32], text: &[u8], table: &mut [u32], list: &mut [u8]) -> Answer {
    let n = head::cut(case, head::TABLE, table.len());
    let m = head::cut(case, head::TEXT, list.len());
    read_list(text, &mut table[..n], &mut list[..m])
}

fn show_in(
    to: &mut impl Write,
    case: &[u32],
    text: &[u8],
    table: &mut [u32],
    list: &mut [u8],
    space: &mut [u8],
) {
    lent::fill(case, head::TABLE, table);
    lent::fill(case, head::TEXT, list);
    answer::say(to, call(case, text, table, list));
    lent::say(to, case, head::TABLE, table, space);
    prints::send(to, list, head::shown(case, head::TEXT));
}

pub fn show(to: &mut impl Write, case: &[u32], text: &[u8]) {
    let mut table = [0u32; 5120];
    let mut list = [0u8; 131072];
    let mut space = [0u8; 20480];
    show_in(to, case, text, &mut table, &mut list, &mut space);
}
