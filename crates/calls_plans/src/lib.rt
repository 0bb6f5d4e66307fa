// The entry points of the program calls that judge, measure, and read and write plans, lists and sheets.
#![tactic(auto)]

use calls_case::head;
use std::io::Write;

mod judging;
mod tables;
mod texts;

// Entry points 1 to 8.
pub fn show(to: &mut impl Write, case: &[u32], words: &[u32], plan: &[u32], bytes: &[u8]) {
    let entry = head::number(case, head::ENTRY);
    if entry < 5 {
        judging::show(to, case, words, plan);
    } else if tables::are_lent(entry) {
        tables::show(to, case, words, bytes);
    } else {
        texts::show(to, case, words, plan);
    }
}
