// Reads what `decode` is given: a house sheet and one more line, the list. The sheet is judged first, from the top, and then the list line; the
// table is read into local words, since how long the list has to be follows from it, and a refusal writes nothing.
#![tactic(auto)]

ghost use Rattle.std.specs.Prelude.{◌≡◌, ◌≤◌, length, drop};
ghost use Rattle.table.specs.Words.{Accepted};
ghost use Rattle.sheet_in.specs.Parsed.{parsed, sheet};
ghost use Rattle.list_store.specs.Answers.{Answered};
ghost use Rattle.list_in.specs.Listed.{first_fault_lem, on_top, over};

use list_scan::ListLine;
pub use list_store::ReadList;
use refusal::Refusal;

// What stands at `at`, below a sheet of these words and choices. The sheet has a line for each word and two for the choices.
#[tactic(auto, using(crate::proofs::Answers::at_line, crate::proofs::Answers::below_bad, crate::proofs::Answers::below_more, crate::proofs::Answers::below_list, list_scan::proofs::ListLines::entries_inside))]
fn below(
    text: &[u8],
    at: usize,
    hard: u32,
    side: u32,
    words: &[u32],
    table: &mut [u32],
    list: &mut [u8],
) -> Result<ReadList, Refusal>
    requires { Accepted words.now × (at ≤ length text.now) × (length words.now ≤ 4930) }
    ensures { Answered (on_top (sheet hard side words.now) 0 (drop at text.now))
        table.old list.old result table.new list.new }
{
    let line = words.len() + 3;
    match list_scan::list_line(text, at) {
        ListLine::Bad => Err(Refusal::Line(line)),
        ListLine::More => Err(Refusal::Line(line + 1)),
        ListLine::Entries(m) => {
            let from = at + 5;
            list_store::store(hard, side, words, &text[from..from + m], table, list)
        }
    }
}

// The number of the first line that is no line of a sheet; for a sheet that is the line past its last.
#[tactic(auto, using(crate::proofs::Tops::refuses, crate::proofs::Tops::reads, crate::proofs::Tops::fault_line, crate::proofs::Tops::fault_past))]
fn first_fault(text: &[u8]) -> usize
    ensures { result ≡ first_fault_lem (parsed text.now) }
{
    let mut words = [0u32; 4930];
    match sheet_in::read_sheet(text, &mut words) {
        Err(f) => refusal::place(f),
        Ok(sheet) => sheet.words + 3,
    }
}

// A sheet and its list line, into the table and the list: 13 at the first faulty line, 10 for a list of the wrong length, then 9 for the
// list and then for the table; a refusal writes nothing.
#[tactic(auto, using(crate::proofs::Tops::reads))]
pub fn read_list(text: &[u8], table: &mut [u32], list: &mut [u8]) -> Result<ReadList, Refusal>
    ensures { Answered (over text.now) table.old list.old result table.new list.new }
{
    let line = first_fault(text);
    let at = list_scan::line_start(text, line);
    let mut words = [0u32; 4930];
    let Ok(sheet) = sheet_in::read_sheet(&text[..at], &mut words) else {
        return Err(Refusal::Line(line));
    };
    below(
        text,
        at,
        sheet.hard,
        sheet.side,
        &words[..sheet.words],
        table,
        list,
    )
}
