// A list that was read, judged by the table that was read with it, and both stored: what is left when the sheet and its list line are fine.
#![tactic(auto)]

ghost use Rattle.std.specs.Prelude.{◌≡◌};
ghost use Rattle.table.specs.Words.{Accepted};
ghost use Rattle.list_entries.specs.Entries.{entries_of};
ghost use Rattle.list_store.specs.Listed.{listed};
ghost use Rattle.list_store.specs.Answers.{wanted, Answered};

use refusal::Refusal;

// A sheet and a list that were read: the hard part's and the side's number, how many words the table has and how many entries the list.
#[derive(Clone, Copy)]
pub struct ReadList {
    pub hard: u32,
    pub side: u32,
    pub words: usize,
    pub entries: usize,
}

// How many entries a list of this table has.
#[tactic(auto, unfolding(crate::specs::Answers::wanted))]
fn wanted(words: &[u32], hard: u32, side: u32) -> usize
    requires { Accepted words.now }
    ensures { result ≡ wanted hard side words.now }
{
    let Ok(e) = clause::pick(hard, side) else {
        return 0;
    };
    list_judge::variables(words, e.hard, e.side)
}

// A list of these characters for the table of these words: 10, then 9. Both are stored when nothing is left to judge.
pub fn store(
    hard: u32,
    side: u32,
    words: &[u32],
    characters: &[u8],
    table: &mut [u32],
    list: &mut [u8],
) -> Result<ReadList, Refusal>
    requires { Accepted words.now }
    ensures { Answered (listed hard side words.now (entries_of characters.now))
        table.old list.old result table.new list.new }
{
    let n = words.len();
    let m = characters.len();
    let due = wanted(words, hard, side);
    if m != due {
        return Err(Refusal::Length(due));
    }
    if list.len() < m {
        return Err(Refusal::Room(m));
    }
    if table.len() < n {
        return Err(Refusal::Room(n));
    }
    stores::put_all(table, 0, words);
    list_entries::put_list(list, characters);
    Ok(ReadList {
        hard,
        side,
        words: n,
        entries: m,
    })
}
