// The characters of a list line, stored as the entries of a list.
#![tactic(auto)]

ghost use Rattle.std.specs.Prelude.{◌≡◌};
ghost use Rattle.std.proofs.lemmas.List.Edits.{sets};
ghost use Rattle.list_entries.specs.Entries.{entry_of_lem, entries_of};

// The entry that a character stands for.
fn entry_of(c: u8) -> u8
    ensures { result ≡ entry_of_lem c }
{
    u8::from(c == b'1')
}

// The entries of all characters, from the start.
#[tactic(auto, using(lists::proofs::Stores::copied_none, crate::proofs::Entries::entries_all))]
pub fn put_list(list: &mut [u8], characters: &[u8])
    ensures { list.new ≡ sets list.old 0 (entries_of characters.now) }
{
    let mut at = 0;
    for c in characters {
        at = stores::put(list, at, entry_of(*c));
    }
}
