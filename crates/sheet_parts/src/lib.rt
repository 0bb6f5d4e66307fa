// Reads the sizes and the pairs of a house sheet into lent words. Each line is one word; so reading carries two cursors, one in the text
// and one in the words, and a faulty line is known by the word that it would have given.
#![tactic(auto)]

ghost use Rattle.std.specs.Prelude.{◌≡◌, ◌∷◌, ◌++◌, ◌+◌, ◌≤◌, length};
ghost use Rattle.std.proofs.lemmas.List.Edits.{sets};
ghost use Rattle.lists.specs.Lists.{nth};
ghost use Rattle.table.specs.Table.{In};
ghost use Rattle.sheet_parts.specs.Reading.{words, values_at, rows_at, pair_at, pairs_at, Filed, Sized};

// What reads lines answers where reading goes on, in the text and in the words; or the word whose line is faulty.

// The `n` lines of domain sizes, into `sizes` from its start.
#[tactic(auto, using(crate::proofs::Steps::rest_all))]
pub fn read_values(
    text: &[u8],
    from: usize,
    n: usize,
    sizes: &mut [u32],
) -> Result<(usize, usize), usize>
    requires { from ≤ length text.now }
    ensures { Filed (values_at text.now n from) 0 sizes.old result sizes.new }
{
    let mut at = from;
    for k in 0..n {
        let (v, next) = sheet_scan::values_line(text, at).ok_or(k)?;
        stores::put(sizes, k, v);
        at = next;
    }
    Ok((at, n))
}

// The `count` lines of masks of `m` values, into the table from `first` on.
#[tactic(auto, using(crate::proofs::Steps::rest_all))]
fn read_rows(
    text: &[u8],
    from: usize,
    m: usize,
    count: usize,
    table: &mut [u32],
    first: usize,
) -> Result<(usize, usize), usize>
    requires { (m ≤ 32) × (from ≤ length text.now) × (first ≤ from) }
    ensures { Filed (rows_at text.now m count from) first table.old result table.new }
{
    let mut at = from;
    let mut word = first;
    for _ in 0..count {
        let (v, next) = sheet_scan::allow_line(text, at, m).ok_or(word)?;
        word = stores::put(table, word, v);
        at = next;
    }
    Ok((at, word))
}

// The number of values of box `b`.
fn size_of(sizes: &[u32], b: u32) -> usize
    requires { In 1 (length sizes.now) b }
    ensures { result ≡ nth sizes.now b }
{
    lists::wide(lists::word(sizes, lists::wide(b) - 1))
}

// The lines of a pair, into the table from `word` on.
#[tactic(auto, using(crate::proofs::Pairs::heads, sheet::proofs::Sheets::size_most))]
fn read_pair(
    text: &[u8],
    at: usize,
    sizes: &[u32],
    table: &mut [u32],
    word: usize,
) -> Result<(usize, usize), usize>
    requires { Sized sizes.now × (at ≤ length text.now) × (word ≤ at) }
    ensures { Filed (pair_at text.now sizes.now at) word table.old result table.new }
{
    let n = sizes.len() as u32;
    let (first, a) = sheet_scan::first_line(text, at, n).ok_or(word)?;
    stores::put(table, word, first);
    let one = word + 1;
    let (second, b) = sheet_scan::second_line(text, a, n, first).ok_or(one)?;
    stores::put(table, one, second);
    let two = one + 1;
    let (weight, rows) = sheet_scan::weight_line(text, b).ok_or(two)?;
    stores::put(table, two, weight);
    let m = size_of(sizes, second);
    let count = size_of(sizes, first);
    let masks = two + 1;
    read_rows(text, rows, m, count, table, masks)
}

// The lines of `p` pairs, into the table from `first` on.
#[tactic(auto, using(crate::proofs::Steps::rest_all))]
pub fn read_pairs(
    text: &[u8],
    from: usize,
    sizes: &[u32],
    p: u32,
    table: &mut [u32],
    first: usize,
) -> Result<(usize, usize), usize>
    requires { Sized sizes.now × (from ≤ length text.now) × (first ≤ from) }
    ensures { Filed (pairs_at text.now sizes.now p from) first table.old result table.new }
{
    let mut at = from;
    let mut word = first;
    for _ in 0..p {
        (at, word) = read_pair(text, at, sizes, table, word)?;
    }
    Ok((at, word))
}

// All the words of a sheet that was read to its end: the counts, the sizes, the pairs.
pub fn fill(text: &[u8], from: usize, sizes: &[u32], p: u32, table: &mut [u32])
    requires { Sized sizes.now × (from ≤ length text.now) × (length sizes.now + 2 ≤ from) }
    ensures { table.new
        ≡ sets table.old 0
        (length sizes.now ∷ p ∷ (sizes.now ++ words (pairs_at text.now sizes.now p from))) }
{
    let n = sizes.len() as u32;
    stores::put(table, 0, n);
    stores::put(table, 1, p);
    let first = stores::put_all(table, 2, sizes);
    let _ = read_pairs(text, from, sizes, p, table, first);
}
