// The library for programs in other languages: each entry point over numbers and slices, a slice being a pointer and a length.
// The answer is 0, or a refusal's number and place in one number; lengths and costs go into lent slots, on success alone.
// include/wickcollar.h declares these functions and says what each promises.
#![tactic(auto)]

ghost use Rattle.std.specs.Prelude.{◌≡◌, [], ◌∷◌, length};
ghost use Rattle.table.specs.Words.{judged};
ghost use Rattle.clause.specs.Encodings.{picked_of};
ghost use Rattle.decoder.specs.Answers.{plan_after, list_after};
ghost use Rattle.sheet_in.specs.Parsed.{parsed, table_left};
ghost use Rattle.sheet_out.specs.Written.{sheet_of, text_left};
ghost use Rattle.list_in.specs.Listed.{over};
ghost use Rattle.list_store.specs.Answers.{table_after};
ghost use Rattle.list_store.specs.Answers as listed;
ghost use Rattle.codes.specs.Codes.{Told};
ghost use Rattle.exports.specs.Said.{check_says, cost_says, lengths_say, scratch_says, encode_judged, decode_says, make_says, Encodes};
ghost use Rattle.exports.specs.Said.{read_sheet_says, write_sheet_says, read_list_says, wcnf_judged, WritesText};

// The table's two counts.
#[unsafe(no_mangle)]
pub extern "C" fn wickcollar_check(words: &[u32], boxes: &mut usize, pairs: &mut usize) -> u64
    ensures { Told (check_says words.now) result
        (boxes.old ∷ pairs.old ∷ []) (boxes.new ∷ pairs.new ∷ []) }
{
    match table_check::check(words) {
        Err(f) => codes::code(f),
        Ok(counts) => {
            *boxes = counts.boxes;
            *pairs = counts.pairs;
            0
        }
    }
}

// What a plan costs.
#[unsafe(no_mangle)]
pub extern "C" fn wickcollar_cost(words: &[u32], plan: &[u32], cost: &mut u64) -> u64
    ensures { Told (cost_says words.now plan.now) result (cost.old ∷ []) (cost.new ∷ []) }
{
    match plan::cost(words, plan) {
        Err(f) => codes::code(f),
        Ok(sum) => {
            *cost = sum;
            0
        }
    }
}

// The exact lengths of a table's clause list, and the top of its text.
#[unsafe(no_mangle)]
pub extern "C" fn wickcollar_lengths(
    words: &[u32],
    hard: u32,
    side: u32,
    variables: &mut usize,
    clauses: &mut usize,
    literals: &mut usize,
    entries: &mut usize,
    top: &mut u64,
) -> u64
    ensures { Told (lengths_say words.now hard side) result
        (variables.old ∷ clauses.old ∷ literals.old ∷ entries.old ∷ top.old ∷ [])
        (variables.new ∷ clauses.new ∷ literals.new ∷ entries.new ∷ top.new ∷ []) }
{
    match measure::exact_lengths(words, hard, side) {
        Err(f) => codes::code(f),
        Ok(lengths) => {
            *variables = lengths.variables;
            *clauses = lengths.clauses;
            *literals = lengths.literals;
            *entries = lengths.entries;
            *top = lengths.top;
            0
        }
    }
}

// What the two scratch buffers must hold.
#[unsafe(no_mangle)]
pub extern "C" fn wickcollar_scratch_lengths(
    words: &[u32],
    hard: u32,
    side: u32,
    first: &mut usize,
    second: &mut usize,
) -> u64
    ensures { Told (scratch_says words.now hard side) result
        (first.old ∷ second.old ∷ []) (first.new ∷ second.new ∷ []) }
{
    match measure::scratch_lengths(words, hard, side) {
        Err(f) => codes::code(f),
        Ok(scratch) => {
            *first = scratch.first;
            *second = scratch.second;
            0
        }
    }
}

// The clause list: literals with their closing zeros, and a weight for each clause.
#[unsafe(no_mangle)]
pub extern "C" fn wickcollar_encode(
    words: &[u32],
    hard: u32,
    side: u32,
    first: &mut [i32],
    second: &mut [i32],
    literals: &mut [i32],
    weights: &mut [u64],
    entries: &mut usize,
    clauses: &mut usize,
) -> u64
    ensures { Encodes (encode_judged words.now hard side first.old second.old literals.old weights.old)
        first.old second.old literals.old weights.old (entries.old ∷ clauses.old ∷ [])
        result first.new second.new literals.new weights.new (entries.new ∷ clauses.new ∷ []) }
{
    match encoder::encode(words, hard, side, first, second, literals, weights) {
        Err(f) => codes::code(f),
        Ok(written) => {
            *entries = written.literals;
            *clauses = written.weights;
            0
        }
    }
}

// The plan of a solver's list, and its cost.
#[unsafe(no_mangle)]
pub extern "C" fn wickcollar_decode(
    words: &[u32],
    hard: u32,
    side: u32,
    list: &[u8],
    plan: &mut [u32],
    cost: &mut u64,
) -> u64
    ensures { Told (decode_says words.now hard side list.now (length plan.old)) result
        (cost.old ∷ []) (cost.new ∷ [])
        × (plan.new ≡ plan_after (picked_of hard side) (judged words.now) list.now plan.old) }
{
    match decoder::decode(words, hard, side, list, plan) {
        Err(f) => codes::code(f),
        Ok(weight) => {
            *cost = weight;
            0
        }
    }
}

// The list of a plan, as a solver would give it.
#[unsafe(no_mangle)]
pub extern "C" fn wickcollar_make_list(
    words: &[u32],
    hard: u32,
    side: u32,
    plan: &[u32],
    list: &mut [u8],
    entries: &mut usize,
) -> u64
    ensures { Told (make_says words.now hard side plan.now (length list.old)) result
        (entries.old ∷ []) (entries.new ∷ [])
        × (list.new ≡ list_after (picked_of hard side) (judged words.now) plan.now list.old) }
{
    match maker::make_list(words, hard, side, plan, list) {
        Err(f) => codes::code(f),
        Ok(count) => {
            *entries = count;
            0
        }
    }
}

// The two choices and the words of a sheet.
#[unsafe(no_mangle)]
pub extern "C" fn wickcollar_read_sheet(
    text: &[u8],
    table: &mut [u32],
    hard: &mut u32,
    side: &mut u32,
    words: &mut usize,
) -> u64
    ensures { Told (read_sheet_says text.now (length table.old)) result
        (hard.old ∷ side.old ∷ words.old ∷ []) (hard.new ∷ side.new ∷ words.new ∷ [])
        × (table.new ≡ table_left (parsed text.now) table.old) }
{
    match sheet_in::read_sheet(text, table) {
        Err(f) => codes::code(f),
        Ok(sheet) => {
            *hard = sheet.hard;
            *side = sheet.side;
            *words = sheet.words;
            0
        }
    }
}

// The sheet of a table and its two choices.
#[unsafe(no_mangle)]
pub extern "C" fn wickcollar_write_sheet(
    words: &[u32],
    hard: u32,
    side: u32,
    text: &mut [u8],
    bytes: &mut usize,
) -> u64
    ensures { Told (write_sheet_says words.now hard side (length text.old)) result
        (bytes.old ∷ []) (bytes.new ∷ [])
        × (text.new ≡ text_left (sheet_of words.now hard side) text.old) }
{
    match sheet_out::write_sheet(words, hard, side, text) {
        Err(f) => codes::code(f),
        Ok(length) => {
            *bytes = length;
            0
        }
    }
}

// The two choices, the words and the list of a sheet with its list line.
#[unsafe(no_mangle)]
pub extern "C" fn wickcollar_read_list(
    text: &[u8],
    table: &mut [u32],
    list: &mut [u8],
    hard: &mut u32,
    side: &mut u32,
    words: &mut usize,
    entries: &mut usize,
) -> u64
    ensures { Told (read_list_says text.now (length table.old) (length list.old)) result
        (hard.old ∷ side.old ∷ words.old ∷ entries.old ∷ [])
        (hard.new ∷ side.new ∷ words.new ∷ entries.new ∷ [])
        × (table.new ≡ table_after (over text.now) table.old list.old)
        × (list.new ≡ listed.list_after (over text.now) table.old list.old) }
{
    match list_in::read_list(text, table, list) {
        Err(f) => codes::code(f),
        Ok(read) => {
            *hard = read.hard;
            *side = read.side;
            *words = read.words;
            *entries = read.entries;
            0
        }
    }
}

// The WCNF text of a table.
#[unsafe(no_mangle)]
pub extern "C" fn wickcollar_write_wcnf(
    words: &[u32],
    hard: u32,
    side: u32,
    first: &mut [i32],
    second: &mut [i32],
    text: &mut [u8],
    bytes: &mut usize,
) -> u64
    ensures { WritesText (wcnf_judged words.now hard side first.old second.old text.old)
        first.old second.old text.old (bytes.old ∷ [])
        result first.new second.new text.new (bytes.new ∷ []) }
{
    match wcnf_out::write_wcnf(words, hard, side, first, second, text) {
        Err(f) => codes::code(f),
        Ok(count) => {
            *bytes = count;
            0
        }
    }
}
