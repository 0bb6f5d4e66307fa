// A box in a solver's list: whether its hard clauses are true, and the value that it holds.
#![tactic(auto)]

ghost use Rattle.std.specs.Prelude.{◌≡◌, ◌+◌, ◌^◌, ◌≤◌, ◌<◌};
ghost use Rattle.table.specs.Table.{In};
ghost use Rattle.table.specs.Words.{box_count, table_of, Accepted};
ghost use Rattle.clause.specs.declared.Hard.TheVariants.{Regular};
ghost use Rattle.clause.specs.Clause.{reads};
ghost use Rattle.clause.specs.Numbers.{value_from};
ghost use Rattle.list_boxes.specs.Lists.{box_ok_lem, held, value_of};
ghost use Rattle.list_boxes.specs.Counted.{true_count_lem, steps_say_lem, counted_ok_lem};

use clause::Hard;

// Variable `v` is 1. One past the list's end is not, so that what is read never depends on what was judged about the length.
fn reads(list: &[u8], v: u32) -> bool
    requires { 1 ≤ v }
    ensures { result ≡ reads list.now v }
{
    list.get(lists::wide(v) - 1).copied().unwrap_or(0) == 1
}

// How many of a box's `m` values, whose variables come after the first `base` ones, are 1.
#[tactic(auto, using(lists::proofs::Runs::count_turn, lists::proofs::Runs::count_end))]
fn true_count(list: &[u8], base: u32, m: u32) -> u32
    requires { base + m + 1 < 2 ^ 32 }
    ensures { result ≡ true_count_lem (reads list.now) (value_from base) m }
{
    let mut sum = 0;
    for j in 1..=m {
        sum += u32::from(reads(list, base + j));
    }
    sum
}

// The first of them that is; 0 if none is.
#[tactic(auto, using(crate::proofs::Loops::held_hit, crate::proofs::Loops::held_miss, crate::proofs::Loops::held_end))]
fn held(list: &[u8], base: u32, m: u32) -> u32
    requires { base + m + 1 < 2 ^ 32 }
    ensures { result ≡ held (reads list.now) (value_from base) 1 m }
{
    for j in 1..=m {
        if reads(list, base + j) {
            return j;
        }
    }
    0
}

// A box's thresholds, whose variables come after the first `base` ones, are 1 up to value `a` and 0 above it.
#[tactic(auto, using(lists::proofs::Runs::count_turn, lists::proofs::Runs::count_end))]
fn steps_say(list: &[u8], base: u32, m: u32, a: u32) -> bool
    requires { base + m + 1 < 2 ^ 32 }
    ensures { result ≡ steps_say_lem Regular (reads list.now) base m a }
{
    for j in 2..=m {
        let yes = reads(list, base + (j - 1));
        let due = j <= a;
        if yes != due {
            return false;
        }
    }
    true
}

// A box holds one value, and on the regular part its thresholds say which.
#[tactic(auto, unfolding(crate::specs::Counted::counted_ok_lem))]
fn counted_ok(list: &[u8], hard: Hard, values: u32, steps: u32, m: u32) -> bool
    requires { (values + m + 1 < 2 ^ 32) × (steps + m + 1 < 2 ^ 32) }
    ensures { result ≡ counted_ok_lem hard (reads list.now) values steps m }
{
    let count = true_count(list, values, m);
    if count != 1 {
        return false;
    }
    match hard {
        Hard::Standard => true,
        Hard::Regular => steps_say(list, steps, m, held(list, values, m)),
    }
}

// Every hard clause of box `b` is true.
#[tactic(auto, using(crate::proofs::Counted::box_counted, numbers::proofs::Counted::base_small, numbers::proofs::Counted::step_small, table::proofs::Tables::accepted_box, table::proofs::Tables::table_size))]
pub fn box_ok(words: &[u32], n: u32, hard: Hard, list: &[u8], b: u32) -> bool
    requires { Accepted words.now × (n ≡ box_count words.now) × In 1 (box_count words.now) b }
    ensures { result ≡ box_ok_lem hard (table_of words.now) list.now b }
{
    let values = numbers::value_base(words, b);
    let steps = numbers::step_base(words, n, b);
    counted_ok(list, hard, values, steps, table::size(words, b))
}

// The value that box `b` holds.
#[tactic(auto, using(numbers::proofs::Counted::base_small, table::proofs::Tables::accepted_box, table::proofs::Tables::table_size))]
pub fn value_of(words: &[u32], list: &[u8], b: u32) -> u32
    requires { Accepted words.now × In 1 (box_count words.now) b }
    ensures { result ≡ value_of (table_of words.now) list.now b }
{
    let base = numbers::value_base(words, b);
    held(list, base, table::size(words, b))
}
