// What `decode` prints of a plan: its value lines and its cost line, put into a lent slice of bytes as text_out puts.
#![tactic(auto)]

ghost use Rattle.std.specs.Prelude.{◌+◌, ◌*◌, ◌^◌, ◌≤◌, ◌<◌, length};
ghost use Rattle.lists.specs.Stores.{Wrote};
ghost use Rattle.answer_out.specs.Answer.{value_line, value_lines, cost_line, answer_text};

// The line of one box's value: at most 17 bytes.
#[tactic(auto, using(crate::proofs::Answer::short_value))]
fn put_value(out: &mut [u8], at: usize, v: u32) -> usize
    requires { at + 17 < 2 ^ 64 }
    ensures { Wrote out.old at (value_line v) result out.new × (result ≤ at + 17) }
{
    text_out::put_line(out, at, b"value=", v as u64)
}

// The line of the cost: at most 26 bytes.
#[tactic(auto, using(crate::proofs::Answer::short_cost))]
fn put_cost(out: &mut [u8], at: usize, cost: u64) -> usize
    requires { at + 26 < 2 ^ 64 }
    ensures { Wrote out.old at (cost_line cost) result out.new }
{
    text_out::put_line(out, at, b"cost=", cost)
}

// The value lines of a plan, box by box: at most 17 bytes each.
#[tactic(auto, using(text_out::proofs::Listed::listed_none, text_out::proofs::Listed::listed_all), unfolding(crate::specs::Answer::value_lines))]
fn put_values(out: &mut [u8], from: usize, plan: &[u32]) -> usize
    requires { from + 17 * length plan.now < 2 ^ 64 }
    ensures { Wrote out.old from (value_lines plan.now) result out.new × (result ≤ from + 17 * length plan.now) }
{
    let mut at = from;
    for v in plan {
        at = put_value(out, at, *v);
    }
    at
}

// What `decode` prints of a plan and its cost: at most 17 bytes for each box and 26 more.
pub fn put_answer(out: &mut [u8], at: usize, plan: &[u32], cost: u64) -> usize
    requires { at + 17 * length plan.now + 26 < 2 ^ 64 }
    ensures { Wrote out.old at (answer_text plan.now cost) result out.new }
{
    let last = put_values(out, at, plan);
    put_cost(out, last, cost)
}
