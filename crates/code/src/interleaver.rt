// The interleaver: where each sent bit is loaded.
ghost use Rattle.std.specs.Prelude.{◌≡◌, ◌+◌, ◌*◌, ◌/◌, ◌<◌, ◌≤◌, false, ◌++◌, length, drop, replicate, is_ok, if◌then◌else◌, Some, None, nat_lt};
ghost use Rattle.code.specs.Answers.{load_answer};
ghost use Rattle.code.specs.Laws.{Permutes};
ghost use Rattle.code.specs.Numbers.{read};
ghost use Rattle.code.specs.Sending.{interleaved, loads, location as location_of};
ghost use Rattle.plan.specs.Faults.{chain_number, outcome};
ghost use Rattle.plan.specs.Plans.{plan_scheme};
ghost use Rattle.plan.specs.Scheme.{sent_length};

use crate::run::Run;
use plan::{ChainFault, Plan};

// The location of sent bit n, or none where no such bit is sent.
pub fn location(plan: &Plan, n: usize) -> Option<usize>
    ensures value { result ≡ (if nat_lt n (sent_length (plan_scheme plan.now)) then Some (location_of (plan_scheme plan.now) n) else None) }
    ensures permutes { Permutes (plan_scheme plan.now) }
{
    (n < plan.sent_length()).then(|| location_below(plan, n))
}

pub(crate) fn location_below(plan: &Plan, n: usize) -> usize
    requires { n < sent_length (plan_scheme plan.now) }
    ensures value { result ≡ location_of (plan_scheme plan.now) n }
    ensures bound { result < sent_length (plan_scheme plan.now) }
{
    n * plan.parts().increment % plan.sent_length()
}

// Loads every sent bit of a code word, into the first places of `array`.
pub fn load(plan: &Plan, word: &[bool], array: &mut [bool]) -> Result<(), ChainFault>
    ensures answer { outcome chain_number result ≡ load_answer (plan_scheme plan.now) (length word.now) (length array.old) }
    ensures after { array.new ≡ (if is_ok result then interleaved (plan_scheme plan.now) (read word.now) ++ drop (sent_length (plan_scheme plan.now)) array.old else array.old) }
{
    check_lengths(plan, word.len(), array.len())?;
    array[..plan.sent_length()].fill(false);
    let parts = plan.parts();
    // nothing is indexed here: the number makes the run
    for number in 0..parts.block_length / parts.period {
        Run { plan, number }.load(word, array);
    }
    Ok(())
}

// Asks that a code word and an array are long enough.
fn check_lengths(plan: &Plan, word: usize, array: usize) -> Result<(), ChainFault>
    ensures { outcome chain_number result ≡ load_answer (plan_scheme plan.now) word array }
{
    if word < 2 * plan.parts().block_length || array < plan.sent_length() {
        return Err(ChainFault::TooShort);
    }
    Ok(())
}
