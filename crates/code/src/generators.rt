// The pair of coded bits of a window.
ghost use Rattle.std.specs.Prelude.{◌≡◌, ◌%◌, if◌then◌else◌, ◌==◌, bit_and, count_ones};
ghost use Rattle.code.specs.Coding.{pair};
ghost use Rattle.code.specs.Numbers.{bit_of};
ghost use Rattle.plan.specs.Plans.{plan_scheme};

use plan::Plan;

// The pair of the window whose bits write this number, the newest bit lowest. Higher bits are not looked at.
pub fn parity(plan: &Plan, window: u16) -> (bool, bool)
    ensures { result ≡ pair (plan_scheme plan.now).constraint (bit_of (plan_scheme plan.now).constraint window) }
{
    let (first, second) = generators(plan.parts().constraint);
    (is_odd(window, first), is_odd(window, second))
}

// The two generators of a code of this constraint length: a one at each bit that is added. The length is a number that is
// counted with: an enum would be turned back wherever the bits of a window or of a state are meant.
fn generators(constraint: usize) -> (u16, u16)
    ensures { result ≡ (if constraint == 7 then (109, 79) else (285, 431)) }
{
    if constraint == 7 {
        (0b110_1101, 0b100_1111)
    } else {
        (0b1_0001_1101, 0b1_1010_1111)
    }
}

// Whether the window has an odd number of ones where the generator has one.
fn is_odd(window: u16, generator: u16) -> bool
    ensures { result ≡ (count_ones (bit_and window generator) % 2 == 1) }
{
    (window & generator).count_ones() % 2 == 1
}
