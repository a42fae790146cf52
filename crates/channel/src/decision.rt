// The decision for a received point: the nearest candidate, and how much nearer it is than the next.
ghost use Rattle.std.specs.Prelude.{◌≡◌, ◌-◌, ◌^◌, ◌≤◌, is_ok, IfOk, nat_le};
ghost use Rattle.channel.specs.Hearing.{candidate, Sendable, Hearable};
ghost use Rattle.channel.specs.Plane.{with_candidate, nearest_of, weight_for, decided};
ghost use Rattle.plan.specs.Plans.{plan_scheme};

use crate::hearing::{Heard, PhasesOnly};
use crate::phase::{Point, point_of, square_apart};
use code::symbol_for;
use plan::Plan;
use sender::scramble;
use std::num::saturating_f64_to_u64;

// What can be sent at a place: the phases that the bits of a symbol give, where the scrambler has this value.
#[derive(Clone, Copy)]
pub(crate) struct Candidates<'p> {
    plan: &'p Plan,
    value: u8,
    ghost phases: { (plan_scheme plan.now).bits ≤ 3 },
}

// Farther than any point that arrives.
const FAR: f64 = 1e9;

// The weight of a squared distance of 1.
const SCALE: f64 = 1024.0;

// The nearest candidate so far, and the squared distances of it and of the next.
#[derive(Clone, Copy)]
struct Nearest {
    index: u8,
    near: f64,
    next: f64,
}

impl Nearest {
    // One more candidate taken into account.
    fn with(self, index: u8, apart: f64) -> Nearest
        ensures { result ≡ with_candidate self index apart }
    {
        if apart < self.near {
            Nearest {
                index,
                near: apart,
                next: self.near,
            }
        } else if apart < self.next {
            Nearest {
                next: apart,
                ..self
            }
        } else {
            self
        }
    }
}

impl Candidates<'_> {
    // The candidates, if the symbols of the plan have at most three bits.
    pub(crate) fn of(plan: &Plan, value: u8) -> Result<Candidates, PhasesOnly>
        ensures answer { is_ok result ≡ nat_le (plan_scheme plan.now).bits 3 }
        ensures plan { IfOk result (λ c. c.plan.now ≡ plan.now) }
        ensures value { IfOk result (λ c. c.value ≡ value) }
    {
        if plan.parts().symbol_bits > 3 {
            return Err(PhasesOnly);
        }
        Ok(Candidates { plan, value })
    }

    // How many numbers the bits of a symbol write.
    fn count(self) -> u8
        ensures { result ≡ 2 ^ (plan_scheme self.entry.plan.now).bits }
    {
        1 << self.plan.parts().symbol_bits
    }

    // The on-air index of bits that write this number.
    fn index_of(self, number: u8) -> u8
        ensures { result ≡ candidate (plan_scheme self.entry.plan.now).bits self.entry.value number }
    {
        scramble(
            self.plan.parts().symbol_bits,
            symbol_for(self.plan, number),
            self.value,
        )
    }

    // The nearest of all candidates.
    fn nearest(self, received: Point) -> Nearest
        ensures sendable { Sendable (plan_scheme self.entry.plan.now).bits self.entry.value result.index }
        ensures nearest { let q = (plan_scheme self.entry.plan.now).bits in result ≡ nearest_of q self.entry.value received (2 ^ q - 1) }
    {
        let first = self.index_of(0);
        let mut best = Nearest {
            index: first,
            near: square_apart(received, point_of(first)),
            next: FAR,
        };
        for number in 1..self.count() {
            let index = self.index_of(number);
            best = best.with(index, square_apart(received, point_of(index)));
        }
        best
    }

    // What is heard of a received point.
    pub(crate) fn decide(self, received: Point) -> Heard
        ensures hearable { Hearable (plan_scheme self.entry.plan.now).bits self.entry.value result }
        ensures decided { result ≡ decided (plan_scheme self.entry.plan.now).bits self.entry.value received }
    {
        let best = self.nearest(received);
        Heard {
            index: best.index,
            weight: weight_of(best.next - best.near),
        }
    }
}

// The weight of a squared distance by which the next candidate is farther.
fn weight_of(farther: f64) -> u16
    ensures value { result ≡ weight_for farther }
    ensures low { 1 ≤ result }
    ensures high { result ≤ 32767 }
{
    saturating_f64_to_u64(farther * SCALE).clamp(1, 32_767) as u16
}
