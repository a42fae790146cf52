// The air between sender and receiver: a slow fade, and noise.
ghost use Rattle.std.specs.Prelude.{◌≡◌, true, false, is_ok, IfOk, nat_le};
ghost use Rattle.channel.specs.Airs.{fresh, arrived, aired};
ghost use Rattle.channel.specs.Hearing.{Hearable};
ghost use Rattle.channel.specs.Plane.{phase_point, decided};
ghost use Rattle.plan.specs.Plans.{plan_scheme};

use crate::decision::Candidates;
use crate::generator::Generator;
use crate::hearing::{Heard, PhasesOnly};
use crate::noise::noise_amplitude;
use crate::phase::{Point, point_of};
use plan::Plan;

#[derive(Clone, Copy)]
pub struct Air {
    pub generator: Generator,
    // the amplitude at which symbols arrive, which walks at random
    pub amplitude: f64,
    // the deviation of the noise
    pub noise: f64,
}

// How far the amplitude walks in a symbol, and how far it may go.
const STEP: f64 = 0.02;

const LEAST: f64 = 0.5;

const MOST: f64 = 1.5;

impl Air {
    // Air in which a symbol has so many decibels more power than the noise, before it fades.
    pub fn new(seed: u64, decibels: i8) -> Air
        ensures { result ≡ fresh seed decibels }
    {
        Air {
            generator: Generator::new(seed),
            amplitude: 1.0,
            noise: noise_amplitude(decibels),
        }
    }

    // What is heard of a symbol that is sent with this on-air index, where the scrambler has this value.
    pub fn hear(&mut self, plan: &Plan, value: u8, index: u8) -> Result<Heard, PhasesOnly>
        ensures answer { is_ok result ≡ nat_le (plan_scheme plan.now).bits 3 }
        ensures made { IfOk result (λ h. Hearable (plan_scheme plan.now).bits value h) }
        ensures heard { IfOk result (λ h. h ≡ decided (plan_scheme plan.now).bits value (arrived self.old (phase_point index))) }
        ensures after { is_ok result ≡ true → self.new ≡ aired self.old }
        ensures refused { is_ok result ≡ false → self.new ≡ self.old }
    {
        let candidates = Candidates::of(plan, value)?;
        Ok(candidates.decide(self.carry(point_of(index))))
    }

    // A point as it arrives.
    fn carry(&mut self, sent: Point) -> Point
        ensures value { result ≡ arrived self.old sent }
        ensures after { self.new ≡ aired self.old }
    {
        let walked = self.amplitude + STEP * self.generator.draw_normal();
        self.amplitude = walked.clamp(LEAST, MOST);
        Point {
            x: sent.x * self.amplitude + self.noise * self.generator.draw_normal(),
            y: sent.y * self.amplitude + self.noise * self.generator.draw_normal(),
        }
    }
}
