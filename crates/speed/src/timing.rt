// Looks by the clock.
ghost use Rattle.std.specs.Prelude.{◌≡◌, IfOk};
ghost use Rattle.speed.specs.Tables.{Looks};
ghost use Rattle.speed.specs.Times.{with_look, rate, look_time, look_trips, bit_time};

use crate::decoder::{Decoder, Look};
use crate::judge::Judge;
use crate::source::Source;
use crate::trouble::Trouble;
use plan::Plan;
use std::num::{nearest_u64_to_f64, nearest_usize_to_f64};
use std::time::{Duration, Instant};

// What several looks took.
#[derive(Clone, Copy, Default)]
pub struct Taken {
    pub looks: u64,
    pub trips: u64,
    pub seconds: f64,
}

impl Taken {
    // One look more.
    fn add(&mut self, look: Look, seconds: f64)
        ensures { self.new ≡ with_look self.old look.trips seconds }
    {
        self.looks = self.looks.saturating_add(1);
        self.trips = self.trips.saturating_add(look.trips as u64);
        self.seconds += seconds;
    }

    pub(crate) fn looks_in_a_second(&self) -> f64
        ensures { result ≡ rate self.now }
    {
        nearest_u64_to_f64(self.looks) / self.seconds
    }

    pub(crate) fn microseconds_of_a_look(&self) -> f64
        ensures { result ≡ look_time self.now }
    {
        self.seconds * 1e6 / nearest_u64_to_f64(self.looks)
    }

    pub(crate) fn trips_of_a_look(&self) -> f64
        ensures { result ≡ look_trips self.now }
    {
        nearest_u64_to_f64(self.trips) / nearest_u64_to_f64(self.looks)
    }

    // The nanoseconds that a trip takes for each bit of the block.
    pub(crate) fn nanoseconds_of_a_bit(&self, block_length: usize) -> f64
        ensures { result ≡ bit_time self.now block_length }
    {
        self.seconds * 1e9 / nearest_u64_to_f64(self.trips) / nearest_usize_to_f64(block_length)
    }
}

// One look, and its seconds.
pub(crate) fn timed_look(
    rt: &HostRuntime,
    plan: &Plan,
    judge: Judge,
    decoder: &mut Decoder,
    values: &[i16],
) -> Result<(Look, Duration), Trouble> {
    let start = Instant::now(rt)?;
    let look = decoder.look(plan, judge, values)?;
    Ok((look, start.elapsed(rt)?))
}

// The most looks that are taken, and the seconds after which no further look is begun.
const MOST: usize = 500;

const ENOUGH: f64 = 0.5;

const SEED: u64 = 5069;

// Looks at drawn blocks, one or more, until they have taken long enough.
pub(crate) fn measured(
    rt: &HostRuntime,
    plan: &Plan,
    judge: Judge,
    decibels: i8,
) -> Result<Taken, Trouble>
    ensures { IfOk result (λ t. Looks t) }
{
    let mut decoder = Decoder::new(rt.alloc(), plan)?;
    let mut source = Source::new(plan, decibels, SEED);
    let mut taken = Taken::default();
    for _ in 0..MOST {
        let drawn = source.draw(rt.alloc(), plan)?;
        let (look, time) = timed_look(rt, plan, judge, &mut decoder, drawn.values.as_slice())?;
        taken.add(look, time.as_secs_f64());
        if taken.seconds > ENOUGH {
            break;
        }
    }
    Ok(taken)
}
