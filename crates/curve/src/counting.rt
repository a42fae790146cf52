// The dots of a curve: what is counted at each ratio.
ghost use Rattle.std.specs.Prelude.{◌≡◌, ◌<◌, IfOk};
ghost use Rattle.curve.specs.Dots.{with_trial, rate_of, IsDot, IsCurve};
ghost use Rattle.curve.specs.Plots.{hundred_thousandths, IsNearest};

use crate::choice::Run;
use crate::trial::{Trial, run_trial};
use crate::trouble::Trouble;
use channel::Air;
use errors::Count;
use std::alloc::Global;
use std::num::nearest_u64_to_f64;

#[derive(Clone, Copy, Default)]
pub struct Dot {
    pub decibels: i8,
    pub count: Count,
    // the sum of the scores
    pub score: u64,
}

impl Dot {
    // One block more.
    fn add(&mut self, trial: &Trial)
        ensures { self.new ≡ with_trial self.old trial.now.sent.items trial.now.shown.items trial.now.score }
    {
        self.count
            .add(trial.sent.as_slice(), trial.shown.as_slice());
        self.score = self.score.saturating_add(trial.score);
    }

    // Bit errors for each bit.
    pub(crate) fn rate(&self) -> f64
        ensures { result ≡ rate_of self.now.count }
    {
        let Count {
            bits,
            bit_errors,
            ..
        } = self.count;
        nearest_u64_to_f64(bit_errors as u64) / nearest_u64_to_f64(bits as u64)
    }

    // The same in hundred-thousandths, to the nearest and a half upward; 0 where there is no bit.
    pub(crate) fn hundred_thousandths(&self) -> u128
        ensures value { result ≡ hundred_thousandths self.now.count }
        ensures nearest { 0 < self.now.count.bits → IsNearest self.now.count.bit_errors self.now.count.bits result }
    {
        let Count {
            bits,
            bit_errors,
            ..
        } = self.count;
        (bit_errors as u128 * 200_000 + bits as u128)
            .checked_div(bits as u128 * 2)
            .unwrap_or(0)
    }
}

// A dot for each ratio; how far it has come goes to standard error.
pub(crate) fn dots_of(rt: &HostRuntime, run: Run) -> Result<Vec<Dot>, Trouble>
    ensures { IfOk result (λ v. IsCurve run v.items) }
{
    let mut dots = Vec::new(rt.alloc());
    for decibels in run.from..=run.to {
        let dot = dot_at(rt.alloc(), run, decibels)?;
        let errors = dot.count.bit_errors;
        eprintln!(rt; "{decibels} dB: {errors} bit errors")?;
        dots.push(dot)?;
    }
    Ok(dots)
}

// Each ratio begins with the same seed, so that all send the same first block.
fn dot_at(heap: Global, run: Run, decibels: i8) -> Result<Dot, Trouble>
    ensures { IfOk result (IsDot run decibels) }
{
    let mut air = Air::new(run.seed, decibels);
    let mut dot = Dot {
        decibels,
        ..Dot::default()
    };
    for _ in 0..run.blocks {
        dot.add(&run_trial(heap, run.choice, &mut air)?);
    }
    Ok(dot)
}
