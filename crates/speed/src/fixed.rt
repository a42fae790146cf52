// A few blocks, always the same.
use crate::decoder::Decoder;
use crate::judge::{JUDGES, Judge};
use crate::plans::half_rate_plan;
use crate::source::{Drawn, Source};
use crate::trouble::Trouble;
use errors::differences;
use plan::Plan;

const SEED: u64 = 5069;

pub(crate) fn show_fixed(rt: &HostRuntime) -> Result<(), Trouble> {
    println!(rt; "k     B   dB  kind          trips  bit errors  score")?;
    for constraint in [7, 9] {
        show_block(rt, constraint, 136, 0)?;
        show_block(rt, constraint, 136, 3)?;
    }
    show_block(rt, 7, 3072, 3)
}

// One block, looked at by each kind.
fn show_block(
    rt: &HostRuntime,
    constraint: usize,
    block_length: usize,
    decibels: i8,
) -> Result<(), Trouble> {
    let plan = half_rate_plan(rt.alloc(), constraint, block_length)?;
    let mut decoder = Decoder::new(rt.alloc(), &plan)?;
    let drawn = Source::new(&plan, decibels, SEED).draw(rt.alloc(), &plan)?;
    for judge in JUDGES {
        print!(rt; "{constraint}{block_length:>6}{decibels:>5}  ")?;
        show_look(rt, &plan, judge, &drawn, &mut decoder)?;
    }
    Ok(())
}

fn show_look(
    rt: &HostRuntime,
    plan: &Plan,
    judge: Judge,
    drawn: &Drawn,
    decoder: &mut Decoder,
) -> Result<(), Trouble> {
    let look = decoder.look(plan, judge, drawn.values.as_slice())?;
    let errors = differences(drawn.block.as_slice(), decoder.block.as_slice());
    let trips = look.trips;
    let score = look.score;
    Ok(println!(rt; "{judge:<12}{trips:>7}{errors:>12}  {score}")?)
}
