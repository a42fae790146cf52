// Tables of times.
ghost use Rattle.std.specs.Prelude.{◌≡◌, ℕ, List, [], ◌∷◌, ◌++◌, Some, OnOk, ℤ};
ghost use Rattle.std.specs.Io.KnownBytes.{Appends};
ghost use Rattle.plan.specs.Plans.{plan_scheme};
ghost use Rattle.speed.specs.declared.judge.Judge.TheVariants.{Total};
ghost use Rattle.speed.specs.Tables.{line_text, IsLine, AllKinds, AtRatios, KindsOf, Kinds, ByLength, GrowthOf, Growth, table_head};

use crate::judge::{JUDGES, Judge};
use crate::plans::half_rate_plan;
use crate::timing::{Taken, measured};
use crate::trouble::Trouble;
use plan::Plan;
use rows::Row;
use std::alloc::{AllocError, Global};
use std::fmt;
use std::io::Write;

// The longest row of rate 1/2.
const LONG: Row = Row {
    bandwidth: 36,
    waveform: 4,
    interleaver: 3,
};

// The longest row, of rate 5/6.
const LONGEST: Row = Row {
    bandwidth: 48,
    waveform: 12,
    interleaver: 3,
};

const HEAD: &'static str =
    "| k | B | dB | kind | looks | looks in a second | µs of a look | trips of a look | ns of a bit and trip |
|---|---|---|---|---|---|---|---|---|---|";

// All three kinds, at several ratios.
pub(crate) fn show_kinds<W: Write>(rt: &HostRuntime, output: &mut W) -> Result<(), Trouble>
    ensures { OnOk result ((text : List ℕ) × Kinds text × Appends (W.contents output.old) (W.contents output.new) (table_head ++ text)) }
{
    write!(output, "{HEAD}\n")?;
    show_code(rt, output, 7)?;
    show_code(rt, output, 9)
}

fn show_code<W: Write>(rt: &HostRuntime, output: &mut W, constraint: usize) -> Result<(), Trouble>
    ensures { OnOk result ((text : List ℕ) × KindsOf constraint text × Appends (W.contents output.old) (W.contents output.new) text) }
{
    for block_length in [136, 3072] {
        let plan = half_rate_plan(rt.alloc(), constraint, block_length)?;
        show_ratios(rt, output, &plan, &[0, 1, 2, 3, 5])?;
    }
    show_ratios(rt, output, &LONG.plan(rt.alloc(), constraint)?, &[1, 3])
}

fn show_ratios<W: Write>(
    rt: &HostRuntime,
    output: &mut W,
    plan: &Plan,
    ratios: &[i8],
) -> Result<(), Trouble>
    ensures { OnOk result ((text : List ℕ) × AtRatios (plan_scheme plan.now) ratios.now text × Appends (W.contents output.old) (W.contents output.new) text) }
{
    for decibels in ratios {
        show_judges(rt, output, plan, *decibels)?;
    }
    Ok(())
}

fn show_judges<W: Write>(
    rt: &HostRuntime,
    output: &mut W,
    plan: &Plan,
    decibels: i8,
) -> Result<(), Trouble>
    ensures { OnOk result ((text : List ℕ) × AllKinds (plan_scheme plan.now) decibels text × Appends (W.contents output.old) (W.contents output.new) text) }
{
    for judge in JUDGES {
        show_taken(rt, output, plan, judge, decibels)?;
    }
    Ok(())
}

// Total alone, by the length of the block.
pub(crate) fn show_growth<W: Write>(rt: &HostRuntime, output: &mut W) -> Result<(), Trouble>
    ensures { OnOk result ((text : List ℕ) × Growth text × Appends (W.contents output.old) (W.contents output.new) (table_head ++ text)) }
{
    write!(output, "{HEAD}\n")?;
    show_code_by_length(rt, output, 7)?;
    show_code_by_length(rt, output, 9)
}

fn show_code_by_length<W: Write>(
    rt: &HostRuntime,
    output: &mut W,
    constraint: usize,
) -> Result<(), Trouble>
    ensures { OnOk result ((text : List ℕ) × GrowthOf constraint text × Appends (W.contents output.old) (W.contents output.new) text) }
{
    for decibels in [1, 3, 5] {
        show_lengths(rt, output, constraint, decibels)?;
    }
    show_taken(
        rt,
        output,
        &LONGEST.plan(rt.alloc(), constraint)?,
        Judge::Total,
        7,
    )
}

fn show_lengths<W: Write>(
    rt: &HostRuntime,
    output: &mut W,
    constraint: usize,
    decibels: i8,
) -> Result<(), Trouble>
    ensures { OnOk result ((text : List ℕ) × ByLength constraint decibels text × Appends (W.contents output.old) (W.contents output.new) text) }
{
    for block_length in [136, 512, 3072, 12_288] {
        let plan = half_rate_plan(rt.alloc(), constraint, block_length)?;
        show_taken(rt, output, &plan, Judge::Total, decibels)?;
    }
    show_taken(
        rt,
        output,
        &LONG.plan(rt.alloc(), constraint)?,
        Judge::Total,
        decibels,
    )
}

// A line of a table: what looks at blocks of this plan took.
fn show_taken<W: Write>(
    rt: &HostRuntime,
    output: &mut W,
    plan: &Plan,
    judge: Judge,
    decibels: i8,
) -> Result<(), Trouble>
    ensures { OnOk result ((text : List ℕ) × IsLine (plan_scheme plan.now) decibels judge text × Appends (W.contents output.old) (W.contents output.new) text) }
{
    let taken = measured(rt, plan, judge, decibels)?;
    let times = times_of(rt.alloc(), &taken, plan.parts().block_length)?;
    let line = Line {
        constraint: plan.parts().constraint,
        block_length: plan.parts().block_length,
        decibels,
        judge,
        looks: taken.looks,
        times: times.as_str(),
    };
    Ok(write!(output, "{line}")?)
}

// The times of a line: no contract says how a float is written.
fn times_of(heap: Global, taken: &Taken, block_length: usize) -> Result<String, AllocError> {
    let rate = taken.looks_in_a_second();
    let time = taken.microseconds_of_a_look();
    let trips = taken.trips_of_a_look();
    let bit = taken.nanoseconds_of_a_bit(block_length);
    format!(in heap; "{rate:.2} | {time:.0} | {trips:.2} | {bit:.1} |")
}

// A line of a table, with the text of its times.
#[derive(Clone, Copy)]
struct Line<'a> {
    constraint: usize,
    block_length: usize,
    decibels: i8,
    judge: Judge,
    looks: u64,
    times: &'a str,
}

impl fmt::Display for Line<'_> {
    ghost output = { λ l. Some (line_text l.constraint l.block_length l.decibels l.judge l.looks l.times.now) };

    fn fmt<W: fmt::Write>(&self, f: &mut fmt::Formatter<W>) -> fmt::Result {
        let Line {
            constraint,
            block_length,
            decibels,
            judge,
            looks,
            times,
        } = *self;
        write!(
            f,
            "| {constraint} | {block_length} | {decibels} | {judge} | {looks} | {times}\n"
        )
    }
}
