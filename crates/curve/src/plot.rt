// The dots as lines of numbers, and as a plot of text.
ghost use Rattle.std.specs.Prelude.{◌≡◌, map, Some, OnOk};
ghost use Rattle.std.specs.Io.KnownBytes.{Appends};
ghost use Rattle.std.specs.List.{flat_map};
ghost use Rattle.curve.specs.Plots.{dot_line, dots_text, rate_text, line_of, mark, plot_line, plot_lines, decibels_in, scale, plot};

use crate::choice::Choice;
use crate::counting::Dot;
use errors::Count;
use std::io::Write;
use std::{fmt, io};

// The rates at which the plot has a line, and under them a line for less.
static LEVELS: [f64; 10] = [0.5, 0.2, 0.1, 0.05, 0.02, 0.01, 0.005, 0.002, 0.001, 0.0005];

// What stands in front of these lines.
static LABELS: [&str; 11] = [
    " 0.5000 |",
    " 0.2000 |",
    " 0.1000 |",
    " 0.0500 |",
    " 0.0200 |",
    " 0.0100 |",
    " 0.0050 |",
    " 0.0020 |",
    " 0.0010 |",
    " 0.0005 |",
    "   less |",
];

// A line for each dot, under a line with what its numbers are.
pub(crate) fn show_dots<W: Write>(output: &mut W, dots: &[Dot]) -> io::Result<()>
    ensures { OnOk result (Appends (W.contents output.old) (W.contents output.new) (dots_text dots.now)) }
{
    write!(
        output,
        "   dB  blocks      bits  bit errors  block errors     rate         score\n"
    )?;
    for dot in dots {
        show_dot(output, dot)?;
    }
    Ok(())
}

fn show_dot<W: Write>(output: &mut W, dot: &Dot) -> io::Result<()>
    ensures { OnOk result (Appends (W.contents output.old) (W.contents output.new) (dot_line dot.now)) }
{
    let line = DotLine(*dot);
    write!(output, "{line}")
}

// What is counted of a dot.
#[derive(Clone, Copy)]
struct DotLine(Dot);

impl fmt::Display for DotLine {
    ghost output = { λ line. Some (dot_line line.0) };

    fn fmt<W: fmt::Write>(&self, f: &mut fmt::Formatter<W>) -> fmt::Result {
        let Dot {
            decibels,
            count,
            score,
        } = self.0;
        let Count {
            blocks,
            bits,
            bit_errors,
            block_errors,
        } = count;
        let rate = Rate(self.0);
        write!(
            f,
            "{decibels:>5}{blocks:>8}{bits:>10}{bit_errors:>12}{block_errors:>14}{rate}{score:>14}\n"
        )
    }
}

// The rate of a dot, by five decimals. Not as a float: no contract says how one is written.
#[derive(Clone, Copy)]
struct Rate(Dot);

impl fmt::Display for Rate {
    ghost output = { λ rate. Some (rate_text rate.0.count) };

    fn fmt<W: fmt::Write>(&self, f: &mut fmt::Formatter<W>) -> fmt::Result {
        let parts = self.0.hundred_thousandths();
        let whole = parts / 100_000;
        let part = parts % 100_000;
        write!(f, "{whole:>3}.{part:05}")
    }
}

// A line for each level, a column for each ratio, and under them the row.
pub(crate) fn show_plot<W: Write>(output: &mut W, choice: Choice, dots: &[Dot]) -> io::Result<()>
    ensures { OnOk result (Appends (W.contents output.old) (W.contents output.new) (plot choice dots.now)) }
{
    let lines = Lines {
        dots,
        labels: &LABELS,
    };
    let scale = Scale(dots);
    write!(
        output,
        "bit error rate\n{lines}{scale}{choice}: best possible decoding\n"
    )
}

// A line for each label.
#[derive(Clone, Copy)]
struct Lines<'a> {
    dots: &'a [Dot],
    labels: &'a [&'a str],
}

impl fmt::Display for Lines<'_> {
    ghost output = { λ lines. Some (plot_lines lines.dots.now 0 (map (λ label. label.now) lines.labels.now)) };

    fn fmt<W: fmt::Write>(&self, f: &mut fmt::Formatter<W>) -> fmt::Result {
        let labels = self.labels;
        for (level, label) in labels.iter().enumerate() {
            let line = Line::of(self.dots, level, label);
            write!(f, "{line}")?;
        }
        Ok(())
    }
}

// The line of a level, behind its label.
#[derive(Clone, Copy)]
struct Line<'a> {
    dots: &'a [Dot],
    level: usize,
    label: &'a str,
}

impl<'a> Line<'a> {
    fn of(dots: &'a [Dot], level: usize, label: &&'a str) -> Line<'a>
        ensures { plot_line result.dots.now result.level result.label.now ≡ plot_line dots.now level label.now.now }
    {
        Line {
            dots,
            level,
            label: *label,
        }
    }
}

impl fmt::Display for Line<'_> {
    ghost output = { λ line. Some (plot_line line.dots.now line.level line.label.now) };

    fn fmt<W: fmt::Write>(&self, f: &mut fmt::Formatter<W>) -> fmt::Result {
        let label = self.label;
        let marks = Marks {
            dots: self.dots,
            level: self.level,
        };
        write!(f, "{label}{marks}\n")
    }
}

// A star for each dot that is on this level.
#[derive(Clone, Copy)]
struct Marks<'a> {
    dots: &'a [Dot],
    level: usize,
}

impl fmt::Display for Marks<'_> {
    ghost output = { λ marks. Some (flat_map (mark marks.level) marks.dots.now) };

    fn fmt<W: fmt::Write>(&self, f: &mut fmt::Formatter<W>) -> fmt::Result {
        let dots = self.dots;
        for dot in dots {
            f.write_str(mark_of(dot, self.level))?;
        }
        Ok(())
    }
}

fn mark_of(dot: &Dot, level: usize) -> &'static str
    ensures { result.now ≡ mark level dot.now }
{
    if level_of(dot.rate()) == level {
        "    *"
    } else {
        "     "
    }
}

// The first level that the rate reaches.
#[tactic(auto, unfolding(crate::specs::Plots::line_of))]
fn level_of(rate: f64) -> usize
    ensures { result ≡ line_of rate }
{
    LEVELS.iter().filter(|level| rate < **level).count()
}

// The ratios of the columns.
#[derive(Clone, Copy)]
struct Ratios<'a>(&'a [Dot]);

impl fmt::Display for Ratios<'_> {
    ghost output = { λ ratios. Some (flat_map (λ d. decibels_in 5 d.decibels) ratios.0.now) };

    fn fmt<W: fmt::Write>(&self, f: &mut fmt::Formatter<W>) -> fmt::Result {
        let dots = self.0;
        for dot in dots {
            let decibels = ratio_of(dot);
            write!(f, "{decibels:>5}")?;
        }
        Ok(())
    }
}

fn ratio_of(dot: &Dot) -> i8
    ensures { result ≡ dot.now.decibels }
{
    dot.decibels
}

// The line under the columns.
#[derive(Clone, Copy)]
struct Scale<'a>(&'a [Dot]);

impl fmt::Display for Scale<'_> {
    ghost output = { λ line. Some (scale line.0.now) };

    fn fmt<W: fmt::Write>(&self, f: &mut fmt::Formatter<W>) -> fmt::Result {
        let ratios = Ratios(self.0);
        write!(f, "     dB {ratios}\n")
    }
}
