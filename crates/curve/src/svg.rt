// The curve as SVG.
ghost use Rattle.std.specs.Prelude.{◌≡◌, ◌*◌, map, Some, OnOk};
ghost use Rattle.std.specs.Fmt.{decimal};
ghost use Rattle.std.specs.Io.KnownBytes.{Appends};
ghost use Rattle.curve.specs.Dots.{rate_of};
ghost use Rattle.curve.specs.Pictures.{steps_below as steps_of, height as height_of, across as across_of, place_text, point, circle_text, circle, rule_text, rule, picture};
ghost use Rattle.curve.specs.Plots.{numbered};

use crate::choice::Choice;
use crate::counting::Dot;
use std::io::Write;
use std::{fmt, io};

// The ratio of two rates that stand one step apart: twenty steps are a power of ten.
// The same number as a decibel's of the simulator, of another thing.
const STEP: f64 = 0.8912509381337456;

// Five powers of ten are drawn; a lower rate stands on the last line.
const STEPS: usize = 100;

// The rates at which the picture has a line.
static LABELS: [&str; 6] = ["1", "0.1", "0.01", "0.001", "0.0001", "0.00001"];

// How many steps a rate stands below 1.
fn steps_below(rate: f64) -> usize
    ensures { result ≡ steps_of rate }
{
    (0..STEPS)
        .scan(1.0, |at, _| {
            *at *= STEP;
            Some(*at)
        })
        .filter(|at| rate <= *at)
        .count()
}

// The heights of the picture's lines, from its top. Not one function with the place of a column: the numbers of the two scales would stand at each call.
fn height(steps: usize) -> usize
    ensures { result ≡ height_of steps }
{
    steps.saturating_mul(4).saturating_add(40)
}

// The place of a column from the left.
fn across(column: usize) -> usize
    ensures { result ≡ across_of column }
{
    column.saturating_mul(50).saturating_add(90)
}

// Where a dot stands, from the left and from the top: a point of the curve.
#[derive(Clone, Copy)]
struct Place {
    x: usize,
    y: usize,
}

impl Place {
    fn of(column: usize, dot: &Dot) -> Place
        ensures x { result.x ≡ across_of column }
        ensures y { result.y ≡ height_of (steps_of (rate_of dot.now.count)) }
    {
        Place {
            x: across(column),
            y: height(steps_below(dot.rate())),
        }
    }
}

impl fmt::Display for Place {
    ghost output = { λ place. Some (place_text place.x place.y) };

    fn fmt<W: fmt::Write>(&self, f: &mut fmt::Formatter<W>) -> fmt::Result {
        let Place { x, y } = *self;
        write!(f, "{x},{y} ")
    }
}

// The whole picture.
pub(crate) fn show_svg<W: Write>(output: &mut W, choice: Choice, dots: &[Dot]) -> io::Result<()>
    ensures { OnOk result (Appends (W.contents output.old) (W.contents output.new) (picture choice dots.now)) }
{
    let wide = across(dots.len());
    let rules = Rules {
        wide,
        labels: &LABELS,
    };
    let points = Points(dots);
    let circles = Circles(dots);
    write!(
        output,
        "<svg xmlns=\"http://www.w3.org/2000/svg\" width=\"{wide}\" height=\"500\" font-family=\"sans-serif\" font-size=\"12\">\n<rect width=\"100%\" height=\"100%\" fill=\"white\"/>\n{rules}<polyline fill=\"none\" stroke=\"black\" points=\"{points}\"/>\n{circles}<text x=\"10\" y=\"20\">bit error rate, {choice}: best possible decoding</text>\n</svg>\n"
    )
}

// A line for each power of ten.
#[derive(Clone, Copy)]
struct Rules<'a> {
    wide: usize,
    labels: &'a [&'a str],
}

impl fmt::Display for Rules<'_> {
    ghost output = { λ rules. Some (numbered (rule rules.wide) 0 (map (λ label. label.now) rules.labels.now)) };

    fn fmt<W: fmt::Write>(&self, f: &mut fmt::Formatter<W>) -> fmt::Result {
        let labels = self.labels;
        for (power, label) in labels.iter().enumerate() {
            let rule = Rule::of(self.wide, power, label);
            write!(f, "{rule}")?;
        }
        Ok(())
    }
}

// The line of a power of ten, and its label.
#[derive(Clone, Copy)]
struct Rule<'a> {
    wide: usize,
    y: usize,
    label: &'a str,
}

impl<'a> Rule<'a> {
    fn of(wide: usize, power: usize, label: &&'a str) -> Rule<'a>
        ensures { rule_text result.wide result.y result.label.now ≡ rule wide power label.now.now }
    {
        Rule {
            wide,
            y: height(power.saturating_mul(20)),
            label: *label,
        }
    }
}

impl fmt::Display for Rule<'_> {
    ghost output = { λ rule. Some (rule_text rule.wide rule.y rule.label.now) };

    fn fmt<W: fmt::Write>(&self, f: &mut fmt::Formatter<W>) -> fmt::Result {
        let Rule { wide, y, label } = *self;
        write!(
            f,
            "<line x1=\"70\" x2=\"{wide}\" y1=\"{y}\" y2=\"{y}\" stroke=\"silver\"/><text x=\"10\" y=\"{y}\">{label}</text>\n"
        )
    }
}

// The points of the curve.
#[derive(Clone, Copy)]
struct Points<'a>(&'a [Dot]);

impl fmt::Display for Points<'_> {
    ghost output = { λ points. Some (numbered point 0 points.0.now) };

    fn fmt<W: fmt::Write>(&self, f: &mut fmt::Formatter<W>) -> fmt::Result {
        let dots = self.0;
        for (column, dot) in dots.iter().enumerate() {
            let place = Place::of(column, dot);
            write!(f, "{place}")?;
        }
        Ok(())
    }
}

// A circle for each dot, and under it the ratio.
#[derive(Clone, Copy)]
struct Circles<'a>(&'a [Dot]);

impl fmt::Display for Circles<'_> {
    ghost output = { λ circles. Some (numbered circle 0 circles.0.now) };

    fn fmt<W: fmt::Write>(&self, f: &mut fmt::Formatter<W>) -> fmt::Result {
        let dots = self.0;
        for (column, dot) in dots.iter().enumerate() {
            let circle = Circle::of(column, dot);
            write!(f, "{circle}")?;
        }
        Ok(())
    }
}

#[derive(Clone, Copy)]
struct Circle {
    place: Place,
    decibels: i8,
}

impl Circle {
    fn of(column: usize, dot: &Dot) -> Circle
        ensures { circle_text result.place.x result.place.y result.decibels ≡ circle column dot.now }
    {
        Circle {
            place: Place::of(column, dot),
            decibels: dot.decibels,
        }
    }
}

impl fmt::Display for Circle {
    ghost output = { λ circle. Some (circle_text circle.place.x circle.place.y circle.decibels) };

    fn fmt<W: fmt::Write>(&self, f: &mut fmt::Formatter<W>) -> fmt::Result {
        let Place { x, y } = self.place;
        let decibels = self.decibels;
        write!(
            f,
            "<circle cx=\"{x}\" cy=\"{y}\" r=\"4\"/><text x=\"{x}\" y=\"460\" text-anchor=\"middle\">{decibels} dB</text>\n"
        )
    }
}

#[cfg(test)]
mod tests {
    use super::*;
    use std::test::Fail;

    // Twenty steps are a power of ten: a half is between the sixth and the seventh.
    #[test]
    fn rates_stand_on_their_steps(rt: HostRuntime) -> Result<(), Fail> {
        assert_eq!(rt; steps_below(1.0), 0);
        assert_eq!(rt; steps_below(STEP), 1);
        assert_eq!(rt; steps_below(0.5), 6);
        assert_eq!(rt; steps_below(0.11), 19);
        assert_eq!(rt; steps_below(0.0), STEPS);
        Ok(())
    }
}
