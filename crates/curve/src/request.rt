// What the arguments ask for.
ghost use Rattle.std.specs.Prelude.{◌≡◌, ◌⊎◌, ◌≤◌, length, codes, string_bytes, MatchBool, MatchResult};
ghost use Rattle.std.specs.List.{position, position_or_len};
ghost use Rattle.curve.specs.Sentences.{no_number, slip_sentence};
ghost use Rattle.curve.specs.Words.{bytes_of, Writes, WritesDecibels, IsNoNumber, IsNoRatio, Names, RefusesFour, NamesRow, RefusesRow, set, HasValue, LacksNumber, IsNoName, IsOption, RefusesOption, SetsAll, RefusesAll, is_dashed, usual_of, CanRun, AsksRun, RefusesRun, Asks, Refuses};

use crate::choice::{Choice, Run};
use crate::trouble::Slip;
use rows::Row;

pub enum Request {
    // the standard's table
    Rows,
    // how long the longest row takes
    Time,
    // one block of a row, as it goes on the air
    Send(Choice),
    // an error curve
    Curve(Run),
}

// What one option sets.
#[derive(Clone, Copy)]
enum Setting {
    From(i8),
    To(i8),
    Blocks(usize),
    Seed(u64),
    Svg,
}

impl Run {
    // The usual run of a row.
    fn of(choice: Choice) -> Run
        ensures { result ≡ usual_of choice }
    {
        Run {
            choice,
            ..Run::default()
        }
    }

    // The run with one thing set.
    fn with(self, setting: Setting) -> Run
        ensures { result ≡ set setting self }
    {
        let mut run = self;
        match setting {
            Setting::From(decibels) => run.from = decibels,
            Setting::To(decibels) => run.to = decibels,
            Setting::Blocks(blocks) => run.blocks = blocks,
            Setting::Seed(seed) => run.seed = seed,
            Setting::Svg => run.svg = true,
        }
        run
    }
}

// The request of these arguments: a word first, or a row and options.
pub(crate) fn request_of(words: &[String]) -> Result<Request, Slip>
    ensures { MatchResult result (λ request. Asks (bytes_of words.now) request) (λ slip. Refuses (bytes_of words.now) (slip_sentence slip)) }
{
    let [word, rest @ ..] = words else {
        return Ok(Request::Curve(Run::default()));
    };
    match word.as_str() {
        "rows" => Ok(Request::Rows),
        "time" => Ok(Request::Time),
        "send" => Ok(Request::Send(choice_of(rest)?)),
        _ => Ok(Request::Curve(run_of(words)?)),
    }
}

// The four numbers of a row and its code, or none for the usual row.
fn choice_of(words: &[String]) -> Result<Choice, Slip>
    ensures { MatchResult result (λ c. NamesRow (bytes_of words.now) c) (λ slip. RefusesRow (bytes_of words.now) (slip_sentence slip)) }
{
    match words {
        [] => Ok(Choice::default()),
        [bandwidth, waveform, interleaver, constraint] => four_numbers(
            bandwidth.as_str(),
            waveform.as_str(),
            interleaver.as_str(),
            constraint.as_str(),
        ),
        _ => Err(Slip::Count),
    }
}

// The row and the constraint length that four words name.
fn four_numbers(
    bandwidth: &str,
    waveform: &str,
    interleaver: &str,
    constraint: &str,
) -> Result<Choice, Slip>
    ensures { MatchResult result (λ c. Names bandwidth.now waveform.now interleaver.now constraint.now c) (λ slip. RefusesFour bandwidth.now waveform.now interleaver.now constraint.now (slip_sentence slip)) }
{
    let bandwidth = number(bandwidth, "bandwidth")? as usize;
    let waveform = number(waveform, "waveform")? as usize;
    let interleaver = number(interleaver, "interleaver")? as usize;
    let constraint = number(constraint, "constraint length")? as usize;
    Ok(Choice {
        row: Row {
            bandwidth,
            waveform,
            interleaver,
        },
        constraint,
    })
}

// The number that a word writes. What it is called comes into the slip.
fn number(word: &str, name: &'static str) -> Result<u64, Slip>
    ensures { MatchResult result (λ n. Writes word.now n) (λ slip. IsNoNumber word.now × (slip_sentence slip ≡ no_number name.now)) }
{
    match word.parse::<u64>() {
        Ok(n) => Ok(n),
        Err(_) => Err(Slip::Number(name)),
    }
}

// The same of a ratio.
fn ratio(word: &str, name: &'static str) -> Result<i8, Slip>
    ensures { MatchResult result (λ z. WritesDecibels word.now z) (λ slip. IsNoRatio word.now × (slip_sentence slip ≡ no_number name.now)) }
{
    match word.parse::<i8>() {
        Ok(decibels) => Ok(decibels),
        Err(_) => Err(Slip::Number(name)),
    }
}

// An option begins with two dashes.
fn is_option(word: &str) -> bool
    ensures { result ≡ is_dashed word.now }
{
    word.starts_with("--")
}

// The place of the first option.
fn first_option(words: &[String]) -> Option<usize>
    ensures { result ≡ position (λ w. is_dashed (string_bytes w)) words.now }
{
    words.iter().position(|word| is_option(word.as_str()))
}

// How many arguments stand before the options.
fn numbers_in_front(words: &[String]) -> usize
    ensures place { result ≡ position_or_len is_dashed (bytes_of words.now) }
    ensures within { result ≤ length words.now }
{
    first_option(words).unwrap_or(words.len())
}

fn run_of(words: &[String]) -> Result<Run, Slip>
    ensures { MatchResult result (λ run. AsksRun (bytes_of words.now) run) (λ slip. RefusesRun (bytes_of words.now) (slip_sentence slip)) }
{
    let (row, options) = words.split_at(numbers_in_front(words));
    let choice = choice_of(row)?;
    let run = with_all(Run::of(choice), options)?;
    if can_run(&run) {
        Ok(run)
    } else {
        Err(Slip::Nothing)
    }
}

// There is a ratio and a block to run.
fn can_run(run: &Run) -> bool
    ensures { MatchBool result (CanRun run.now) (CanRun run.now → ⊥) }
{
    run.from <= run.to && run.blocks != 0
}

// The run with what the options set, the first one first.
fn with_all(run: Run, options: &[String]) -> Result<Run, Slip>
    ensures { MatchResult result (λ all. SetsAll (bytes_of options.now) run all) (λ slip. RefusesAll (bytes_of options.now) (slip_sentence slip)) }
{
    let mut now = run;
    for word in options {
        now = now.with(setting_of(word.as_str())?);
    }
    Ok(now)
}

fn setting_of(word: &str) -> Result<Setting, Slip>
    ensures { MatchResult result (λ s. IsOption word.now s) (λ slip. RefusesOption word.now (slip_sentence slip)) }
{
    match word.split_once('=') {
        Some((name, value)) => valued_setting(name, value),
        None if word == "--svg" => Ok(Setting::Svg),
        None => Err(Slip::Word),
    }
}

// What an option of this name and value sets.
fn valued_setting(name: &str, value: &str) -> Result<Setting, Slip>
    ensures { MatchResult result (λ s. HasValue name.now value.now s) (λ slip. LacksNumber name.now value.now (slip_sentence slip) ⊎ (IsNoName name.now × (slip_sentence slip ≡ codes "there is no such word or option"))) }
{
    match name {
        "--from" => Ok(Setting::From(ratio(value, "first ratio")?)),
        "--to" => Ok(Setting::To(ratio(value, "last ratio")?)),
        "--blocks" => Ok(Setting::Blocks(number(value, "count of blocks")? as usize)),
        "--seed" => Ok(Setting::Seed(number(value, "seed")?)),
        _ => Err(Slip::Word),
    }
}
