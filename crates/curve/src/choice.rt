// Which chain is run: a row of the standard, and a code.
ghost use Rattle.std.specs.Prelude.{◌≡◌, Some};
ghost use Rattle.curve.specs.Captions.{caption, interleaver_note, named_caption};
ghost use Rattle.curve.specs.Usual.{usual_choice, usual_run};

use rows::{Interleaver, Row};
use std::fmt;

#[derive(Clone, Copy)]
pub struct Choice {
    pub row: Row,
    pub constraint: usize,
}

// The row that is run where none is named: 136 bits in, 1,088 out.
impl Default for Choice {
    ghost is_default = { λ choice. choice ≡ usual_choice };

    fn default() -> Choice {
        Choice {
            row: Row {
                bandwidth: 24,
                waveform: 1,
                interleaver: 0,
            },
            constraint: 7,
        }
    }
}

impl Choice {
    // The row with the most bits in a block.
    pub(crate) fn longest() -> Choice {
        Choice {
            row: Row {
                bandwidth: 48,
                waveform: 12,
                interleaver: 3,
            },
            constraint: 7,
        }
    }
}

// The numbers of the choice.
impl fmt::Display for Choice {
    ghost output = { λ choice. Some (caption choice) };

    fn fmt<W: fmt::Write>(&self, f: &mut fmt::Formatter<W>) -> fmt::Result {
        let Choice { row, constraint } = *self;
        let Row {
            bandwidth,
            waveform,
            interleaver,
        } = row;
        write!(
            f,
            "{bandwidth} kHz, waveform {waveform}, interleaver {interleaver}, constraint length {constraint}"
        )
    }
}

// The name behind an interleaver's number, if it has one.
#[derive(Clone, Copy)]
struct Note(usize);

impl fmt::Display for Note {
    ghost output = { λ note. Some (interleaver_note note.0) };

    fn fmt<W: fmt::Write>(&self, f: &mut fmt::Formatter<W>) -> fmt::Result {
        match Interleaver::try_from(self.0) {
            Ok(name) => write!(f, " ({name})"),
            Err(_) => Ok(()),
        }
    }
}

// The numbers of a choice, with the interleaver's name.
#[derive(Clone, Copy)]
pub(crate) struct Named(pub(crate) Choice);

impl fmt::Display for Named {
    ghost output = { λ named. Some (named_caption named.0) };

    fn fmt<W: fmt::Write>(&self, f: &mut fmt::Formatter<W>) -> fmt::Result {
        let Choice { row, constraint } = self.0;
        let Row {
            bandwidth,
            waveform,
            interleaver,
        } = row;
        let note = Note(interleaver);
        write!(
            f,
            "{bandwidth} kHz, waveform {waveform}, interleaver {interleaver}{note}, constraint length {constraint}"
        )
    }
}

// A whole curve: which chain, which ratios, how many blocks at each, and the seed of the first.
#[derive(Clone, Copy)]
pub struct Run {
    pub choice: Choice,
    // in decibels
    pub from: i8,
    pub to: i8,
    pub blocks: usize,
    pub seed: u64,
    pub svg: bool,
}

// A run of a few seconds.
impl Default for Run {
    ghost is_default = { λ run. run ≡ usual_run };

    fn default() -> Run {
        Run {
            choice: Choice::default(),
            from: -10,
            to: -4,
            blocks: 6,
            seed: 5069,
            svg: false,
        }
    }
}
