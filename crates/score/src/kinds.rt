// The three kinds of score. Each writes out its start and its order: provided ones would ask every kind for an ordered score with a least value.
ghost use Rattle.std.specs.Prelude.{◌≡◌};
ghost use Rattle.score.specs.Kinds.{total_scale, worst_scale, count_scale, counted};
ghost use Rattle.std.proofs.Common.{rules};
ghost use Rattle.score.specs.Tallies.{count_lawful};

use crate::kind::Kind;
use crate::tally::Tally;
use crate::value::*;

// Adds the weights of contradicted values, and stops at the greatest number.
#[derive(Clone, Copy, Debug)]
pub struct Total;

impl Kind for Total {
    type Score = u64;

    ghost scale = { λ _. total_scale };

    ghost lawful = { Prim.search rules };

    fn start(&self) -> u64 {
        0
    }

    fn extend(&self, score: u64, value: i16, bit: bool) -> u64 {
        score.saturating_add(u64::from(weight(value, bit)))
    }

    fn no_worse(&self, a: u64, b: u64) -> bool {
        a <= b
    }
}

// Keeps the greatest weight of a contradicted value.
#[derive(Clone, Copy, Debug)]
pub struct Worst;

impl Kind for Worst {
    type Score = u16;

    ghost scale = { λ _. worst_scale };

    ghost lawful = { Prim.search rules };

    fn start(&self) -> u16 {
        0
    }

    fn extend(&self, score: u16, value: i16, bit: bool) -> u16 {
        score.max(weight(value, bit))
    }

    fn no_worse(&self, a: u16, b: u16) -> bool {
        a <= b
    }
}

// Counts the contradicted places, and then adds their weights.
#[derive(Clone, Copy, Debug)]
pub struct CountFirst;

impl Kind for CountFirst {
    type Score = Tally;

    ghost scale = { λ _. count_scale };

    ghost lawful = { λ k. count_lawful };

    fn start(&self) -> Tally {
        Tally::Counted(0, 0)
    }

    fn extend(&self, score: Tally, value: i16, bit: bool) -> Tally {
        if is_contradicted(value, bit) {
            one_more(score, weight(value, bit))
        } else {
            score
        }
    }

    fn no_worse(&self, a: Tally, b: Tally) -> bool {
        a <= b
    }
}

// The score with one contradicted place more, of this weight.
fn one_more(score: Tally, weight: u16) -> Tally
    ensures { result ≡ counted score weight }
{
    match score {
        Tally::Counted(count, total) => {
            if count >= u32::MAX - 1 {
                Tally::Full
            } else {
                Tally::Counted(count + 1, total.saturating_add(u64::from(weight)))
            }
        }
        Tally::Full => Tally::Full,
    }
}
