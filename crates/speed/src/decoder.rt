// The search with memories of its own.
ghost use Rattle.std.specs.Prelude.{◌≡◌, IfOk};
ghost use Rattle.code.specs.Numbers.{bits_of};
ghost use Rattle.plan.specs.Plans.{plan_scheme};
ghost use Rattle.score.specs.Blocks.{value_at};
ghost use Rattle.search.specs.Looking.{Found};
ghost use Rattle.speed.specs.Measuring.{judge_of, Best};

use crate::judge::{Judge, Score};
use plan::{ChainFault, Plan};
use score::{CountFirst, Kind, Tally, Total, Worst};
use search::search_with_trips;
use std::alloc::Global;
use trellis::{Column, Trellis};

// The memories of looks at blocks of one plan: both columns of each kind, the marks, and the block that was shown last.
#[derive(Drop)]
pub struct Decoder {
    totals: Vec<u64>,
    worsts: Vec<u16>,
    tallies: Vec<Tally>,
    marks: Vec<u8>,
    pub block: Vec<u8>,
}

// What a look answered: the score, and how many times it went round the trellis.
#[derive(Clone, Copy)]
pub struct Look {
    pub score: Score,
    pub trips: usize,
}

impl Decoder {
    pub(crate) fn new(heap: Global, plan: &Plan) -> Result<Decoder, ChainFault> {
        let trellis = Trellis::of(plan);
        let states = trellis.states().saturating_mul(2);
        Ok(Decoder {
            totals: vec![in heap; 0; states]?,
            worsts: vec![in heap; 0; states]?,
            tallies: vec![in heap; Tally::Full; states]?,
            marks: vec![in heap; 0; trellis.mark_bytes()]?,
            block: vec![in heap; 0; trellis.size()]?,
        })
    }

    // Looks for the block that fits the values best.
    pub(crate) fn look(
        &mut self,
        plan: &Plan,
        judge: Judge,
        values: &[i16],
    ) -> Result<Look, ChainFault>
        ensures judge { IfOk result (λ look. judge_of look.score ≡ judge) }
        ensures best { IfOk result (λ look. Best (plan_scheme plan.now) (value_at values.now) (bits_of self.new.block.items) look.score) }
    {
        let block = self.block.as_mut_slice();
        let marks = self.marks.as_mut_slice();
        match judge {
            Judge::Total => {
                let scores = self.totals.as_mut_slice();
                let (score, trips) = look_in(plan, &Total, values, block, scores, marks)?;
                Ok(Look {
                    score: Score::Total(score),
                    trips,
                })
            }
            Judge::Worst => {
                let scores = self.worsts.as_mut_slice();
                let (score, trips) = look_in(plan, &Worst, values, block, scores, marks)?;
                Ok(Look {
                    score: Score::Worst(score),
                    trips,
                })
            }
            Judge::CountFirst => {
                let scores = self.tallies.as_mut_slice();
                let (score, trips) = look_in(plan, &CountFirst, values, block, scores, marks)?;
                Ok(Look {
                    score: Score::CountFirst(score),
                    trips,
                })
            }
        }
    }
}

// Half of the memory for scores goes to each column.
fn look_in<K: Kind>(
    plan: &Plan,
    kind: &K,
    values: &[i16],
    block: &mut [u8],
    scores: &mut [K::Score],
    marks: &mut [u8],
) -> Result<(K::Score, usize), ChainFault>
    ensures { IfOk result (λ r. Found (K.Kind.scale kind.now) (plan_scheme plan.now) (value_at values.now) (bits_of block.new) r.0) }
{
    let (first, second) = scores.split_at_mut(scores.len() / 2);
    let mut old = Column { scores: first };
    let mut new = Column { scores: second };
    search_with_trips(plan, kind, values, block, &mut old, &mut new, marks)
}
