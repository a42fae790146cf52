// How the values of a step are gathered, and taken into a score.
ghost use Rattle.std.specs.Prelude.{◌≡◌, ◌+◌, ◌<◌, [], ◌∷◌, ◌++◌};
ghost use Rattle.plan.specs.Plans.{plan_scheme};
ghost use Rattle.score.specs.Blocks.{value_at, named, absorbed, absorbed_both};
ghost use Rattle.score.specs.Gathered.{held, held_both, step_values_within};

use crate::gathered::{BitValues, StepValues};
use crate::kind::Kind;
use code::Run;
use plan::Plan;

impl BitValues {
    // No values. Default cannot be derived for a struct with a ghost field.
    fn none() -> BitValues
        ensures { (held result ≡ []) × (result.count ≡ 0) }
    {
        BitValues {
            items: [0; 32],
            count: 0,
        }
    }

    fn push(&mut self, value: i16)
        requires { self.old.count < 32 }
        ensures { (held self.new ≡ held self.old ++ value ∷ []) × (self.new.count ≡ self.old.count + 1) }
    {
        self.items[self.count] = value;
        self.count += 1;
    }

    // The values, in order.
    pub fn as_slice(&self) -> &[i16]
        ensures { result.now ≡ held self.now }
    {
        &self.items[..self.count]
    }

    fn absorb<K: Kind>(&self, kind: &K, bit: bool, score: K::Score) -> K::Score
        ensures { result ≡ absorbed (K.Kind.scale kind.now) (held self.now) bit score }
    {
        absorb(kind, score, self.as_slice(), bit)
    }
}

// The value of a location: -32,768 is read as -32,767, and past the end there is 0.
fn read(memory: &[i16], location: usize) -> i16
    ensures { result ≡ value_at memory.now location }
{
    memory.get(location).copied().unwrap_or(0).max(-32_767)
}

// The values of the sent bits of this run of the send list whose entry is this one.
fn named(run: &Run<'_>, memory: &[i16], wanted: usize) -> BitValues
    ensures { held result ≡ named (plan_scheme run.now.plan.now) (value_at memory.now) run.now.number wanted }
{
    let list = run.plan.parts().send_list.as_slice();
    let mut found = BitValues::none();
    for (i, entry) in list.iter().enumerate() {
        if usize::from(*entry) == wanted {
            found.push(read(memory, run.location(i).unwrap()));
        }
    }
    found
}

// The values of step t of a block, gathered from the memory. Past the block there are none.
pub fn gather(plan: &Plan, memory: &[i16], t: usize) -> StepValues
    ensures { held_both result ≡ step_values_within (plan_scheme plan.now) (value_at memory.now) t }
{
    let Some(run) = Run::of_step(plan, t) else {
        return StepValues {
            first: BitValues::none(),
            second: BitValues::none(),
        };
    };
    let entry = 2 * (t % plan.parts().period);
    StepValues {
        first: named(&run, memory, entry),
        second: named(&run, memory, entry + 1),
    }
}

// The score extended by each value in turn, against one bit.
pub fn absorb<K: Kind>(kind: &K, score: K::Score, values: &[i16], bit: bool) -> K::Score
    ensures { result ≡ absorbed (K.Kind.scale kind.now) values.now bit score }
{
    let mut score = score;
    for value in values {
        score = kind.extend(score, *value, bit);
    }
    score
}

impl StepValues {
    // The score extended by the values of the first bit, and then by those of the second.
    pub fn absorb<K: Kind>(&self, kind: &K, bits: (bool, bool), score: K::Score) -> K::Score
        ensures { result ≡ absorbed_both (K.Kind.scale kind.now) (held_both self.now) bits score }
    {
        let StepValues { first, second } = self;
        let (b0, b1) = bits;
        second.absorb(kind, b1, first.absorb(kind, b0, score))
    }
}
