// The ways into eight states, and the ones that survive.
ghost use Rattle.std.specs.Prelude.{◌≡◌, ℕ, ◌+◌, ◌*◌, ◌^◌, ◌<◌, ◌≤◌, false, length, not, if◌then◌else◌, slice_index_or};
ghost use Rattle.std.specs.Option.{unwrap_or};
ghost use Rattle.score.specs.Blocks.{absorbed};
ghost use Rattle.trellis.specs.Survivors.{window};
ghost use Rattle.search.specs.Stepping.{scale_of, way_of};

use crate::step::Step;
use code::parity;
use score::Kind;
use trellis::Column;

impl<'p, 'a, K: Kind> Step<'p, 'a, K> {
    // The scores at eight states by the ways that shift this bit out.
    pub(crate) fn ways(&self, old: &Column<'_, K::Score>, group: usize, bit: bool) -> [K::Score; 8]
        requires states { 8 * group + 8 ≤ 2 ^ self.now.pass.now.trellis.memory }
        requires room { 2 ^ self.now.pass.now.trellis.memory ≤ length old.now.scores.now }
        ensures { (i : ℕ) → i < 8 → slice_index_or result i (scale_of self.now.pass.now).start ≡ way_of self.now old.now.scores.now (8 * group + i) bit }
    {
        let pass = self.pass;
        let from = pass.trellis.before(bit, 8 * group);
        let (b0, b1) = parity(pass.plan, self.window(bit, 8 * group));
        let (a, b, c, d) = (
            old.scores[from],
            old.scores[from + 1],
            old.scores[from + 2],
            old.scores[from + 3],
        );
        let scores = [a, a, b, b, c, c, d, d];
        let firsts = [b0, !b0, b0, !b0, !b0, b0, !b0, b0];
        let seconds = [b1, !b1, !b1, b1, !b1, b1, b1, !b1];
        let scores = absorb_each(pass.kind, scores, self.values.first.as_slice(), firsts);
        absorb_each(pass.kind, scores, self.values.second.as_slice(), seconds)
    }

    // The window of the way that shifts this bit out.
    fn window(&self, bit: bool, state: usize) -> u16
        requires { state < 2 ^ self.now.pass.now.trellis.memory }
        ensures { result ≡ window self.now.pass.now.trellis.memory bit state }
    {
        (usize::from(bit) * self.pass.trellis.states() + state) as u16
    }

    // Of the ways that shift 0 and 1 out the better one; of equals the first.
    fn better(&self, zero: K::Score, one: K::Score) -> (bool, K::Score)
        ensures mark { result.0 ≡ not ((scale_of self.now.pass.now).no_worse zero one) }
        ensures score { result.1 ≡ (if (scale_of self.now.pass.now).no_worse zero one then zero else one) }
    {
        if self.pass.kind.no_worse(zero, one) {
            (false, zero)
        } else {
            (true, one)
        }
    }

    // The bit that the surviving way shifts out, and its score: the forced way, else the better one, of equals that of 0.
    pub(crate) fn survivor(&self, zero: K::Score, one: K::Score) -> (bool, K::Score)
        ensures mark { result.0 ≡ unwrap_or self.now.forced (not ((scale_of self.now.pass.now).no_worse zero one)) }
        ensures score { result.1 ≡ (if result.0 then one else zero) }
    {
        match self.forced {
            Some(bit) => (bit, if bit { one } else { zero }),
            None => self.better(zero, one),
        }
    }
}

// Eight scores, each extended by each value in turn against a bit of its own.
fn absorb_each<K: Kind>(
    kind: &K,
    scores: [K::Score; 8],
    values: &[i16],
    bits: [bool; 8],
) -> [K::Score; 8]
    ensures { let k = K.Kind.scale kind.now in (i : ℕ) → i < 8 → slice_index_or result i k.start ≡ absorbed k values.now (slice_index_or bits i false) (slice_index_or scores i k.start) }
{
    let mut scores = scores;
    for value in values {
        scores = extend_each(kind, scores, *value, bits);
    }
    scores
}

// Eight scores, each extended by one value against a bit of its own. Written out, so that the compiler sees which bits are equal.
fn extend_each<K: Kind>(
    kind: &K,
    scores: [K::Score; 8],
    value: i16,
    bits: [bool; 8],
) -> [K::Score; 8]
    ensures { let k = K.Kind.scale kind.now in (i : ℕ) → i < 8 → slice_index_or result i k.start ≡ k.extended (slice_index_or scores i k.start) value (slice_index_or bits i false) }
{
    [
        kind.extend(scores[0], value, bits[0]),
        kind.extend(scores[1], value, bits[1]),
        kind.extend(scores[2], value, bits[2]),
        kind.extend(scores[3], value, bits[3]),
        kind.extend(scores[4], value, bits[4]),
        kind.extend(scores[5], value, bits[5]),
        kind.extend(scores[6], value, bits[6]),
        kind.extend(scores[7], value, bits[7]),
    ]
}
