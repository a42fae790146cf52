// How a receiver shows the best block.
ghost use Rattle.std.specs.Prelude.{◌≡◌, false, take, is_ok, IfOk, if◌then◌else◌};
ghost use Rattle.code.specs.Numbers.{bits_of};
ghost use Rattle.plan.specs.Faults.{chain_number, outcome};
ghost use Rattle.plan.specs.Plans.{plan_scheme};
ghost use Rattle.plan.specs.Scheme.{sent_length};
ghost use Rattle.score.specs.Blocks.{value_at};
ghost use Rattle.search.specs.Looking.{Found, shown, lengths, search_answer};

use crate::receiver::Receiver;
use plan::ChainFault;
use score::Kind;
use scrambler::Scrambler;
use search::search;
use trellis::Column;

impl<S: Scrambler + Drop> Receiver<S> {
    // Writes the best block against the values of the locations, and answers its score. Values past the locations are not read.
    // What the columns and the marks hold afterwards is left open. A memory that is too short is refused, and nothing changes.
    pub fn look<'a, 'c, K: Kind>(
        &'a self,
        kind: &'a K,
        memory: &'a [i16],
        block: &mut [u8],
        old: &mut Column<'c, K::Score>,
        new: &mut Column<'c, K::Score>,
        marks: &mut [u8],
    ) -> Result<K::Score, ChainFault>
        ensures answer { outcome chain_number result ≡ search_answer (plan_scheme self.now.plan) (lengths memory.now block.old old.old.scores.now new.old.scores.now marks.old) }
        ensures found { let k = K.Kind.scale kind.now in let s = plan_scheme self.now.plan in let v = value_at (take (sent_length s) memory.now) in IfOk result (λ score. Found k s v (bits_of block.new) score) }
        ensures block { let k = K.Kind.scale kind.now in let s = plan_scheme self.now.plan in let v = value_at (take (sent_length s) memory.now) in block.new ≡ (if is_ok result then shown k s v block.old else block.old) }
        ensures old { is_ok result ≡ false → old.new.scores.now ≡ old.old.scores.now }
        ensures new { is_ok result ≡ false → new.new.scores.now ≡ new.old.scores.now }
        ensures marks { is_ok result ≡ false → marks.new ≡ marks.old }
    {
        let values = &memory[0..self.plan.sent_length().min(memory.len())];
        search(&self.plan, kind, values, block, old, new, marks)
    }
}
