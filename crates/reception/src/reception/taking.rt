// How a reception is made, and how it takes an entry.
ghost use Rattle.std.specs.Prelude.{◌≡◌, ◌≢◌, ℕ, List, [], IfOk};
ghost use Rattle.entries.specs.Readings.{LineReading};
ghost use Rattle.plan.specs.Faults.{chain_number, outcome};
ghost use Rattle.plan.specs.Plans.{plan_scheme};
ghost use Rattle.plan.specs.Scheme.{sent_length};
ghost use Rattle.receiver.specs.Calls.{making_answer};
ghost use Rattle.receiver.specs.Receivers.{view, view_of};
ghost use Rattle.replay.specs.Given.{given};
ghost use Rattle.replay.specs.Ledger.{ledger};
ghost use Rattle.reception.specs.Answering.{Answers};
ghost use Rattle.reception.specs.Taking.{Takes, Shows};

use crate::carrying::carry_out;
use crate::reception::Reception;
use crate::written::{ScoreText, WrittenKind};
use entries::Entry;
use lines::LineFault;
use plan::{ChainFault, Plan};
use receiver::Receiver;
use score::Kind;
use scrambler::Scrambler;
use std::alloc::Global;
use trellis::Trellis;

impl<S: Scrambler + Drop, K: Kind + Drop> Reception<S, K> {
    // A reception by this plan, where the scrambler fits it; all its memory is asked for first.
    pub fn new(
        heap: Global,
        plan: Plan,
        scrambler: S,
        kind: K,
    ) -> Result<Reception<S, K>, ChainFault>
        ensures answer { outcome chain_number result ≢ 255 → outcome chain_number result ≡ making_answer (view plan (S.meaning scrambler)) (sent_length (plan_scheme plan)) }
        ensures made { IfOk result (λ x. view_of S.meaning x.receiver ≡ view plan (S.meaning scrambler)) }
        ensures kind { IfOk result (λ x. x.kind ≡ kind) }
        ensures zeros { IfOk result (λ x. x.values.items ≡ ledger (view_of S.meaning x.receiver) (given x.values.items x.block.items x.scores.items x.marks.items) []) }
    {
        let trellis = Trellis::of(&plan);
        let mut values = vec![in heap; 0; plan.sent_length()]?;
        let block = vec![in heap; 0; plan.parts().block_length]?;
        let scores = vec![in heap; kind.start(); 2 * trellis.states()]?;
        let marks = vec![in heap; 0; trellis.mark_bytes()]?;
        let receiver = Receiver::new(plan, scrambler, values.as_mut_slice())?;
        Ok(Reception {
            receiver,
            kind,
            values,
            block,
            scores,
            marks,
        })
    }

    // The block that was shown last, one bit a byte.
    pub fn block(&self) -> &[u8]
        ensures { result.now ≡ self.now.block.items }
    {
        self.block.as_slice()
    }

    // Takes an entry: hears, notes, blanks, or shows the best block and answers its score. A refused entry changes nothing.
    pub fn take(&mut self, entry: Entry) -> Result<Option<K::Score>, ChainFault>
        ensures takes { let v = view_of S.meaning self.old.receiver in let w = given self.old.values.items self.old.block.items self.old.scores.items self.old.marks.items in Takes (K.Kind.scale self.old.kind) v w self.old.values.items entry result self.new.values.items self.new.block.items }
        ensures kept { view_of S.meaning self.new.receiver ≡ view_of S.meaning self.old.receiver }
        ensures kind { self.new.kind ≡ self.old.kind }
        ensures lengths { given self.new.values.items self.new.block.items self.new.scores.items self.new.marks.items ≡ given self.old.values.items self.old.block.items self.old.scores.items self.old.marks.items }
    {
        carry_out(
            &mut self.receiver,
            &self.kind,
            entry,
            self.values.as_mut_slice(),
            self.block.as_mut_slice(),
            self.scores.as_mut_slice(),
            self.marks.as_mut_slice(),
        )
    }

    // Shows the best block, and answers its score. A reception has the memory that a look needs, so a look is never refused.
    pub fn show(&mut self) -> K::Score
        ensures shows { let v = view_of S.meaning self.old.receiver in let w = given self.old.values.items self.old.block.items self.old.scores.items self.old.marks.items in Shows (K.Kind.scale self.old.kind) v w self.old.values.items self.new.block.items result }
        ensures values { self.new.values.items ≡ self.old.values.items }
        ensures kept { view_of S.meaning self.new.receiver ≡ view_of S.meaning self.old.receiver }
        ensures kind { self.new.kind ≡ self.old.kind }
        ensures lengths { given self.new.values.items self.new.block.items self.new.scores.items self.new.marks.items ≡ given self.old.values.items self.old.block.items self.old.scores.items self.old.marks.items }
    {
        let shown = self.take(Entry::Look);
        shown.unwrap().unwrap()
    }

    // Answers what a line says: takes its entry, where it has one.
    pub fn answer(
        &mut self,
        said: Result<Option<Entry>, LineFault>,
    ) -> Result<Option<K::Score>, LineFault>
        ensures answers { (whole : List ℕ) → LineReading whole said → let v = view_of S.meaning self.old.receiver in let w = given self.old.values.items self.old.block.items self.old.scores.items self.old.marks.items in Answers (K.Kind.scale self.old.kind) v w self.old.values.items whole result self.new.values.items self.new.block.items }
        ensures kept { view_of S.meaning self.new.receiver ≡ view_of S.meaning self.old.receiver }
        ensures kind { self.new.kind ≡ self.old.kind }
        ensures lengths { given self.new.values.items self.new.block.items self.new.scores.items self.new.marks.items ≡ given self.old.values.items self.old.block.items self.old.scores.items self.old.marks.items }
    {
        match said? {
            Some(entry) => Ok(self.take(entry)?),
            None => Ok(None),
        }
    }
}

impl<S: Scrambler + Drop, K: WrittenKind + Drop> Reception<S, K> {
    // A score of its kind as text.
    pub fn text(&self, score: K::Score) -> ScoreText
        ensures { result ≡ K.written score }
    {
        self.kind.text(score)
    }
}
