// What is counted.
ghost use Rattle.std.specs.Prelude.{◌≡◌};
ghost use Rattle.comparison.specs.Comparing.{nothing, with_pair, with_sent, with_shown};

use errors::Count;

#[derive(Clone, Copy, Debug, Default, PartialEq, Eq)]
pub struct Comparison {
    // the errors of the blocks that stand beside a sent one
    pub count: Count,
    // how many of these have another length than the sent one
    pub unequal: usize,
    // blocks that were sent, with none shown beside them
    pub sent_alone: usize,
    // blocks that were shown, with none sent beside them
    pub shown_alone: usize,
}

impl Comparison {
    // Nothing is counted yet.
    pub fn none() -> Comparison
        ensures { result ≡ nothing }
    {
        Comparison {
            count: Count::none(),
            unequal: 0,
            sent_alone: 0,
            shown_alone: 0,
        }
    }

    // Counts a shown block beside a sent one.
    pub fn pair(&mut self, sent: &[u8], shown: &[u8])
        ensures { self.new ≡ with_pair self.old sent.now shown.now }
    {
        self.count.add(sent, shown);
        self.unequal = self
            .unequal
            .saturating_add(usize::from(sent.len() != shown.len()));
    }

    // Counts a sent block that has none beside it.
    pub fn sent_alone(&mut self)
        ensures { self.new ≡ with_sent self.old }
    {
        self.sent_alone = self.sent_alone.saturating_add(1);
    }

    // Counts a shown block that has none beside it.
    pub fn shown_alone(&mut self)
        ensures { self.new ≡ with_shown self.old }
    {
        self.shown_alone = self.shown_alone.saturating_add(1);
    }
}
