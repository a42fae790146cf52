// Errors of shown blocks against sent ones: what a dot of an error curve counts.
#![tactic(auto)]

ghost use Rattle.std.specs.Prelude.{◌≡◌, cond};
ghost use Rattle.errors.specs.Errors.{differing, added, with_block};

#[derive(Clone, Copy, Debug, Default, PartialEq, Eq)]
pub struct Count {
    pub blocks: usize,
    pub bits: usize,
    pub bit_errors: usize,
    pub block_errors: usize,
}

// At how many places two blocks differ. A place that only one of them has counts too.
pub fn differences(sent: &[u8], shown: &[u8]) -> usize
    ensures { result ≡ differing sent.now shown.now }
{
    // by a fold: a filter and its count take several times as long
    let unequal = sent
        .iter()
        .zip(shown)
        .fold(0, |n: usize, (a, b)| n.wrapping_add(usize::from(a != b)));
    unequal + sent.len().abs_diff(shown.len())
}

impl Count {
    // Nothing is counted yet.
    pub fn none() -> Count
        ensures { result ≡ record { blocks = 0; bits = 0; bit_errors = 0; block_errors = 0 } }
    {
        Count::default()
    }

    // Counts one block more.
    pub fn add(&mut self, sent: &[u8], shown: &[u8])
        ensures { self.new ≡ with_block self.old sent.now shown.now }
    {
        let errors = differences(sent, shown);
        self.blocks = self.blocks.saturating_add(1);
        self.bits = self.bits.saturating_add(sent.len());
        self.bit_errors = self.bit_errors.saturating_add(errors);
        self.block_errors = self.block_errors.saturating_add(usize::from(errors != 0));
    }
}
