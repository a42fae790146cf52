// What holds of all lists of blocks.
ghost use Rattle.comparison.specs.Laws.{CountsAll};

// The numbers of a comparison are those of all its pairs, and of the blocks that stand alone.
pub fn counts_hold()
    ensures { CountsAll }
{}
