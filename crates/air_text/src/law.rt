// What holds of the lines of all blocks.
ghost use Rattle.air_text.specs.Laws.{OneBlock};

// The lines of a block tell its number and its indices.
pub fn one_block_holds()
    ensures { OneBlock }
{}
