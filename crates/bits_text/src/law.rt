// What holds of all blocks and readers.
ghost use Rattle.bits_text.specs.Laws.{ComesBack, AllComeBack, EachStands};

// The line of a block says its bits and no others, and the lines of blocks have these blocks.
pub fn written_blocks_hold()
    ensures one { ComesBack }
    ensures all { AllComeBack }
{}

// What `take` promises behind a text that says bits, it promises always: no reader stands anywhere else.
pub fn readers_stand_holds()
    ensures { EachStands }
{}
