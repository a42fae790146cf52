// The laws of sending.
ghost use Rattle.sender.specs.Laws.{ComesBack, KeepsDifferences, TellsBits, SendsAlike};

// Scrambling is taken off again, keeps what tells blocks apart, and rests on the scrambler's meaning alone.
pub fn sending_holds()
    ensures back { ComesBack }
    ensures apart { KeepsDifferences }
    ensures bits { TellsBits }
    ensures alike { SendsAlike }
{}
