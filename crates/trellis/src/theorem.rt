// What the tie rule promises.
ghost use Rattle.trellis.specs.Best.{PickedIsBest};

// Whatever the scores, if their order is lawful: no block scores better than the one that the tie rule picks.
pub fn tie_rule_is_best<S>()
    ensures { PickedIsBest S }
{}
