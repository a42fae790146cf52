// Results that are known beforehand, shown of the definitions that the contracts cite.
#![tactic(auto)]

ghost use Rattle.known.specs.Results.{KnownResults};

// The known results hold, all in one statement.
pub fn known_results_hold()
    ensures { KnownResults }
{}
