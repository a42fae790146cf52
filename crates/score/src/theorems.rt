// What is proved of the kinds beyond their laws.
ghost use Rattle.score.specs.Sums.{TotalIsTrueSum, TotalOfBlock};

// Within the limits of a plan Total never stops: it is the true sum of the contradicted weights.
pub fn total_is_true_sum()
    ensures lists { TotalIsTrueSum }
    ensures blocks { TotalOfBlock }
{}
