// What holds of every receiver.
ghost use Rattle.receiver.specs.Laws.{MadeFits, FitLasts};

// A receiver that making gave never answers that its scrambler does not fit.
pub fn fit_lasts()
    ensures made { MadeFits }
    ensures lasts { FitLasts }
{}
