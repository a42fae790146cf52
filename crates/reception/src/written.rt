// Scores as text.
ghost use Rattle.std.specs.Prelude.{◌≡◌, Some};
ghost use Rattle.reception.specs.Written.{score_text, tally_text};
ghost use Rattle.reception.specs.declared.written.ScoreText.{ScoreText};
ghost use Rattle.reception.specs.declared.written.ScoreText.TheVariants.{Number};

use score::{CountFirst, Kind, Tally, Total, Worst};
use std::fmt;

// A score of any of the three kinds, as it is written.
#[derive(Clone, Copy, Debug)]
pub enum ScoreText {
    Number(u64),
    // how many places are contradicted, and the total of their weights
    Counted(u32, u64),
    // the count has reached its end
    Full,
}

impl fmt::Display for ScoreText {
    ghost output = { λ s. Some (score_text s) };

    fn fmt<W: fmt::Write>(&self, f: &mut fmt::Formatter<W>) -> fmt::Result {
        match self {
            ScoreText::Number(score) => write!(f, "{score}"),
            ScoreText::Counted(count, total) => write!(f, "{count} {total}"),
            ScoreText::Full => f.write_str("full"),
        }
    }
}

// A kind whose scores are written.
pub trait WrittenKind: Kind {
    ghost written: { Self.Score → ScoreText };

    // A score as text.
    fn text(&self, score: Self::Score) -> ScoreText
        ensures { result ≡ written score };
}

impl WrittenKind for Total {
    ghost written = { λ score. Number score };

    fn text(&self, score: u64) -> ScoreText {
        ScoreText::Number(score)
    }
}

impl WrittenKind for Worst {
    ghost written = { λ score. Number score };

    fn text(&self, score: u16) -> ScoreText {
        ScoreText::Number(u64::from(score))
    }
}

impl WrittenKind for CountFirst {
    ghost written = { λ score. tally_text score };

    fn text(&self, score: Tally) -> ScoreText {
        match score {
            Tally::Counted(count, total) => ScoreText::Counted(count, total),
            Tally::Full => ScoreText::Full,
        }
    }
}
