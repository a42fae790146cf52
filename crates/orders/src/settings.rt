// What the words behind a row set.
ghost use Rattle.std.specs.Prelude.{◌≡◌, ℕ, List, [], ◌∷◌, codes, MatchResult};
ghost use Rattle.orders.specs.Words.{score_word, bytes_of};
ghost use Rattle.orders.specs.Settings.{Random, Score, OfSending, OfReceiving, Stands, OneSet, Sets, nothing_set};
ghost use Rattle.orders.specs.Slips.{NoOption, NoOptions};
ghost use Rattle.orders.specs.declared.order.ScoreKind.{ScoreKind as TheScoreKind};
ghost use Rattle.orders.specs.declared.slip.Slip.TheVariants.{Setting, Score as TheScore};

use crate::numbers::number;
use crate::order::{Drawing, ScoreKind};
use crate::slip::Slip;

// What is not set is what stands in `Settings::none`.
#[derive(Clone, Copy)]
pub struct Settings<'a> {
    // the file of a scrambler's values, in place of the register
    pub table: Option<&'a str>,
    // blocks that are drawn, in place of those of the input
    pub drawing: Option<Drawing>,
    // the file that the sent blocks are written to
    pub copy: Option<&'a str>,
    pub score: ScoreKind,
}

impl<'a> Settings<'a> {
    // Nothing is set.
    pub fn none() -> Settings<'a>
        ensures { result ≡ nothing_set }
    {
        Settings {
            table: None,
            drawing: None,
            copy: None,
            score: ScoreKind::Total,
        }
    }

    // Sets the option of this name in an order to send, and answers the words behind what it takes.
    fn set_to_send(&mut self, name: &str, words: &'a [String]) -> Result<&'a [String], Slip>
        ensures { MatchResult result (λ rest. OneSet OfSending self.old name.now (bytes_of words.now) self.new (bytes_of rest.now)) (λ slip. NoOption OfSending (name.now ∷ bytes_of words.now) slip) }
    {
        match name {
            "--random" => {
                let (drawing, rest) = drawing_of(words)?;
                self.drawing = Some(drawing);
                Ok(rest)
            }
            "--copy" => {
                let (file, rest) = file_of(words)?;
                self.copy = Some(file);
                Ok(rest)
            }
            "--table" => {
                let (file, rest) = file_of(words)?;
                self.table = Some(file);
                Ok(rest)
            }
            _ => Err(Slip::Setting),
        }
    }

    // Sets the option of this name in an order to receive, and answers the words behind what it takes.
    fn set_to_receive(&mut self, name: &str, words: &'a [String]) -> Result<&'a [String], Slip>
        ensures { MatchResult result (λ rest. OneSet OfReceiving self.old name.now (bytes_of words.now) self.new (bytes_of rest.now)) (λ slip. NoOption OfReceiving (name.now ∷ bytes_of words.now) slip) }
    {
        match name {
            "--score" => {
                let (kind, rest) = kind_of(words)?;
                self.score = kind;
                Ok(rest)
            }
            "--table" => {
                let (file, rest) = file_of(words)?;
                self.table = Some(file);
                Ok(rest)
            }
            _ => Err(Slip::Setting),
        }
    }

    // The settings of an order to send.
    pub(crate) fn to_send(words: &'a [String]) -> Result<Settings<'a>, Slip>
        ensures { MatchResult result (λ settings. Sets OfSending (bytes_of words.now) settings) (λ slip. NoOptions OfSending (bytes_of words.now) slip) }
    {
        let mut settings = Settings::none();
        let mut rest = words;
        while let [name, behind @ ..] = rest {
            rest = settings.set_to_send(name.as_str(), behind)?;
        }
        Ok(settings)
    }

    // The settings of an order to receive.
    pub(crate) fn to_receive(words: &'a [String]) -> Result<Settings<'a>, Slip>
        ensures { MatchResult result (λ settings. Sets OfReceiving (bytes_of words.now) settings) (λ slip. NoOptions OfReceiving (bytes_of words.now) slip) }
    {
        let mut settings = Settings::none();
        let mut rest = words;
        while let [name, behind @ ..] = rest {
            rest = settings.set_to_receive(name.as_str(), behind)?;
        }
        Ok(settings)
    }
}

// The blocks and the seed of `--random`, and the words behind them.
fn drawing_of(words: &[String]) -> Result<(Drawing, &[String]), Slip>
    ensures { MatchResult result (λ r. Stands (Random r.0) (bytes_of words.now) (bytes_of r.1.now)) (λ slip. NoOption OfSending (codes "--random" ∷ bytes_of words.now) slip) }
{
    let [blocks, seed, rest @ ..] = words else {
        return Err(Slip::Setting);
    };
    let blocks = number(blocks.as_str(), "count of blocks")?;
    let seed = number(seed.as_str(), "seed")?;
    Ok((Drawing { blocks, seed }, rest))
}

// The name of a file, and the words behind it.
fn file_of(words: &[String]) -> Result<(&str, &[String]), Slip>
    ensures { MatchResult result (λ r. bytes_of words.now ≡ r.0.now ∷ bytes_of r.1.now) (λ slip. (words.now ≡ []) × (slip ≡ Setting)) }
{
    match words {
        [file, rest @ ..] => Ok((file.as_str(), rest)),
        [] => Err(Slip::Setting),
    }
}

// The kind of score of `--score`, and the words behind it.
fn kind_of(words: &[String]) -> Result<(ScoreKind, &[String]), Slip>
    ensures { MatchResult result (λ r. Stands (Score r.0) (bytes_of words.now) (bytes_of r.1.now)) (λ slip. NoOption OfReceiving (codes "--score" ∷ bytes_of words.now) slip) }
{
    match words {
        [kind, rest @ ..] => Ok((score_kind(kind.as_str())?, rest)),
        [] => Err(Slip::Setting),
    }
}

// The kind of score of this name.
fn score_kind(word: &str) -> Result<ScoreKind, Slip>
    ensures { MatchResult result (λ kind. score_word kind ≡ word.now) (λ slip. (slip ≡ TheScore) × ((kind : TheScoreKind) → score_word kind ≡ word.now → ⊥)) }
{
    match word {
        "total" => Ok(ScoreKind::Total),
        "worst" => Ok(ScoreKind::Worst),
        "count" => Ok(ScoreKind::CountFirst),
        _ => Err(Slip::Score),
    }
}
