// Numbers among the words.
ghost use Rattle.std.specs.Prelude.{◌≡◌, ℕ, MatchResult};
ghost use Rattle.orders.specs.Words.{Writes};
ghost use Rattle.orders.specs.Slips.{TellsNumber};

use crate::slip::Slip;

// The number that a word writes. What it is called comes into the slip.
pub(crate) fn number(word: &str, name: &'static str) -> Result<u64, Slip>
    ensures read { MatchResult result (λ n. Writes word.now n) (λ _. (n : ℕ) → Writes word.now n → ⊥) }
    ensures told { MatchResult result (λ _. Unit {0}) (λ slip. TellsNumber name.now slip) }
{
    match word.parse::<u64>() {
        Ok(n) => Ok(n),
        Err(_) => Err(Slip::Number(name)),
    }
}
