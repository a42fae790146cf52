// What the arguments ask for.
ghost use Rattle.std.specs.Prelude.{IfOk};
ghost use Rattle.speed.specs.Asking.{Number, Names, bytes_of, Asks};

use crate::trouble::Slip;

pub enum Request {
    // the same few blocks always, without a clock
    Fixed,
    // looks in a second, for every kind of score
    Kinds,
    // how the time of a look grows with the block
    Growth,
    // the values of a batch
    Blocks(Batch),
    // the looks of a batch
    Looks(Batch),
}

// Which blocks are drawn: all are sent at rate 1/2.
#[derive(Clone, Copy)]
pub struct Batch {
    pub constraint: usize,
    pub block_length: usize,
    pub decibels: i8,
    pub blocks: usize,
    pub seed: u64,
}

// The request of these arguments: a word, and for some words a batch.
pub(crate) fn request_of(words: &[String]) -> Result<Request, Slip>
    ensures { IfOk result (λ r. Asks (bytes_of words.now) r) }
{
    let [word, rest @ ..] = words else {
        return Ok(Request::Fixed);
    };
    match word.as_str() {
        "time" => Ok(Request::Kinds),
        "growth" => Ok(Request::Growth),
        "blocks" => Ok(Request::Blocks(batch_of(rest)?)),
        "looks" => Ok(Request::Looks(batch_of(rest)?)),
        _ => Err(Slip::Word),
    }
}

// The batch that five words name.
fn batch_of(words: &[String]) -> Result<Batch, Slip>
    ensures { IfOk result (λ b. Names (bytes_of words.now) b) }
{
    let [constraint, block_length, decibels, blocks, seed] = words else {
        return Err(Slip::Count);
    };
    let constraint = number(constraint.as_str(), "constraint length")? as usize;
    let block_length = number(block_length.as_str(), "block length")? as usize;
    let decibels = ratio(decibels.as_str())?;
    let blocks = number(blocks.as_str(), "count of blocks")? as usize;
    let seed = number(seed.as_str(), "seed")?;
    Ok(Batch {
        constraint,
        block_length,
        decibels,
        blocks,
        seed,
    })
}

// The number that a word writes. What it is called comes into the slip.
fn number(word: &str, name: &'static str) -> Result<u64, Slip>
    ensures { IfOk result (λ n. Number word.now n) }
{
    match word.parse::<u64>() {
        Ok(n) => Ok(n),
        Err(_) => Err(Slip::Number(name)),
    }
}

// The decibels that a word writes.
fn ratio(word: &str) -> Result<i8, Slip> {
    match word.parse::<i8>() {
        Ok(decibels) => Ok(decibels),
        Err(_) => Err(Slip::Number("ratio")),
    }
}
