// The words of a command line, read as an order.
ghost use Rattle.std.specs.Prelude.{[], ◌∷◌, codes, MatchResult, IfErr};
ghost use Rattle.orders.specs.Words.{bytes_of};
ghost use Rattle.orders.specs.Orders.{Names, BeginsWith, NoOrder};
ghost use Rattle.orders.specs.Slips.{FirstNoNumber, row_names, NoRow, Reading};

use crate::numbers::number;
use crate::order::{Choice, Order};
use crate::settings::Settings;
use crate::slip::Slip;
use rows::Row;

// The row and the constraint length that four words name.
fn choice_of(
    bandwidth: &str,
    waveform: &str,
    interleaver: &str,
    constraint: &str,
) -> Result<Choice, Slip>
    ensures { MatchResult result (λ c. Names bandwidth.now waveform.now interleaver.now constraint.now c) (λ slip. FirstNoNumber row_names (bandwidth.now ∷ waveform.now ∷ interleaver.now ∷ constraint.now ∷ []) slip) }
{
    let bandwidth = number(bandwidth, "bandwidth")? as usize;
    let waveform = number(waveform, "waveform")? as usize;
    let interleaver = number(interleaver, "interleaver")? as usize;
    let constraint = number(constraint, "constraint length")? as usize;
    Ok(Choice {
        row: Row {
            bandwidth,
            waveform,
            interleaver,
        },
        constraint,
    })
}

// The four words of a row and its code, and the words behind them.
fn split_choice(words: &[String]) -> Result<(Choice, &[String]), Slip>
    ensures { MatchResult result (λ r. BeginsWith r.0 (bytes_of words.now) (bytes_of r.1.now)) (λ slip. NoRow (bytes_of words.now) slip) }
{
    let [bandwidth, waveform, interleaver, constraint, rest @ ..] = words else {
        return Err(Slip::Count);
    };
    let choice = choice_of(
        bandwidth.as_str(),
        waveform.as_str(),
        interleaver.as_str(),
        constraint.as_str(),
    )?;
    Ok((choice, rest))
}

fn rows_order<'a>(words: &'a [String]) -> Result<Order<'a>, Slip>
    ensures { Reading (codes "rows" ∷ bytes_of words.now) result }
{
    match words {
        [] => Ok(Order::Rows),
        _ => Err(Slip::Count),
    }
}

fn plan_order<'a>(words: &'a [String]) -> Result<Order<'a>, Slip>
    ensures { Reading (codes "plan" ∷ bytes_of words.now) result }
{
    match split_choice(words)? {
        (choice, []) => Ok(Order::Plan(choice)),
        _ => Err(Slip::Count),
    }
}

fn send_order<'a>(words: &'a [String]) -> Result<Order<'a>, Slip>
    ensures { Reading (codes "send" ∷ bytes_of words.now) result }
{
    let (choice, rest) = split_choice(words)?;
    let settings = Settings::to_send(rest)?;
    Ok(Order::Send { choice, settings })
}

fn receive_order<'a>(words: &'a [String]) -> Result<Order<'a>, Slip>
    ensures { Reading (codes "receive" ∷ bytes_of words.now) result }
{
    let (choice, rest) = split_choice(words)?;
    let settings = Settings::to_receive(rest)?;
    Ok(Order::Receive { choice, settings })
}

fn count_order<'a>(words: &'a [String]) -> Result<Order<'a>, Slip>
    ensures { Reading (codes "count" ∷ bytes_of words.now) result }
{
    match words {
        [sent, shown] => Ok(Order::Count {
            sent: sent.as_str(),
            shown: shown.as_str(),
        }),
        _ => Err(Slip::Files),
    }
}

// The order that these words give: a word, and what belongs to it.
pub fn order_of<'a>(words: &'a [String]) -> Result<Order<'a>, Slip>
    ensures read { Reading (bytes_of words.now) result }
    ensures refused { IfErr result (λ _. NoOrder (bytes_of words.now)) }
{
    let [word, rest @ ..] = words else {
        return Err(Slip::Word);
    };
    match word.as_str() {
        "rows" => rows_order(rest),
        "plan" => plan_order(rest),
        "send" => send_order(rest),
        "receive" => receive_order(rest),
        "count" => count_order(rest),
        _ => Err(Slip::Word),
    }
}
