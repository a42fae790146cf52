// The values of a scrambler.
ghost use Rattle.std.specs.Prelude.{◌≡◌, ℕ, ◌≤◌, true, ◌==◌, List, [], ◌∷◌, is_ok, IfOk, if◌then◌else◌};
ghost use Rattle.std.specs.List.{before_first};
ghost use Rattle.plan.specs.Faults.{chain_number, outcome};
ghost use Rattle.plan.specs.Plans.{plan_scheme};
ghost use Rattle.scrambler.specs.Meanings.{table_meaning};
ghost use Rattle.scrambler.specs.Questions.{width_fits};
ghost use Rattle.laboratory.specs.TableText.{line_words, WordsTaken, TableRead};
ghost use Rattle.laboratory.specs.Tabling.{first_drawn, OfRegister};

use crate::trouble::Trouble;
use plan::{ChainFault, Plan};
use scrambler::{Register, Scrambler, Table};
use sender::needed_width;
use std::alloc::Global;
use std::io::{BufRead, BufReader, Read};

// The register's values at the first places, in their order.
fn register_values(heap: Global, width: usize, count: usize) -> Result<Vec<u8>, ChainFault>
    requires fits { width_fits width ≡ true }
    requires reached { count ≤ 4096 }
    ensures values { IfOk result (λ v. v.items ≡ first_drawn width count) }
    ensures answer { outcome chain_number result ≡ (if is_ok result then 0 else 255) }
{
    let mut register = Register::new(width)?;
    let mut values = Vec::new(heap);
    for place in 0..count {
        values.push(register.value(place).unwrap())?;
    }
    Ok(values)
}

// The register's values at the places of a frame: asked for in any order, a table answers at once.
pub fn register_table(heap: Global, plan: &Plan) -> Result<Table, ChainFault>
    ensures table { IfOk result (λ t. OfRegister (plan_scheme plan.now) (table_meaning t)) }
    ensures answer { outcome chain_number result ≡ (if is_ok result then 0 else 255) }
{
    let width = needed_width(plan.parts().symbol_bits);
    let values = register_values(heap, width, plan.parts().frame_length)?;
    Table::new(width, values)
}

// The values that a text has: whole numbers, white space between them, and comments from # to the end of a line.
pub fn table_of<R: Read + Drop>(heap: Global, plan: &Plan, text: R) -> Result<Table, Trouble>
    ensures { (xs : List ℕ) → R.remaining text ≡ Some xs → TableRead (plan_scheme plan.now) xs result }
{
    let mut values = Vec::new(heap);
    let mut number = 0u64;
    for line in BufReader::new(heap, text)?.lines(heap) {
        number = number.saturating_add(1);
        take_values(&mut values, line?.as_str(), number)?;
    }
    let width = needed_width(plan.parts().symbol_bits);
    Ok(Table::new(width, values)?)
}

// What stands in a line before any #.
fn said(line: &str) -> &str
    ensures { result.now ≡ before_first (λ c. c == 35) line.now }
{
    match line.split_once('#') {
        Some((before, _)) => before,
        None => line,
    }
}

// The values of a line.
fn take_values(values: &mut Vec<u8>, line: &str, number: u64) -> Result<(), Trouble>
    ensures { WordsTaken (line_words line.now) number values.old.items values.new.items result }
{
    for word in said(line).split_ascii_whitespace() {
        take_word(values, word, number)?;
    }
    Ok(())
}

// The value of a word.
fn take_word(values: &mut Vec<u8>, word: &str, number: u64) -> Result<(), Trouble>
    ensures { WordsTaken (word.now ∷ []) number values.old.items values.new.items result }
{
    match word.parse::<u8>() {
        Ok(value) => values.push(value)?,
        Err(_) => return Err(Trouble::Value { line: number }),
    }
    Ok(())
}
