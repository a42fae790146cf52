// How a table is made, and what it answers.
ghost use Rattle.std.specs.Prelude.{◌≡◌, IfOk};
ghost use Rattle.std.specs.Cmp.Derive.{both_true};
ghost use Rattle.plan.specs.Faults.{chain_number, outcome};
ghost use Rattle.scrambler.specs.Meanings.{table_meaning};
ghost use Rattle.scrambler.specs.Questions.{values_fit, table_fits, making_answer};
ghost use Rattle.scrambler.specs.Bounds.{table_below};

use crate::scrambler::Scrambler;
use crate::table::Table;
use crate::width::Width;
use plan::{ChainFault, all_below};

impl Table {
    // The table of these values, where the width and the values fit.
    pub fn new(width: usize, values: Vec<u8>) -> Result<Table, ChainFault>
        ensures answer { outcome chain_number result ≡ making_answer (table_fits width values.items) }
        ensures made { IfOk result (λ t. table_meaning t ≡ record { width = width; values = values.items }) }
    {
        let width = Width::new(width)?;
        check_values(width, values.as_slice())?;
        Ok(Table { width, values })
    }
}

// Asks that these are 1 to 4,096 values of the width.
fn check_values(width: Width, values: &[u8]) -> Result<(), ChainFault>
    ensures { outcome chain_number result ≡ making_answer (values_fit width.bits values.now) }
{
    if matches!(values.len(), 1..=4096) && all_below(values, width.values()) {
        Ok(())
    } else {
        Err(ChainFault::Scrambler)
    }
}

impl Scrambler for Table {
    ghost meaning = { table_meaning };

    ghost bounded = { λ s. table_below s.width.bits s.values.items (both_true s.width.fits s.fits) };

    fn width(&mut self) -> usize {
        self.width.bits()
    }

    fn reach(&mut self) -> usize {
        self.values.len()
    }

    fn value(&mut self, place: usize) -> Option<u8> {
        self.values.as_slice().get(place).copied()
    }
}
