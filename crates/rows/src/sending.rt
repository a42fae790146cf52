// The send list of a pattern.
ghost use Rattle.std.specs.Prelude.{◌≡◌, ◌*◌, ◌/◌, ◌<◌, true, ◌++◌, is_ok, IfOk};
ghost use Rattle.rows.specs.Masks.{puncture_of};
ghost use Rattle.rows.specs.Patterns.{if_sent, column_listed, send_list};

use crate::pattern::Pattern;
use std::alloc::{AllocError, Global};

// The entry is listed where the mask has a 1 for it.
fn list_if_sent(list: &mut Vec<u8>, digit: u8, entry: u8) -> Result<(), AllocError>
    ensures { is_ok result ≡ true → list.new.items ≡ list.old.items ++ if_sent digit entry }
{
    if digit == b'1' {
        list.push(entry)?;
    }
    Ok(())
}

impl Pattern {
    // The entry of the first bit of a column's pair.
    fn first_entry(self, column: usize) -> u8
        requires { column < 12 }
        ensures { result ≡ 2 * (column / self.repeats) }
    {
        2 * (column / self.repeats) as u8
    }

    // What is sent of the pair in one column of the mask.
    fn list_column(
        self,
        list: &mut Vec<u8>,
        column: usize,
        first: u8,
        second: u8,
    ) -> Result<(), AllocError>
        requires { column < 12 }
        ensures { is_ok result ≡ true → list.new.items ≡ list.old.items ++ column_listed self.repeats column first second }
    {
        let entry = self.first_entry(column);
        list_if_sent(list, first, entry)?;
        list_if_sent(list, second, entry + 1)
    }

    // Which bits of a period are sent, in order: column by column of the mask.
    pub(crate) fn send_list(self, heap: Global) -> Result<Vec<u8>, AllocError>
        ensures { IfOk result (λ v. v.items ≡ send_list (puncture_of self)) }
    {
        let mut list = Vec::new(heap);
        for (column, (first, second)) in self.first.iter().zip(self.second).enumerate() {
            self.list_column(&mut list, column, *first, *second)?;
        }
        Ok(list)
    }
}
