// What the receiver's calls ask. A question that is answered no is the fault that the call answers.
ghost use Rattle.std.specs.Prelude.{◌≡◌, length};
ghost use Rattle.plan.specs.Plans.{plan_scheme};
ghost use Rattle.plan.specs.declared.fault.ChainFault.TheVariants.{TooShort, Index, Location};
ghost use Rattle.receiver.specs.Calls.{lent_enough, index_fits, note_fits, Asks};

use code::has_bits;
use plan::{ChainFault, Plan};
use sender::needed_width;

// Asks that a lent memory has a value for each location.
pub(crate) fn check_memory(plan: &Plan, memory: &[i16]) -> Result<(), ChainFault>
    ensures { Asks (lent_enough (plan_scheme plan.now) (length memory.now)) TooShort result }
{
    if memory.len() >= plan.sent_length() {
        Ok(())
    } else {
        Err(ChainFault::TooShort)
    }
}

// Asks that the index goes on the air, and that the weight is in range.
pub(crate) fn check_index(plan: &Plan, index: u8, weight: u16) -> Result<(), ChainFault>
    ensures { Asks (index_fits (plan_scheme plan.now) index weight) Index result }
{
    if has_bits(index, needed_width(plan.parts().symbol_bits)) && weight <= 32_767 {
        Ok(())
    } else {
        Err(ChainFault::Index)
    }
}

// Asks that the location exists, and that the value is in range.
pub(crate) fn check_note(plan: &Plan, location: usize, value: i16) -> Result<(), ChainFault>
    ensures { Asks (note_fits (plan_scheme plan.now) location value) Location result }
{
    if location < plan.sent_length() && value.unsigned_abs() <= 32_767 {
        Ok(())
    } else {
        Err(ChainFault::Location)
    }
}
