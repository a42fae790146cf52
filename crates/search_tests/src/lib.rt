// The search on small plans, run.
#![tactic(auto)]

use plan::ChainFault;
use samples::small_plan;
use score::Total;
use search::search;
use std::alloc::Global;
use trellis::Column;

// Writes the block that fits the values best, and answers its score.
fn look(
    heap: Global,
    constraint: usize,
    values: &[i16],
    block: &mut [u8],
) -> Result<u64, ChainFault> {
    let plan = small_plan(heap, constraint)?;
    let mut first = [0; 256];
    let mut second = [0; 256];
    let mut marks = [0; 288];
    let mut old = Column { scores: &mut first };
    let mut new = Column {
        scores: &mut second,
    };
    search(&plan, &Total, values, block, &mut old, &mut new, &mut marks)
}

#[cfg(test)]
mod tests {
    use super::*;
    use std::test::Fail;

    // One value alone decides; the byte past the block stays.
    #[test]
    fn one_value(rt: HostRuntime) -> Result<(), Fail> {
        let mut block = [7; 10];
        let values = [-5, 0, 0, 0, 0, 0, 0, 0, 0, 0, 0, 0];
        assert_eq!(rt; look(rt.alloc(), 7, &values, &mut block), Ok(0));
        assert_eq!(rt; block, [0, 0, 0, 0, 0, 0, 1, 0, 0, 7]);
        Ok(())
    }

    // Every location as the block 100000000 sends it.
    #[test]
    fn all_values(rt: HostRuntime) -> Result<(), Fail> {
        let mut block = [7; 9];
        let values = [-1, -1, 1, 1, -1, -1, 1, 1, -1, -1, 1, -1];
        assert_eq!(rt; look(rt.alloc(), 7, &values, &mut block), Ok(0));
        assert_eq!(rt; block, [1, 0, 0, 0, 0, 0, 0, 0, 0]);
        Ok(())
    }

    // A memory that is one value too short is refused.
    #[test]
    fn too_short(rt: HostRuntime) -> Result<(), Fail> {
        let mut block = [7; 9];
        let answer = look(rt.alloc(), 9, &[0; 11], &mut block);
        assert_eq!(rt; answer, Err(ChainFault::TooShort));
        assert_eq!(rt; block, [7; 9]);
        Ok(())
    }
}
