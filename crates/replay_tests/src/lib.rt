// A list of calls on a small plan, run.
#![tactic(auto)]

use plan::ChainFault;
use replay::{Call, Lent, Replayed, replay};
use samples::small_plan;
use score::Total;
use scrambler::Table;
use std::alloc::Global;

// Replays the calls, with one value and one byte more than the plan needs.
fn carry(
    heap: Global,
    calls: &[Call],
    memory: &mut [i16],
    block: &mut [u8],
) -> Result<Replayed<u64>, ChainFault> {
    let plan = small_plan(heap, 7)?;
    let table = Table::new(3, vec![in heap; 1, 2, 3, 4]?)?;
    let mut scores = [0; 128];
    let mut marks = [0; 72];
    replay(
        heap,
        plan,
        table,
        &Total,
        calls,
        memory,
        block,
        &mut scores,
        &mut marks,
    )
}

#[cfg(test)]
mod tests {
    use super::*;
    use std::test::Fail;

    fn hear(place: usize, index: u8) -> Call {
        Call::Hear {
            lent: 12,
            place,
            index,
            weight: 1,
        }
    }

    // The block 100000000 goes on the air as 6, 5, 3, 3; what is noted before is heard over, a refused call changes nothing.
    #[test]
    fn comes_back(rt: HostRuntime) -> Result<(), Fail> {
        let mut memory = [9; 13];
        let mut block = [7; 10];
        let short = Lent {
            memory: 12,
            block: 8,
            old: 64,
            new: 64,
            marks: 72,
        };
        let calls = [
            Call::Note {
                lent: 13,
                location: 1,
                value: 9,
            },
            hear(0, 6),
            hear(1, 5),
            hear(2, 3),
            hear(3, 3),
            hear(4, 3),
            Call::Look { lent: short },
            Call::Blank { lent: 11, place: 0 },
        ];
        let done = carry(rt.alloc(), &calls, &mut memory, &mut block)?;
        let answers = done.answers.as_slice();
        assert_eq!(rt; answers.len(), 8);
        assert_eq!(rt; answers[0], Ok(()));
        assert_eq!(rt; answers[4], Ok(()));
        assert_eq!(rt; answers[5], Err(ChainFault::Place));
        assert_eq!(rt; answers[6], Err(ChainFault::TooShort));
        assert_eq!(rt; answers[7], Err(ChainFault::TooShort));
        assert_eq!(rt; done.shown, Ok(0));
        assert_eq!(rt; memory[12], 9);
        assert_eq!(rt; block, [1, 0, 0, 0, 0, 0, 0, 0, 0, 7]);
        Ok(())
    }
}
