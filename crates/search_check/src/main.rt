// Compares the search with a plain engine that tries every block, on a plan of nine bits.
#![tactic(auto)]

mod engine;
mod values;

use crate::engine::compared;
use crate::values::Values;
use plan::{ChainFault, Parts, Plan};
use score::{CountFirst, Tally, Total, Worst};
use std::alloc::Global;
use std::io;

// Nine bits in three runs of a send list of six entries, one of them named twice: eighteen bits are sent, and a
// coded bit may have two values, which the plan of `samples` has not.
fn small_plan(heap: Global, constraint: usize) -> Result<Plan, ChainFault> {
    let send_list = vec![in heap; 0, 1, 2, 5, 4, 2]?;
    let parts = Parts {
        constraint,
        period: 3,
        send_list,
        block_length: 9,
        symbol_bits: 1,
        frame_length: 18,
        increment: 5,
    };
    Ok(Plan::new(parts)?)
}

// How many lists of values the search and the engine agreed on, by kind. Where weights add up, the block must be the same too:
// among the best blocks the tie rule's is then the one with the smallest start number, and the last bit highest.
#[derive(Clone, Copy, Default)]
struct Agreed {
    total: u32,
    worst: u32,
    count_first: u32,
}

impl Agreed {
    // Compares one list more.
    fn add(&mut self, plan: &Plan, values: &[i16]) {
        let total = compared(plan, &Total, values, &mut [0; 512]);
        let worst = compared(plan, &Worst, values, &mut [0; 512]);
        let count_first = compared(plan, &CountFirst, values, &mut [Tally::Full; 512]);
        self.total = self
            .total
            .saturating_add(u32::from(total.score && total.block));
        self.worst = self.worst.saturating_add(u32::from(worst.score));
        self.count_first = self
            .count_first
            .saturating_add(u32::from(count_first.score && count_first.block));
    }
}

// Every other list is sparse.
fn compare(plan: &Plan, lists: u32) -> Agreed {
    let mut drawn = Values::new();
    let mut agreed = Agreed::default();
    for list in 0..lists {
        agreed.add(plan, &drawn.draw(list % 2 == 1));
    }
    agreed
}

fn main(rt: HostRuntime) -> io::Result<()> {
    for constraint in [7, 9] {
        let Ok(plan) = small_plan(rt.alloc(), constraint) else {
            return println!(rt; "the plan is refused");
        };
        let Agreed {
            total,
            worst,
            count_first,
        } = compare(&plan, 200);
        println!(rt;
            "constraint length {constraint}, of 200 lists of values: Total {total}, Worst {worst}, Count-first {count_first} agree"
        )?;
    }
    Ok(())
}
