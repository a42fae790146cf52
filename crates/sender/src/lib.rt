// The sender: a block's coded bits, interleaved, mapped to symbols and scrambled.
#![tactic(auto)]

mod laws;
mod scrambling;
mod sender;

pub use laws::sending_holds;
pub use scrambling::{fits, needed_width, scramble, unscramble};
pub use sender::Sender;

#[cfg(test)]
mod tests {
    use super::*;
    use plan::ChainFault;
    use samples::small_plan;
    use scrambler::Table;
    use std::alloc::Global;
    use std::test::Fail;

    // The on-air indices of the block 100000000, four symbols of three bits, and a byte that stays.
    fn sent(heap: Global) -> Result<[u8; 5], ChainFault> {
        let plan = small_plan(heap, 7)?;
        let table = Table::new(3, vec![in heap; 1, 2, 3, 4]?)?;
        let mut sender = Sender::new(heap, &plan, table)?;
        let mut out = [9; 5];
        sender.send(&[1, 0, 0, 0, 0, 0, 0, 0, 0], &mut out)?;
        Ok(out)
    }

    #[test]
    fn known_block(rt: HostRuntime) -> Result<(), Fail> {
        assert_eq!(rt; sent(rt.alloc()), Ok([6, 5, 3, 3, 9]));
        Ok(())
    }

    // The standard's own examples, there and back.
    #[test]
    fn examples(rt: HostRuntime) {
        assert_eq!(rt; scramble(3, 6, 2), 0);
        assert_eq!(rt; unscramble(3, 0, 2), 6);
        assert_eq!(rt; scramble(4, 0b0011, 0b0101), 0b0110);
        assert_eq!(rt; unscramble(4, 0b0110, 0b0101), 0b0011);
    }
}
