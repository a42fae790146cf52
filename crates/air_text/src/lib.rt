// What is on the air for a block, as lines of text.
#![tactic(auto)]

mod law;
mod lines;

pub use law::one_block_holds;
pub use lines::AirText;

#[cfg(test)]
mod tests {
    use super::*;
    use std::test::Fail;

    #[test]
    fn block_is_written(rt: HostRuntime) -> Result<(), Fail> {
        let text = AirText {
            block: 12,
            indices: &[6, 15, 3],
        };
        let text = text.to_string(rt.alloc())?;
        assert_eq!(rt; text.as_str(), "# block 12\n0 6\n1 15\n2 3\n");
        Ok(())
    }
}
