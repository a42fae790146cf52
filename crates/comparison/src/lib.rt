// Sent blocks beside shown ones, one with one, and what is counted of them.
#![tactic(auto)]

mod comparison;
mod law;
mod report;

pub use comparison::Comparison;
pub use law::counts_hold;

#[cfg(test)]
mod tests {
    use super::*;
    use std::test::Fail;

    #[test]
    fn errors_are_counted(rt: HostRuntime) -> Result<(), Fail> {
        let mut comparison = Comparison::none();
        comparison.pair(&[0, 1, 1], &[0, 1, 0]);
        comparison.pair(&[0, 1, 1], &[0, 1, 1]);
        comparison.pair(&[0, 1, 1], &[1, 1]);
        comparison.sent_alone();
        let text = comparison.to_string(rt.alloc())?;
        assert_eq!(rt;
            text.as_str(),
            "# blocks bits bit_errors block_errors\n3 9 3 2\n# blocks of another length than was sent: 1\n# blocks sent and not shown: 1\n"
        );
        Ok(())
    }
}
