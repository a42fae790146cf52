// Scramblers: a trait by its meaning, and the two kinds, a table and a register.
#![tactic(auto)]

mod register;
mod scrambler;
mod table;
mod width;

pub use register::Register;
pub use register::laws::register_holds;
pub use scrambler::Scrambler;
pub use table::Table;

#[cfg(test)]
mod tests {
    use super::*;
    use std::test::Fail;

    // The first values of three bits, as another program computed them; then an earlier place, and one past the reach.
    #[test]
    fn register_draws(rt: HostRuntime) -> Result<(), Fail> {
        let Ok(mut register) = Register::new(3) else {
            return Err(Fail::new("three bits are refused"));
        };
        let expected = [1, 0, 2, 1, 4, 1, 1, 6];
        for (place, value) in expected.iter().enumerate() {
            assert_eq!(rt; register.value(place), Some(*value));
        }
        assert_eq!(rt; register.value(2), Some(2));
        assert_eq!(rt; register.value(4096), None);
        Ok(())
    }
}
