// What the words of a command line ask for.
#![tactic(auto)]

mod numbers;
mod order;
mod reading;
mod settings;
mod slip;

pub use order::{Choice, Drawing, Order, ScoreKind};
pub use reading::order_of;
pub use settings::Settings;
pub use slip::{Slip, usage};

#[cfg(test)]
mod tests {
    use super::*;
    use std::alloc::{AllocError, Global};
    use std::test::Fail;

    fn words(heap: Global, text: &str) -> Result<Vec<String>, AllocError> {
        text.split(' ')
            .map(|word| String::from_str(heap, word))
            .try_collect(heap)
    }

    #[test]
    fn orders_are_read(rt: HostRuntime) -> Result<(), Fail> {
        let said = words(rt.alloc(), "receive 24 1 0 7 --score worst --table own.txt")?;
        let Ok(Order::Receive { choice, settings }) = order_of(said.as_slice()) else {
            return Err(Fail::new("no order to receive"));
        };
        assert_eq!(rt; (choice.row.bandwidth, choice.constraint), (24, 7));
        assert_eq!(rt; settings.score, ScoreKind::Worst);
        assert_eq!(rt; settings.table, Some("own.txt"));
        let said = words(rt.alloc(), "send 3 13 2 9 --random 20 5069")?;
        let Ok(Order::Send { choice, settings }) = order_of(said.as_slice()) else {
            return Err(Fail::new("no order to send"));
        };
        assert_eq!(rt; (choice.row.waveform, choice.row.interleaver), (13, 2));
        assert_eq!(rt;
            settings.drawing,
            Some(Drawing {
                blocks: 20,
                seed: 5069
            })
        );
        Ok(())
    }

    #[test]
    fn slips_are_told(rt: HostRuntime) -> Result<(), Fail> {
        for (text, slip) in [
            ("", Slip::Word),
            ("rows 1", Slip::Count),
            ("plan 24 1 0", Slip::Count),
            ("send 24 x 0 7", Slip::Number("waveform")),
            ("receive 24 1 0 7 --score best", Slip::Score),
            ("receive 24 1 0 7 --random 1 1", Slip::Setting),
            ("send 24 1 0 7 --table", Slip::Setting),
        ] {
            let said = words(rt.alloc(), text)?;
            let told = order_of(said.as_slice()).err();
            assert_eq!(rt; told, Some(slip));
        }
        Ok(())
    }
}
