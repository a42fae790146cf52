// The lines of the bench program and its answers, as text.
#![tactic(auto)]

mod accept;
mod answer;
mod command;
mod fault;
mod fields;
mod hex;
mod input;
mod law;
mod reading;
mod room;
mod stream;
mod writing;

pub use accept::accept_plan;
pub use answer::Answer;
pub use command::Command;
pub use fault::LineFault;
pub use input::Line;
pub use law::one_reading_holds;
pub use reading::parse;
pub use room::LineRoom;
pub use stream::Lines;
pub use writing::answer_text;

#[cfg(test)]
mod tests {
    use super::*;
    use std::test::Fail;

    #[test]
    fn plan_is_read(rt: HostRuntime) -> Result<(), Fail> {
        let Ok(Command::Plan(parts)) = parse(
            LineRoom::new(rt.alloc())?,
            b"P07030400010205000009030004000005",
        ) else {
            return Err(Fail::new("the line is no plan's"));
        };
        assert_eq!(rt; parts.send_list.as_slice(), [0, 1, 2, 5].as_slice());
        assert_eq!(rt;
            (parts.constraint, parts.period, parts.symbol_bits),
            (7, 3, 3)
        );
        assert_eq!(rt;
            (parts.block_length, parts.frame_length, parts.increment),
            (9, 4, 5)
        );
        Ok(())
    }

    #[test]
    fn answers_are_written(rt: HostRuntime) -> Result<(), Fail> {
        let block = [1, 0, 0, 0, 0, 0, 0, 0, 1].to_vec(rt.alloc())?;
        let shown = answer_text(rt.alloc(), &Answer::Shown { score: 171, block })?;
        assert_eq!(rt; shown.as_str(), "L00000000000000AB8080\n");
        let refused = answer_text(
            rt.alloc(),
            &Answer::Refused {
                number: 14,
                line: 7,
            },
        )?;
        assert_eq!(rt; refused.as_str(), "R0E0007\n");
        Ok(())
    }
}
