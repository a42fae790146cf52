// What the bench holds between lines, and what it makes of each command.
#![tactic(auto)]

mod command_room;
mod session;

pub use command_room::CommandRoom;
pub use session::Session;

#[cfg(test)]
mod tests {
    use super::*;
    use lines::{Line, LineRoom, answer_text};
    use std::alloc::Global;
    use std::test::Fail;

    // What a session answers to these lines, one after the other.
    fn answers(heap: Global, lines: &[&str]) -> Result<String, Fail> {
        let mut session = Session::new(heap)?;
        let mut said = String::new(heap);
        for (text, number) in lines.iter().zip(1..=u16::MAX) {
            let mut line = Line::new(heap);
            for byte in text.bytes() {
                line.push(byte)?;
            }
            let answer = session.answer(
                &line,
                number,
                LineRoom::new(heap)?,
                CommandRoom::new(heap)?,
            );
            said.push_str(answer_text(heap, &answer)?.as_str())?;
        }
        Ok(said)
    }

    // A transmission heard exactly comes back, and a place past the last is refused.
    #[test]
    fn lines_are_answered(rt: HostRuntime) -> Result<(), Fail> {
        let said = answers(
            rt.alloc(),
            &[
                "P07030400010205000009030004000005",
                "S01020304",
                "H000000060001",
                "H000001050001",
                "H000002030001",
                "H000003030001",
                "H000004060001",
                "L",
            ],
        )?;
        assert_eq!(rt;
            said.as_str(),
            "A\nA\nA\nA\nA\nA\nR0E0007\nL00000000000000008000\n"
        );
        Ok(())
    }
}
