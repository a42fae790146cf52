// How a session answers a line.
ghost use Rattle.std.specs.Prelude.{◌≡◌, ℕ, List};
ghost use Rattle.lines.specs.Faults.{line_number};
ghost use Rattle.lines.specs.Inputs.{kept_of};
ghost use Rattle.lines.specs.declared.answer.Answer.TheVariants.{Refused};
ghost use Rattle.session.specs.Said.{Answers, Carries};
ghost use Rattle.session.specs.Sessions.{held};

use crate::command_room::CommandRoom;
use crate::session::Session;
use lines::{Answer, Line, LineFault, LineRoom};

// The answer that says why a line is refused.
fn refusal(fault: LineFault, number: u16) -> Answer
    ensures { result ≡ Refused (line_number fault) number }
{
    Answer::Refused {
        number: fault.number(),
        line: number,
    }
}

impl Session {
    // The answer to the line with this number, which is read in the first room and carried out in the second.
    pub fn answer(
        &mut self,
        line: &Line,
        number: u16,
        reading: LineRoom,
        room: CommandRoom,
    ) -> Answer
        ensures { (text : List ℕ) → line.now.kept.items ≡ kept_of text → Answers (held self.old) text number result (held self.new) }
    {
        match self.carry_out_line(line, reading, room) {
            Ok(answer) => answer,
            Err(fault) => refusal(fault, number),
        }
    }

    // Reads the command whose line this is, and carries it out.
    fn carry_out_line(
        &mut self,
        line: &Line,
        reading: LineRoom,
        room: CommandRoom,
    ) -> Result<Answer, LineFault>
        ensures { (text : List ℕ) → line.now.kept.items ≡ kept_of text → Carries (held self.old) text result (held self.new) }
    {
        let command = line.command(reading)?;
        self.carry_out(command, room)
    }
}
