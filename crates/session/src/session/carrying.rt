// How a session carries a command out.
ghost use Rattle.std.specs.Prelude.{◌≡◌, ℕ, List, ℤ, IfOk, None};
ghost use Rattle.lines.specs.Faults.{line_number};
ghost use Rattle.lines.specs.declared.command.Command.TheVariants.{Plan as PlanLine, Table as TableLine, Look};
ghost use Rattle.plan.specs.Faults.{outcome};
ghost use Rattle.session.specs.Held.{answer, after, Replies};
ghost use Rattle.receiver.specs.Receivers.{view_of};
ghost use Rattle.receiver.specs.Views.{View};
ghost use Rattle.scrambler.specs.Meanings.{table_meaning};
ghost use Rattle.session.specs.Obeying.{Obeys, Makes, Calls};
ghost use Rattle.session.specs.Sessions.{held};

use crate::command_room::CommandRoom;
use crate::session::looking::look;
use crate::session::{MARKS, SCORES, Session, VALUES};
use lines::{Answer, Command, LineFault, accept_plan};
use plan::{ChainFault, Parts};
use receiver::Receiver;
use scrambler::Table;
use sender::needed_width;
use std::alloc::{AllocError, Global};

impl Session {
    // Nothing is accepted yet.
    pub fn new(heap: Global) -> Result<Session, AllocError>
        ensures { IfOk result (λ s. ((held s).plan ≡ None) × ((held s).receiver ≡ None)) }
    {
        Ok(Session {
            plan: None,
            receiver: None,
            memory: vec![in heap; 0; VALUES]?,
            scores: vec![in heap; 0; SCORES]?,
            marks: vec![in heap; 0; MARKS]?,
        })
    }

    // Carries out a command. A refused one leaves everything as it was.
    pub fn carry_out(&mut self, command: Command, room: CommandRoom) -> Result<Answer, LineFault>
        ensures answer { outcome line_number result ≡ answer (held self.old) command }
        ensures after { held self.new ≡ after (held self.old) command }
        ensures reply { IfOk result (λ a. Replies (held self.old) command a) }
    {
        match command {
            Command::Plan(parts) => self.take_plan(parts),
            Command::Table(values) => self.take_table(values, room),
            Command::Hear {
                place,
                index,
                weight,
            } => self.call(|receiver, memory| receiver.hear(memory, place, index, weight)),
            Command::Note { location, value } => self.call(|receiver, memory| receiver.note(
                memory, location, value,
            )),
            Command::Blank { place } => self.call(|receiver, memory| receiver.blank(memory, place)),
            Command::Look => self.show(room),
        }
    }

    fn take_plan(&mut self, parts: Parts) -> Result<Answer, LineFault>
        ensures { Obeys (held self.old) (PlanLine parts) result (held self.new) }
    {
        let plan = accept_plan(parts)?;
        self.plan = Some(plan);
        self.receiver = None;
        Ok(Answer::Accepted)
    }

    fn take_table(&mut self, values: Vec<u8>, room: CommandRoom) -> Result<Answer, LineFault>
        ensures { Obeys (held self.old) (TableLine values) result (held self.new) }
    {
        let Some(plan) = &self.plan else {
            return Err(LineFault::Order);
        };
        let table = Table::new(needed_width(plan.parts().symbol_bits), values)?;
        let receiver = Receiver::new(plan.copy(room.list), table, self.memory.as_mut_slice())?;
        self.receiver = Some(receiver);
        Ok(Answer::Accepted)
    }

    // Calls the receiver with the values, where there is one.
    fn call<F: FnOnce(&mut Receiver<Table>, &mut [i16]) -> Result<(), ChainFault>>(
        &mut self,
        call: F,
    ) -> Result<Answer, LineFault>
        requires takes { F.IsAlwaysCallable call }
        requires keeps { (x m r y n : _) → F.post call x m r y n → view_of table_meaning y.now ≡ view_of table_meaning x.now }
        ensures { (number : View → List ℤ → ℕ) (leaves : View → List ℤ → List ℤ) → ((x m r y n : _) → F.post call x m r y n → Makes number leaves x.now m.now r n.now) → Calls number leaves (held self.old) result (held self.new) }
    {
        let Some(receiver) = &mut self.receiver else {
            return Err(LineFault::Order);
        };
        call(receiver, self.memory.as_mut_slice())?;
        Ok(Answer::Accepted)
    }

    fn show(&mut self, room: CommandRoom) -> Result<Answer, LineFault>
        ensures { Obeys (held self.old) Look result (held self.new) }
    {
        let Some(receiver) = &self.receiver else {
            return Err(LineFault::Order);
        };
        let mut block = room.block;
        block.truncate(receiver.plan().parts().block_length);
        let score = look(
            receiver,
            self.memory.as_slice(),
            block.as_mut_slice(),
            self.scores.as_mut_slice(),
            self.marks.as_mut_slice(),
        )?;
        Ok(Answer::Shown { score, block })
    }
}
