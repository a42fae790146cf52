// What is held between lines: a plan, the receiver that a table made by it, and memory for every plan that the bench takes.
ghost use Rattle.std.specs.Prelude.{◌≡◌, true, IfSome, vec_len};
ghost use Rattle.std.proofs.Props.{props};
ghost use Rattle.lines.specs.Plans.{size_fits};
ghost use Rattle.plan.specs.Plans.{plan_scheme};
ghost use Rattle.session.specs.declared.session.TheConstants.{VALUES, SCORES, MARKS};

use plan::Plan;
use receiver::Receiver;
use scrambler::Table;

mod answering;
mod carrying;
mod looking;

// the values of the largest plan that the bench takes
const VALUES: usize = 1024;

// two columns of the 256 states of the longer constraint length
const SCORES: usize = 512;

// a bit for each state after each of the 256 bits of the longest block
const MARKS: usize = 8192;

#[derive(Drop)]
pub struct Session {
    // the plan that was accepted last
    plan: Option<Plan>,
    // the receiver that was made by it
    receiver: Option<Receiver<Table>>,
    // the receiver's values
    memory: Vec<i16>,
    // the two columns of a look
    scores: Vec<u64>,
    marks: Vec<u8>,
    ghost small_plan: { IfSome plan (λ p. size_fits (plan_scheme p) ≡ true) } by { Prim.hlevel props },
    ghost small_receiver: { IfSome receiver (λ r. size_fits (plan_scheme r.plan) ≡ true) } by { Prim.hlevel props },
    ghost values: { vec_len memory ≡ VALUES },
    ghost columns: { vec_len scores ≡ SCORES },
    ghost marks_of_all: { vec_len marks ≡ MARKS },
}
