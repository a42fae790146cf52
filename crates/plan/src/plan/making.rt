// How a plan is made, and what it tells.
ghost use Rattle.std.specs.Prelude.{◌≡◌, ◌/◌, ◌<◌, ◌≤◌, length, IfOk, vec_len};
ghost use Rattle.plan.specs.Faults.{plan_number, outcome};
ghost use Rattle.plan.specs.Parts.{scheme};
ghost use Rattle.plan.specs.Plans.{plan_scheme};
ghost use Rattle.plan.specs.Questions.{plan_answer};
ghost use Rattle.plan.specs.Scheme.{sent_length};

use crate::fault::PlanFault;
use crate::parts::Parts;
use crate::plan::Plan;
use crate::questions::*;
use crate::room::ListRoom;

impl Plan {
    // The plan with these parts, or the first question that is answered no.
    pub fn new(parts: Parts) -> Result<Plan, PlanFault>
        ensures answer { outcome plan_number result ≡ plan_answer (scheme parts) }
        ensures made { IfOk result (λ p. plan_scheme p ≡ scheme parts) }
    {
        if !constraint_fits(parts.constraint) {
            return Err(PlanFault::ConstraintLength);
        }
        if !period_fits(parts.period, parts.send_list.len()) {
            return Err(PlanFault::Period);
        }
        if !all_below(parts.send_list.as_slice(), 2 * parts.period) {
            return Err(PlanFault::Entry);
        }
        if !block_fits(parts.block_length, parts.period) {
            return Err(PlanFault::BlockLength);
        }
        let sent_length = parts.sent_length();
        if sent_length > 2_211_840 {
            return Err(PlanFault::SentLength);
        }
        if !bits_fit(parts.symbol_bits) {
            return Err(PlanFault::SymbolBits);
        }
        if !frame_fits(parts.frame_length, parts.symbol_bits, sent_length) {
            return Err(PlanFault::FrameLength);
        }
        if !increment_fits(parts.increment, sent_length) {
            return Err(PlanFault::Increment);
        }
        Ok(Plan { parts, sent_length })
    }

    // The seven parts.
    pub fn parts(&self) -> &Parts
        ensures { result.now ≡ self.now.parts }
    {
        &self.parts
    }

    // A second plan of the same parts, its send list in this room.
    pub fn copy(&self, room: ListRoom) -> Plan
        ensures { plan_scheme result ≡ plan_scheme self.now }
    {
        let send_list = copied(room, self.parts.send_list.as_slice());
        Plan {
            parts: Parts {
                send_list,
                ..self.parts
            },
            sent_length: self.sent_length,
        }
    }

    // How many bits are sent for a block.
    pub fn sent_length(&self) -> usize
        ensures { result ≡ sent_length (plan_scheme self.now) }
    {
        self.sent_length
    }

    // How many symbols are sent for a block.
    pub fn symbols(&self) -> usize
        ensures { result ≡ sent_length (plan_scheme self.now) / (plan_scheme self.now).bits }
    {
        self.sent_length / self.parts.symbol_bits
    }
}

// The entries, in this room.
fn copied(room: ListRoom, entries: &[u8]) -> Vec<u8>
    requires { length entries.now ≤ 32 }
    ensures { result.items ≡ entries.now }
{
    let mut list = room.into_list();
    let _ = list.extend_from_slice(entries);
    list
}
