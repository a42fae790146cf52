// How a receiver is made, and what sets its values.
ghost use Rattle.std.specs.Prelude.{◌≡◌, length, is_ok, IfOk, if◌then◌else◌};
ghost use Rattle.plan.specs.Faults.{chain_number, outcome};
ghost use Rattle.plan.specs.Plans.{plan_scheme};
ghost use Rattle.receiver.specs.Calls.{making_answer, hear_answer, note_answer, blank_answer};
ghost use Rattle.receiver.specs.Receivers.{view, view_of};
ghost use Rattle.receiver.specs.Values.{after_making, after_hear, after_note, after_blank, heard};

use crate::questions::*;
use crate::receiver::Receiver;
use crate::values::set_bits;
use code::{number_for, symbol_locations};
use plan::{ChainFault, Plan};
use scrambler::Scrambler;
use sender::{fits, unscramble};

impl<S: Scrambler + Drop> Receiver<S> {
    // A receiver by this plan, where the scrambler fits it; the values of all locations become 0.
    pub fn new(plan: Plan, mut scrambler: S, memory: &mut [i16]) -> Result<Receiver<S>, ChainFault>
        ensures answer { outcome chain_number result ≡ making_answer (view plan (S.meaning scrambler)) (length memory.old) }
        ensures made { IfOk result (λ x. view_of S.meaning x ≡ view plan (S.meaning scrambler)) }
        ensures after { memory.new ≡ (if is_ok result then after_making (plan_scheme plan) memory.old else memory.old) }
    {
        if !fits(&plan, &mut scrambler) {
            return Err(ChainFault::Fit);
        }
        check_memory(&plan, memory)?;
        memory[0..plan.sent_length()].fill(0);
        Ok(Receiver { plan, scrambler })
    }

    // The plan that it was made by.
    pub fn plan(&self) -> &Plan
        ensures { result.now ≡ self.now.plan }
    {
        &self.plan
    }

    // Sets one location's value.
    pub fn note(
        &mut self,
        memory: &mut [i16],
        location: usize,
        value: i16,
    ) -> Result<(), ChainFault>
        ensures answer { outcome chain_number result ≡ note_answer (plan_scheme self.old.plan) (length memory.old) location value }
        ensures after { memory.new ≡ (if is_ok result then after_note location value memory.old else memory.old) }
        ensures kept { view_of S.meaning self.new ≡ view_of S.meaning self.old }
    {
        check_memory(&self.plan, memory)?;
        check_note(&self.plan, location, value)?;
        memory[location] = value;
        Ok(())
    }

    // Sets the values of one symbol's locations to 0.
    pub fn blank(&mut self, memory: &mut [i16], place: usize) -> Result<(), ChainFault>
        ensures answer { outcome chain_number result ≡ blank_answer (plan_scheme self.old.plan) (length memory.old) place }
        ensures after { memory.new ≡ (if is_ok result then after_blank (plan_scheme self.old.plan) place memory.old else memory.old) }
        ensures kept { view_of S.meaning self.new ≡ view_of S.meaning self.old }
    {
        check_memory(&self.plan, memory)?;
        let locations = symbol_locations(&self.plan, place)?;
        memory[locations].fill(0);
        Ok(())
    }

    // Takes the scrambling off an on-air index, and sets the values of the symbol's locations by its bits.
    pub fn hear(
        &mut self,
        memory: &mut [i16],
        place: usize,
        index: u8,
        weight: u16,
    ) -> Result<(), ChainFault>
        ensures answer { outcome chain_number result ≡ hear_answer (view_of S.meaning self.old) (length memory.old) place index weight }
        ensures after { memory.new ≡ (if is_ok result then after_hear (view_of S.meaning self.old) place index weight memory.old else memory.old) }
        ensures kept { view_of S.meaning self.new ≡ view_of S.meaning self.old }
    {
        check_memory(&self.plan, memory)?;
        let locations = symbol_locations(&self.plan, place)?;
        check_index(&self.plan, index, weight)?;
        let number = self.number_heard(place, index).ok_or(ChainFault::Mapping)?;
        set_bits(&mut memory[locations], number, weight);
        Ok(())
    }

    // The number that a symbol's bits write, once the scrambling is off.
    fn number_heard(&mut self, place: usize, index: u8) -> Option<u8>
        ensures value { result ≡ heard (view_of S.meaning self.old) place index }
        ensures kept { view_of S.meaning self.new ≡ view_of S.meaning self.old }
    {
        let parts = self.plan.parts();
        let value = self.scrambler.value(place % parts.frame_length).unwrap();
        number_for(&self.plan, unscramble(parts.symbol_bits, index, value))
    }
}
