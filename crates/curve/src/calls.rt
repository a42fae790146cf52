// The calls that a receiver gets of one block: its symbols in shuffled order, some twice, some never, a few blanked.
ghost use Rattle.std.specs.Prelude.{◌≡◌, ◌++◌, ◌<◌, All, IfOk, OnOk, is_ok, length, map, nat_le};
ghost use Rattle.std.specs.List.{range_with_len};
ghost use Rattle.channel.specs.Airs.{aired};
ghost use Rattle.channel.specs.Drawing.{reordered};
ghost use Rattle.plan.specs.Plans.{plan_scheme};
ghost use Rattle.scrambler.specs.Meanings.{table_meaning};
ghost use Rattle.curve.specs.Calls.{air_after, air_behind, calls as block_calls, drawn_on, first_hearing, hearing, left_air, symbol_calls};

use crate::trouble::Trouble;
use channel::Air;
use plan::Plan;
use replay::Call;
use scrambler::{Scrambler, Table};
use std::alloc::{AllocError, Global};

// What is on the air: the plan, and the on-air indices.
#[derive(Clone, Copy)]
pub struct OnAir<'a> {
    pub plan: &'a Plan,
    pub indices: &'a [u8],
}

impl OnAir<'_> {
    // The call that hears the symbol at a place. The table has the scrambler's values of a frame.
    fn hearing(&self, table: &mut Table, air: &mut Air, place: usize) -> Result<Call, Trouble>
        ensures answer { is_ok result ≡ nat_le (plan_scheme self.now.plan.now).bits 3 }
        ensures call { IfOk result (λ c. c ≡ hearing (plan_scheme self.now.plan.now) (table_meaning table.old) self.now.indices.now air.old place) }
        ensures air { OnOk result (air.new ≡ aired air.old) }
        ensures table { table_meaning table.new ≡ table_meaning table.old }
    {
        let in_frame = place
            .checked_rem(self.plan.parts().frame_length)
            .unwrap_or(0);
        let value = table.value(in_frame).unwrap_or(0);
        let sent = self.indices.get(place).copied().unwrap_or(0);
        let heard = air.hear(self.plan, value, sent)?;
        Ok(Call::Hear {
            lent: self.plan.sent_length(),
            place,
            index: heard.index,
            weight: heard.weight,
        })
    }

    // The calls that hear every symbol once, in the order of sending, in which the air fades.
    fn hearings(&self, heap: Global, table: &mut Table, air: &mut Air) -> Result<Vec<Call>, Trouble>
        ensures calls { IfOk result (λ v. v.items ≡ map (first_hearing (plan_scheme self.now.plan.now) (table_meaning table.old) self.now.indices.now air.old) (range_with_len 0 (length self.now.indices.now))) }
        ensures air { OnOk result (air.new ≡ air_after (length self.now.indices.now) air.old) }
        ensures table { table_meaning table.new ≡ table_meaning table.old }
    {
        let mut hearings = Vec::new(heap);
        for place in 0..self.indices.len() {
            hearings.push(self.hearing(table, air, place)?)?;
        }
        Ok(hearings)
    }

    // The calls of one symbol: of 64, one is never heard, one is blanked, and eight are heard again.
    fn call(
        &self,
        table: &mut Table,
        air: &mut Air,
        place: usize,
        first: Call,
        calls: &mut Vec<Call>,
    ) -> Result<(), Trouble>
        ensures calls { OnOk result (calls.new.items ≡ calls.old.items ++ symbol_calls (plan_scheme self.now.plan.now) (table_meaning table.old) self.now.indices.now air.old place first) }
        ensures air { OnOk result (air.new ≡ left_air air.old) }
        ensures table { table_meaning table.new ≡ table_meaning table.old }
    {
        let chance = air.generator.draw_below(64);
        if chance == 0 {
            return Ok(());
        }
        calls.push(first)?;
        if chance == 1 {
            let lent = self.plan.sent_length();
            calls.push(Call::Blank { lent, place })?;
        } else if chance < 10 {
            calls.push(self.hearing(table, air, place)?)?;
        }
        Ok(())
    }

    // The calls of all symbols, in drawn order.
    pub(crate) fn calls(
        &self,
        heap: Global,
        table: &mut Table,
        air: &mut Air,
    ) -> Result<Vec<Call>, Trouble>
        ensures calls { IfOk result (λ v. v.items ≡ block_calls (plan_scheme self.now.plan.now) (table_meaning table.old) self.now.indices.now air.old) }
        ensures air { OnOk result (air.new ≡ air_behind (length self.now.indices.now) air.old) }
        ensures table { table_meaning table.new ≡ table_meaning table.old }
    {
        let hearings = self.hearings(heap, table, air)?;
        let order = shuffled_places(heap, air, self.indices.len())?;
        let mut calls = Vec::new(heap);
        for place in order.as_slice() {
            self.call(table, air, *place, hearings[*place], &mut calls)?;
        }
        Ok(calls)
    }
}

// So many places in drawn order.
fn shuffled_places(heap: Global, air: &mut Air, count: usize) -> Result<Vec<usize>, AllocError>
    ensures order { IfOk result (λ v. v.items ≡ reordered air.old.generator.state (range_with_len 0 count)) }
    ensures places { IfOk result (λ v. (length v.items ≡ count) × All (λ p. p < count) v.items) }
    ensures air { OnOk result (air.new ≡ drawn_on count air.old) }
{
    let mut places = places_to(heap, count)?;
    air.generator.shuffle(places.as_mut_slice());
    Ok(places)
}

// So many places, in rising order.
fn places_to(heap: Global, count: usize) -> Result<Vec<usize>, AllocError>
    ensures { IfOk result (λ v. v.items ≡ range_with_len 0 count) }
{
    let mut places = Vec::new(heap);
    for place in 0..count {
        places.push(place)?;
    }
    Ok(places)
}
