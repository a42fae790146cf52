// A run of the send list: where its bits come from, and where they are loaded.
ghost use Rattle.std.specs.Prelude.{◌≡◌, ◌+◌, ◌*◌, ◌/◌, ◌<◌, ◌≤◌, length, IfSome, is_some, if◌then◌else◌, Some, None, nat_lt};
ghost use Rattle.code.specs.Numbers.{read};
ghost use Rattle.code.specs.Sending.{loads, location as location_of};
ghost use Rattle.plan.specs.Plans.{plan_scheme};
ghost use Rattle.plan.specs.Scheme.{sent_length};

use crate::interleaver::location_below;
use plan::Plan;

// One of the runs that a plan's block takes, counted from 0.
#[derive(Clone, Copy)]
pub struct Run<'a> {
    pub plan: &'a Plan,
    pub number: usize,
    ghost below: { number < (plan_scheme plan.now).block / (plan_scheme plan.now).period },
}

impl<'a> Run<'a> {
    // The run that sends the pair of a step, or none past the block.
    pub fn of_step(plan: &'a Plan, t: usize) -> Option<Run<'a>>
        ensures within { is_some result ≡ nat_lt t (plan_scheme plan.now).block }
        ensures made { IfSome result (λ r. (r.plan.now ≡ plan.now) × (r.number ≡ t / (plan_scheme plan.now).period)) }
    {
        let parts = plan.parts();
        if t >= parts.block_length {
            return None;
        }
        Some(Run {
            plan,
            number: t / parts.period,
        })
    }

    // The location of the bit that entry i sends, or none past the list.
    pub fn location(&self, i: usize) -> Option<usize>
        ensures { result ≡ (if nat_lt i (length (plan_scheme self.now.plan.now).entries) then Some (location_of (plan_scheme self.now.plan.now) (self.now.number * length (plan_scheme self.now.plan.now).entries + i)) else None) }
    {
        if i >= self.plan.parts().send_list.len() {
            return None;
        }
        Some(location_below(self.plan, self.sent_number(i)))
    }

    // Loads the bits of this run.
    pub(crate) fn load(&self, word: &[bool], array: &mut [bool])
        requires { (2 * (plan_scheme self.now.plan.now).block ≤ length word.now) × (sent_length (plan_scheme self.now.plan.now) ≤ length array.old) }
        ensures { array.new ≡ loads (plan_scheme self.now.plan.now) (read word.now) array.old (self.now.number * length (plan_scheme self.now.plan.now).entries) (length (plan_scheme self.now.plan.now).entries) }
    {
        let list = self.plan.parts().send_list.as_slice();
        for (i, entry) in list.iter().enumerate() {
            array[location_below(self.plan, self.sent_number(i))] = word[self.word_place(*entry)];
        }
    }

    // The number of the sent bit that entry i sends.
    fn sent_number(&self, i: usize) -> usize
        requires { i < length (plan_scheme self.now.plan.now).entries }
        ensures value { result ≡ self.now.number * length (plan_scheme self.now.plan.now).entries + i }
        ensures bound { result < sent_length (plan_scheme self.now.plan.now) }
    {
        self.number * self.plan.parts().send_list.len() + i
    }

    // The place in the code word that an entry names.
    fn word_place(&self, entry: u8) -> usize
        requires { entry < 2 * (plan_scheme self.now.plan.now).period }
        ensures value { result ≡ 2 * (plan_scheme self.now.plan.now).period * self.now.number + entry }
        ensures bound { result < 2 * (plan_scheme self.now.plan.now).block }
    {
        2 * self.plan.parts().period * self.number + usize::from(entry)
    }
}
