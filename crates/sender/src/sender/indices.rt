// The on-air indices of the interleaver array that a sender holds.
ghost use Rattle.std.specs.Prelude.{◌≡◌, ◌+◌, ◌*◌, ◌%◌, ◌<◌, ◌≤◌, ◌++◌, map, length, drop};
ghost use Rattle.sender.specs.Senders.{sender_scheme, sender_index, Kept};
ghost use Rattle.sender.specs.Transmission.{symbols};
ghost use Rattle.std.specs.List.{range_with_len};

use crate::scrambling::scramble;
use crate::sender::Sender;
use code::symbol_at;
use scrambler::Scrambler;

impl<'p, S: Scrambler> Sender<'p, S> {
    // The on-air index of symbol i, which stands at this place of its frame.
    fn on_air_index(&mut self, i: usize, place: usize) -> u8
        requires below { i < symbols (sender_scheme self.old) }
        requires placed { place ≡ i % (sender_scheme self.old).frame }
        ensures value { result ≡ sender_index S.meaning self.old i }
        ensures kept { Kept S.meaning self.old self.new }
    {
        let symbol = symbol_at(self.plan, self.array.as_slice(), i).unwrap();
        let value = self.scrambler.value(place).unwrap();
        scramble(self.plan.parts().symbol_bits, symbol, value)
    }

    // The on-air indices of the frame whose first symbol is `first`.
    fn write_frame(&mut self, first: usize, out: &mut [u8])
        requires starts { first % (sender_scheme self.old).frame ≡ 0 }
        requires short { length out.old ≤ (sender_scheme self.old).frame }
        requires below { first + length out.old ≤ symbols (sender_scheme self.old) }
        ensures after { out.new ≡ map (λ place. sender_index S.meaning self.old (first + place)) (range_with_len 0 (length out.old)) }
        ensures kept { Kept S.meaning self.old self.new }
    {
        for (place, index) in out.iter_mut().enumerate() {
            *index = self.on_air_index(first + place, place);
        }
    }

    // The on-air indices of all frames, into the first places of `out`.
    pub(super) fn write_indices(&mut self, out: &mut [u8])
        requires { symbols (sender_scheme self.old) ≤ length out.old }
        ensures after { out.new ≡ map (sender_index S.meaning self.old) (range_with_len 0 (symbols (sender_scheme self.old))) ++ drop (symbols (sender_scheme self.old)) out.old }
        ensures kept { Kept S.meaning self.old self.new }
    {
        let length = self.plan.parts().frame_length;
        // by number: what `chunks_exact_mut` lends is not known afterwards
        for frame in 0..self.plan.symbols() / length {
            let first = frame * length;
            self.write_frame(first, &mut out[first..first + length]);
        }
    }
}
