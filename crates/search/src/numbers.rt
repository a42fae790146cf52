// The start numbers of a search: which may still win, and what decides the order of the passes over them.
ghost use Rattle.std.specs.Prelude.{◌≡◌, ◌<◌, length, false, true, IfSome, replicate, slice_index_or, slice_set};

#[derive(Drop)]
pub(crate) struct Numbers {
    // which numbers may still win
    pub left: [bool; 256],
    // how many of them had a better survivor in the pass over all, and how many bits the next pass over each holds: the number of passes alone hangs on these
    pub rank: [usize; 256],
    pub next: [usize; 256],
    ghost full: { length left ≡ 256 },
}

impl Numbers {
    // Every number may win.
    pub(crate) fn all() -> Numbers
        ensures { result.left ≡ replicate 256 true }
    {
        Numbers {
            left: [true; 256],
            rank: [0; 256],
            next: [0; 256],
        }
    }

    // Whether a number may still win.
    pub(crate) fn is_left(&self, number: usize) -> bool
        ensures { result ≡ slice_index_or self.now.left number false }
    {
        number < 256 && self.left[number]
    }

    // A number can't win.
    pub(crate) fn close(&mut self, number: usize)
        ensures { self.new.left ≡ slice_set self.old.left number false }
    {
        if number < 256 {
            self.left[number] = false;
        }
    }

    // The next pass over a number holds so many of its bits.
    pub(crate) fn hold(&mut self, number: usize, bits: usize)
        ensures { self.new.left ≡ self.old.left }
    {
        if number < 256 {
            self.next[number] = bits;
        }
    }

    // Of the numbers below a count that may still win, the one with the lowest rank.
    pub(crate) fn likeliest(&self, count: usize) -> Option<usize>
        ensures { IfSome result (λ x. x < count) }
    {
        let mut best = None;
        for number in 0..count {
            if self.is_left(number) && self.is_likelier(number, best) {
                best = Some(number);
            }
        }
        best
    }

    // Whether a number has a lower rank than another, if there is one.
    fn is_likelier(&self, number: usize, than: Option<usize>) -> bool {
        match than {
            Some(other) => self.rank.get(number) < self.rank.get(other),
            None => true,
        }
    }
}
