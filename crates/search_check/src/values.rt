// Lists of values with ties on purpose: few sizes and many zeros.

// A linear congruential generator.
#[derive(Drop)]
pub(crate) struct Values(u64);

impl Values {
    pub(crate) fn new() -> Values {
        Values(5069)
    }

    // Eighteen values, each 0, or 1, 2 or 3 with either sign. In a sparse list most are 0, so that many blocks are best.
    pub(crate) fn draw(&mut self, sparse: bool) -> [i16; 18] {
        let mut values = [0i16; 18];
        for value in values.iter_mut() {
            let kept = !sparse || self.next() != 0;
            *value = if kept { self.next() } else { 0 };
        }
        values
    }

    fn next(&mut self) -> i16 {
        self.0 = self
            .0
            .wrapping_mul(6_364_136_223_846_793_005)
            .wrapping_add(1_442_695_040_888_963_407);
        match self.0 >> 60 {
            0 | 1 => 1,
            2 | 3 => -1,
            4 => 2,
            5 => -2,
            6 => 3,
            7 => -3,
            _ => 0,
        }
    }
}
