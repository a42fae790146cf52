// The seven parts of a plan, as a caller states them: nothing is asked of them yet.
ghost use Rattle.std.specs.Prelude.{◌≡◌, ◌<◌, ◌≤◌, vec_len};
ghost use Rattle.plan.specs.Parts.{scheme};
ghost use Rattle.plan.specs.Scheme.{sent_length};

#[derive(Debug, Drop)]
pub struct Parts {
    // the constraint length of the code
    pub constraint: usize,
    // how many pairs of coded bits one run of the send list covers
    pub period: usize,
    // which bits of a period are sent, in order: 2t for the first of pair t, 2t + 1 for the second
    pub send_list: Vec<u8>,
    // the bits of a block
    pub block_length: usize,
    // the bits of a symbol
    pub symbol_bits: usize,
    // the data symbols of a frame
    pub frame_length: usize,
    // the step from the location of one sent bit to that of the next
    pub increment: usize,
}

impl Parts {
    // The send list runs once for each period of the block.
    pub(crate) fn sent_length(&self) -> usize
        requires { (0 < self.now.period) × ((self.now.block_length ≤ 1843200) × (vec_len self.now.send_list ≤ 32)) }
        ensures { result ≡ sent_length (scheme self.now) }
    {
        self.block_length / self.period * self.send_list.len()
    }
}
