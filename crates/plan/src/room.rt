// Room for a send list, had before it is needed, so that what fills it cannot want memory.
ghost use Rattle.std.specs.Prelude.{◌≡◌, ◌≤◌, [], IfOk, vec_capacity};

use std::alloc::{AllocError, Global};

// An empty list that takes as many entries as a plan may have.
#[derive(Drop)]
pub struct ListRoom {
    list: Vec<u8>,
    ghost empty: { list.items ≡ [] },
    ghost wide: { 32 ≤ vec_capacity list },
}

impl ListRoom {
    // Asks for the memory.
    pub fn new(heap: Global) -> Result<ListRoom, AllocError>
        ensures { IfOk result (λ x. x.list.items ≡ []) }
    {
        let list = Vec::with_capacity(heap, 32)?;
        Ok(ListRoom { list })
    }

    // The empty list: 32 entries can be pushed, and none of these pushes is refused.
    pub fn into_list(self) -> Vec<u8>
        ensures empty { result.items ≡ [] }
        ensures wide { 32 ≤ vec_capacity result }
    {
        self.list
    }
}
