// Room that a command may need, had before it is carried out, so that none wants memory.
ghost use Rattle.std.specs.Prelude.{◌≡◌, IfOk, vec_len};
ghost use Rattle.session.specs.declared.command_room.TheConstants.{BLOCK};

use plan::ListRoom;
use std::alloc::{AllocError, Global};

// the bits of the longest block
const BLOCK: usize = 256;

#[derive(Drop)]
pub struct CommandRoom {
    // for the block that a look shows
    pub(crate) block: Vec<u8>,
    // for a second copy of the plan
    pub(crate) list: ListRoom,
    ghost whole: { vec_len block ≡ BLOCK },
}

impl CommandRoom {
    // The room for one command.
    pub fn new(heap: Global) -> Result<CommandRoom, AllocError>
        ensures { IfOk result (λ x. vec_len x.block ≡ 256) }
    {
        Ok(CommandRoom {
            block: vec![in heap; 0; BLOCK]?,
            list: ListRoom::new(heap)?,
        })
    }
}
