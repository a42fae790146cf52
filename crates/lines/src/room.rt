// Room for what a line is read into, had beforehand, so that reading cannot want memory.
ghost use Rattle.std.specs.Prelude.{◌≡◌, ◌≤◌, [], vec_capacity};

use std::alloc::{AllocError, Global};

#[derive(Drop)]
pub struct LineRoom {
    // for the bytes that the digits of the longest line write
    pub(crate) bytes: Vec<u8>,
    // for the longest send list that a line may have
    pub(crate) list: Vec<u8>,
    ghost no_bytes: { bytes.items ≡ [] },
    ghost bytes_fit: { 1040 ≤ vec_capacity bytes },
    ghost no_entries: { list.items ≡ [] },
    ghost entries_fit: { 255 ≤ vec_capacity list },
}

impl LineRoom {
    // The room for one line.
    pub fn new(heap: Global) -> Result<LineRoom, AllocError> {
        Ok(LineRoom {
            bytes: Vec::with_capacity(heap, 1040)?,
            list: Vec::with_capacity(heap, 255)?,
        })
    }
}
