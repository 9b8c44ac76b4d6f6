// Requests for memory that are refused. A program can't have its own requests refused; the heap
// that it is run under can refuse them. Requests of these sizes, which no machine grants, ask such
// a heap for that. Under any other heap they fail, and no other request does.
use std::alloc::Global;

// After a request of so many bytes and n more, the nth request is refused. With n = 0 none is.
const REFUSE: usize = 0x1000_0000_0000_0000;

// A request of so many bytes is granted if a request was refused as asked for above.
const ASK: usize = 0x2000_0000_0000_0000;

// A request of so many bytes and n more is granted if more than n bytes were asked for at once
// since the last such request.
const MORE: usize = 0x4000_0000_0000_0000;

/// Has the nth request from now on refused.
pub fn refuse(alloc: Global, n: u32) {
    match Vec::<u8>::with_capacity(alloc, REFUSE + n as usize) {
        Ok(_) | Err(_) => {}
    }
}

/// Whether a request was refused. The refusals go on.
pub fn has_refused(alloc: Global) -> bool {
    Vec::<u8>::with_capacity(alloc, ASK).is_ok()
}

/// Ends the refusals, and answers whether a request was refused.
pub fn was_refused(alloc: Global) -> bool {
    refuse(alloc, 0);
    has_refused(alloc)
}

/// Whether more than n bytes were asked for at once since this was last called. It answers false
/// under a heap that doesn't take such requests.
pub fn asked_for_more(alloc: Global, n: u32) -> bool {
    Vec::<u8>::with_capacity(alloc, MORE + n as usize).is_ok()
}
