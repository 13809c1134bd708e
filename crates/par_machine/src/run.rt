use par_heap::{Heap, Statics};
use par_lines::Lines;
use par_stack::Stack;

/// A run in progress: its frames, and what all of them share.
pub(crate) struct Running {
    pub(crate) stack: Stack,
    pub(crate) statics: Statics,
    pub(crate) heap: Heap,
    pub(crate) lines: Lines,
}

impl Drop for Running {
    // In one place, for all that own one.
    fn drop(self) {
        let Running {
            stack: _,
            statics: _,
            heap: _,
            lines: _,
        } = self;
    }
}
