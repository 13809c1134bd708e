use par_base::list::List;
use par_policy::Lockset;
use par_values::run::{Ending, Event};

/// An event, with the locks that are open when it happens.
#[derive(Drop)]
pub struct SourceEvent {
    pub event: Event,
    pub locks: Lockset,
}

/// The run of a program: its events in their order, and how it ends.
pub struct SourceRun {
    pub events: List<SourceEvent>,
    pub ending: Ending,
}

impl Drop for SourceRun {
    // In one place, for all that own one.
    fn drop(self) {
        let SourceRun {
            events: _,
            ending: _,
        } = self;
    }
}
