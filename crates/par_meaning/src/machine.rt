//! A run between two of its steps.

ghost use Rattle.par_meaning.specs.Whole.{IsNew};

use crate::run::SourceEvent;
use par_base::list::List;
use par_source_state::{Frames, Stack, Store};
use par_values::value::MVal;
use std::alloc::Global;

/// What a run remembers between two steps, but for what waits.
#[derive(Drop)]
pub(crate) struct Machine<'a> {
    /// The values that calls have so far.
    pub(crate) values: Stack<MVal>,
    pub(crate) frames: Frames,
    /// What the method that runs is to return.
    pub(crate) result: MVal,
    pub(crate) store: Store<'a>,
    pub(crate) events: List<SourceEvent>,
}

impl<'a> Machine<'a> {
    /// Nothing has happened yet.
    pub(crate) fn new(alloc: Global) -> Machine<'a>
        ensures { IsNew result }
    {
        Machine {
            values: Stack::new(alloc),
            frames: Frames::new(alloc),
            result: MVal::Null,
            store: Store::new(alloc),
            events: List::new(alloc),
        }
    }
}
