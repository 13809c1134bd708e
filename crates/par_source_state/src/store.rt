ghost use Rattle.par_source_state.specs.Held.{NoneUnborn};

mod changes;

use par_policy::Lockset;
use par_values::value::MVal;
use std::alloc::Global;
use std::collections::HashMap;

/// What the fields of a program hold that were written, how many objects each class has, what the
/// input channels have left that were read, and the open locks.
#[derive(Drop)]
pub struct Store<'a> {
    alloc: Global,
    statics: HashMap<(u16, u16), MVal>,
    births: HashMap<u16, u32>,
    fields: HashMap<(u16, u32, u16), MVal>,
    inputs: HashMap<(u16, u16), &'a [i32]>,
    locks: Lockset,
    ghost unborn: { NoneUnborn births fields },
}
