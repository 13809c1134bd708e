//! The labelled code of a method.

use crate::item::Item;
use par_values::par_base::list::List;
use par_values::par_base::name::Name;

/// What is thrown between the labels `from` and `to` goes to the label `goes`, where it is of this
/// class.
#[derive(Drop)]
pub struct Handler {
    pub from: u32,
    pub to: u32,
    pub goes: u32,
    pub class: Name,
}

/// What a local or an operand holds.
#[derive(Drop)]
pub enum Slot {
    Unset,
    Int,
    Null,
    Class(Name),
}

/// What locals and operands hold at a label; the operand that was pushed last comes last.
#[derive(Drop)]
pub struct LabelFrame {
    pub label: u32,
    pub locals: List<Slot>,
    pub stack: List<Slot>,
}

/// The code of a method. Handlers of an inner `try` come before those of an outer one, and frames
/// stand in the order of their labels in the items.
pub struct Labelled {
    pub items: List<Item>,
    pub handlers: List<Handler>,
    pub max_stack: u16,
    pub max_locals: u16,
    /// The receiver and the arguments.
    pub start: List<Slot>,
    pub frames: List<LabelFrame>,
}

impl Drop for Labelled {
    // In one place, for all that own one.
    fn drop(self) {
        let Labelled {
            items: _,
            handlers: _,
            max_stack: _,
            max_locals: _,
            start: _,
            frames: _,
        } = self;
    }
}
