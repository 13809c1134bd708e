//! Items and instructions.

ghost use Rattle.par_placed_fit_laws.specs.ItemLaws.{ItemsActAsPlaced, NamedItemsTell};

/// The instruction of an item, with the index of what the item names, takes and leaves what the
/// item does. A branch goes where its distance says.
pub fn items_act_as_placed()
    ensures { ItemsActAsPlaced }
{}

/// Where a layout says what names are to a program and to its class files, items take and leave
/// what the code of typed bodies relies on.
pub fn named_items_tell()
    ensures { NamedItemsTell }
{}
