ghost use Rattle.par_place.specs.Laws.{PlacedInstructionsStand};

/// The law that each instruction of placed code stands at the offset of its item, and ends where
/// the next item begins.
pub fn placed_instructions_stand()
    ensures { PlacedInstructionsStand }
{}
