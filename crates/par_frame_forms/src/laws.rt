ghost use Rattle.par_frame_forms.specs.Laws.{SpelledFormsAreRead, ReadFormsAreSpelled};
ghost use Rattle.par_frame_forms.specs.Laws.{WrittenIsShortest};

/// What spells forms one behind the other is read as these forms again, to its last byte.
pub fn spelled_forms_are_read()
    ensures { SpelledFormsAreRead }
{}

/// Bytes that are read as forms are what spells these forms.
pub fn read_forms_are_spelled()
    ensures { ReadFormsAreSpelled }
{}

/// The form that is written for a frame says it, and is the shortest that does, of equal lengths
/// the one of the least tag.
pub fn written_is_shortest()
    ensures { WrittenIsShortest }
{}
