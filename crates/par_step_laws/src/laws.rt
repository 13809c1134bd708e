ghost use Rattle.par_step_laws.specs.Run.{MoreInstructionsExtend};
ghost use Rattle.par_step_laws.specs.FieldLaws.{StaticFieldsApart, StaticFieldsStand, LocksStand};
ghost use Rattle.par_step_laws.specs.FieldLaws.{OwnFieldsApart, OwnFieldsStand};

/// The law that a run with more instructions goes on where one with fewer was stopped: it has the
/// events of the other first, and is the same run where the other was not stopped.
pub fn more_instructions_extend()
    ensures { MoreInstructionsExtend }
{}

/// The law of the places of static fields: those of different fields differ, each is one of them
/// all and before those of locks, and each field holds there first what a field of its kind holds
/// before it is written.
pub fn static_fields_stand_apart()
    ensures apart { StaticFieldsApart }
    ensures stand { StaticFieldsStand }
    ensures locks { LocksStand }
{}

/// The same law of the places of the fields of an object.
pub fn own_fields_stand_apart()
    ensures apart { OwnFieldsApart }
    ensures stand { OwnFieldsStand }
{}
