//! What an erased program keeps, and that its labelled code is code of typed bodies.

ghost use Rattle.par_source_code_laws.specs.Laws.{BodiesAreErased, ErasedBodiesComplete};
ghost use Rattle.par_source_code_laws.specs.Laws.{MethodsAreKept};
ghost use Rattle.par_source_code_laws.specs.Laws.{MainIsKept, WellTypedBodiesAreCoded};
ghost use Rattle.par_source_code_laws.specs.Laws.{CodeNamesEach};
ghost use Rattle.par_source_code_laws.specs.Laws.{ErasedBodiesUseAskedLocks, CodeUsesItsLocks};
ghost use Rattle.par_source_code_laws.specs.Compiled.{WellTypedProgramsAreCompiled};

/// Where the bodies of a program stand in the order of its methods, those of the erased program are
/// the same ones, each erased.
pub fn bodies_are_erased()
    ensures { BodiesAreErased }
{}

/// Control comes behind an erased statement where it comes behind its source.
pub fn erased_bodies_complete()
    ensures { ErasedBodiesComplete }
{}

/// Each method of a program is one of its erased program, with a body.
pub fn methods_are_kept()
    ensures { MethodsAreKept }
{}

/// The method where a program begins is one of its erased program, takes nothing and gives nothing.
pub fn main_is_kept()
    ensures { MainIsKept }
{}

/// The code of each method of a well-typed program is code of a typed body, with room for all its
/// operands, wherever a layout says of what the body names what the program does.
pub fn well_typed_bodies_are_coded()
    ensures { WellTypedBodiesAreCoded }
{}

/// Each class and each lock that a body names is named by an instruction or a handler of its code.
pub fn code_names_each()
    ensures { CodeNamesEach }
{}

/// Each lock that a body of an erased program opens, closes or asks for is one that some `when` of
/// the source asks for.
pub fn erased_bodies_use_asked_locks()
    ensures { ErasedBodiesUseAskedLocks }
{}

/// The code of a body names no lock that the body does not name.
pub fn code_uses_its_locks()
    ensures { CodeUsesItsLocks }
{}

/// Labelled code of a well-typed program is that of the program as a whole, where names, numbers
/// and places are the same to both and each method has its code.
pub fn well_typed_programs_are_compiled()
    ensures { WellTypedProgramsAreCompiled }
{}
