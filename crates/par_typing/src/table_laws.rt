//! The laws of the tables of sources.

ghost use Rattle.par_typing.specs.TableLaws.{NamesAreApart, BirthsAreBelow};
ghost use Rattle.par_typing.specs.TableLaws.{InferredAreOfFields};
ghost use Rattle.par_typing.specs.TableLaws.{PoliciesAreShared, TablesAreWellDeclared};
ghost use Rattle.par_typing.specs.TableLaws.{FieldsAreWritten};

/// No two classes of the table have one name, no two fields of a class, and no two of its channels
/// and methods. The exception classes that every program has count as classes.
pub fn names_are_apart()
    ensures { NamesAreApart }
{}

/// Who sees a field of an object whose policy is not inferred sees the birth of the object: the
/// birth policy of its class is below the policy of the field.
pub fn births_are_below()
    ensures { BirthsAreBelow }
{}

/// The numbers of inferred fields are those of policies, in the table of any source, and no write
/// effect is one of them.
pub fn inferred_are_of_fields()
    ensures { InferredAreOfFields }
{}

/// All that is written or omitted, of locks too, has one of the policies that come first in the
/// table. These differ, and behind them each inferred field has one of its own, in the order of the
/// fields. All are in normal form, with declared actors alone. Policy 0 is `bottom`, which all
/// declared actors see, so it is below each of them.
pub fn policies_are_shared()
    ensures { PoliciesAreShared }
{}

/// All of the above holds of the table of a source that breaks no rule on names and exceeds no
/// limit.
pub fn tables_are_well_declared()
    ensures { TablesAreWellDeclared }
{}

/// Where no policy of a source is left to be inferred, none of its table is.
pub fn fields_are_written()
    ensures { FieldsAreWritten }
{}
