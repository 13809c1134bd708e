//! The laws of tables and bodies.

ghost use Rattle.par_typed_laws.specs.Laws.{TablesAreInRange, BodiesHaveMethods};
ghost use Rattle.par_typed_laws.specs.Laws.{SuchBodiesAreOrderly, BodiesAreOrderly};
ghost use Rattle.par_typed_laws.specs.Laws.{ClassesAndMembersAreNamed, BodiesAreSmall};
ghost use Rattle.par_typed_laws.specs.Laws.{BodiesMakeObjects, TypesFit};
ghost use Rattle.par_typed_laws.specs.Laws.{BodiesAreControlled, BodiesAreProper};
ghost use Rattle.par_typed_laws.specs.Laws.{TablesHaveTexts};
ghost use Rattle.par_typed_laws.specs.Laws.{TablesHaveBuiltIns, TablesAreSigned};
ghost use Rattle.par_typed_laws.specs.Laws.{TablesHaveMain, MethodsHaveBodies};
ghost use Rattle.par_typed_laws.specs.Laws.{BodiesHaveBlocks, MethodsTakeFew};
ghost use Rattle.par_typed_laws.specs.Laws.{ClassesHaveFewMembers, TablesHaveFewClasses};
ghost use Rattle.par_typed_laws.specs.Laws.{SourcesAreWellTyped};

/// In the table of a source that breaks no rule on names and exceeds no limit all numbers are in
/// range, and there are at most 256 policies and 256 ground locks.
pub fn tables_are_in_range()
    ensures { TablesAreInRange }
{}

/// Each typed body of such a source belongs to a method of its table. Its points are the numbers
/// below the count of its nodes, its locals, locks and policies are in range, and locals are set
/// before they are read.
pub fn bodies_have_methods()
    ensures { BodiesHaveMethods }
{}

/// A body of which that holds obeys what the rules of flow ask of numbers.
pub fn such_bodies_are_orderly()
    ensures { SuchBodiesAreOrderly }
{}

/// Each typed body of such a source does.
pub fn bodies_are_orderly()
    ensures { BodiesAreOrderly }
{}

/// Where a source breaks no rule on types, each number of a class or a member in its typed bodies
/// is that of a class or a member of the kind that stands there: a static field, a field of an
/// object of the class, a channel into the program or out of it, a method with as many parameters
/// as there are arguments, called on an object exactly where it is not static, an exception class
/// that is thrown or caught.
pub fn classes_and_members_are_named()
    ensures { ClassesAndMembersAreNamed }
{}

/// Each typed body of a source that breaks no rule on names and types and exceeds no limit has at
/// most as many nodes as the table says of its method, and no method more than 2,000. A `this` that
/// stands before a member is not counted.
pub fn bodies_are_small()
    ensures { BodiesAreSmall }
{}

/// In the typed bodies of such a source `new` makes objects of classes that are no exceptions, and
/// `this` stands in instance methods alone, also where it is not written.
pub fn bodies_make_objects()
    ensures { BodiesMakeObjects }
{}

/// In the typed bodies of such a source each value has a type that fits where it stands: a test is
/// a boolean, an operand is what its operator takes, and an assigned value, an argument and a
/// result are what is declared, where null fits each class. Only what is never null is given to a
/// local or a parameter that is declared so. The locals of a method begin with `this` and the
/// parameters.
pub fn types_fit()
    ensures { TypesFit }
{}

/// In the typed bodies of such a source each statement is reached, a break and a continue stand in
/// a loop, and control does not come to the end of a body that has a result.
pub fn bodies_are_controlled()
    ensures { BodiesAreControlled }
{}

/// The typed bodies of such a source are proper: each form has all that code and runs need of it,
/// in one place. Local 0 of an instance method, which is `this`, is never set, and a lock that a
/// `when` asks for has a policy in the table.
pub fn bodies_are_proper()
    ensures { BodiesAreProper }
{}

/// The names of the declared classes in the table of a source that breaks no rule on names, those
/// of their members and the descriptors of these have as many bytes as those of the source.
pub fn tables_have_texts()
    ensures { TablesHaveTexts }
{}

/// In the table of any source classes 0 and 1 are the exception classes `ArithmeticException` and
/// `NullPointerException`.
pub fn tables_have_built_ins()
    ensures { TablesHaveBuiltIns }
{}

/// In the table of a source that breaks no rule on names and types and exceeds no limit each field,
/// parameter and local is an int, a boolean or an object of a class that is no exception, a result
/// is one of these or void, what a method declares to throw is of an exception class, and exception
/// classes have no members.
pub fn tables_are_signed()
    ensures { TablesAreSigned }
{}

/// In the table of a source that breaks no rule on names and exceeds no limit one method is named
/// `main`. The table tells its class. It is static, gives no result, has no parameters and expects
/// no lock.
pub fn tables_have_main()
    ensures { TablesHaveMain }
{}

/// Each method of that table has one body among those of the source, in the order of the methods.
pub fn methods_have_bodies()
    ensures { MethodsHaveBodies }
{}

/// In the typed bodies of a source the body of each catch is a block.
pub fn bodies_have_blocks()
    ensures { BodiesHaveBlocks }
{}

/// In the table of a source that exceeds no limit each method has at most 16 parameters.
pub fn methods_take_few()
    ensures { MethodsTakeFew }
{}

/// In the table of a source that exceeds no limit each class has at most 256 fields and channels,
/// and 128 methods with 8,000 nodes in all.
pub fn classes_have_few_members()
    ensures { ClassesHaveFewMembers }
{}

/// The table of a source that exceeds no limit has at most 130 classes, the two exceptions that
/// every program has among them.
pub fn tables_have_few_classes()
    ensures { TablesHaveFewClasses }
{}

/// All of the above holds of the typed bodies of a source that breaks no rule on names and types
/// and exceeds no limit: they are well typed over its table, where its names and descriptors have
/// no more bytes than a source may have.
pub fn sources_are_well_typed()
    ensures { SourcesAreWellTyped }
{}
