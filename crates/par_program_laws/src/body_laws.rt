//! What is known of a proper body, one thing by itself.

ghost use Rattle.par_program_laws.specs.BodyLaws.{ProperBodiesNameMembers, ProperBodiesMakeObjects};
ghost use Rattle.par_program_laws.specs.BodyLaws.{ProperBodiesLeaveThis};

/// Each number of a class or a member in a proper body is that of a class or a member of the kind
/// that stands there.
pub fn proper_bodies_name_members()
    ensures { ProperBodiesNameMembers }
{}

/// In a proper body `new` makes objects of classes that are no exceptions, and `this` stands in
/// instance methods alone.
pub fn proper_bodies_make_objects()
    ensures { ProperBodiesMakeObjects }
{}

/// No statement of a proper body sets local 0 of an instance method, and a lock that a `when` asks
/// for has a policy in the table.
pub fn proper_bodies_leave_this()
    ensures { ProperBodiesLeaveThis }
{}
