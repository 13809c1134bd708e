//! The limits of policies, and of what they are made of.

/// The most actors.
pub const MOST_ACTORS: usize = 16;
/// The most ground locks.
pub const MOST_GROUND_LOCKS: usize = 256;
/// The most distinct policies of a program, and the number of that limit.
pub const MOST_POLICIES: usize = 256;

pub const POLICY_LIMIT: u8 = 3;
/// The most clauses of a policy.
pub const MOST_CLAUSES: usize = 32;

pub const CLAUSE_LIMIT: u8 = 4;
/// The most locks of a clause.
pub const MOST_LOCKS: usize = 16;

pub const LOCK_LIMIT: u8 = 5;

/// The rule on the birth policy of a class, which is below the policies of the fields of an object.
pub const BIRTH_RULE: u16 = 107;
