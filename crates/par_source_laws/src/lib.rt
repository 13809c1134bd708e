//! What holds of the tree of any source, whether or not it breaks a rule.
//!
//! Later passes lean on what the tokens and the grammar give: no number is greater than a token may
//! be, declarations stand in the order of their places and members at places of their own, a family
//! of locks has at most two actors, an exception class has no members, and the names and
//! descriptors of classes and members take no more bytes than the source has. The crate has the
//! definitions and their laws alone. It reads nothing, looks at no rule and has no code.
#![tactic(auto)]

ghost use Rattle.par_source_laws.specs.Laws.{TreesHaveNumbers, TreesAreInOrder, TreesAreShort};

/// Each number in the tree of a source is at most 2147483648.
pub fn trees_have_numbers()
    ensures { TreesHaveNumbers }
{}

/// The classes of a source, and the methods of each class, stand in its tree in the order of their
/// places, behind the first byte. No two fields of a class stand at one place, and no two of its
/// channels and methods. A family of locks has at most two actors, and an exception class has no
/// members.
pub fn trees_are_in_order()
    ensures { TreesAreInOrder }
{}

/// The names of the classes of a source, of their fields, channels and methods, and the descriptors
/// of these members, each counted at its declaration, have together at most as many bytes as the
/// source.
pub fn trees_are_short()
    ensures { TreesAreShort }
{}
