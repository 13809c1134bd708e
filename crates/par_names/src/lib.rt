//! What the names of a program stand for, and the rules on names.
//!
//! The crate says of a whole tree which names it declares, what each use resolves to, and which
//! rules on names are broken where. It has an index of what a program declares, and notes the
//! broken rules of policies, types and bodies. It numbers nothing and knows no types.
#![tactic(auto)]

mod body;
mod builtin;
mod doubles;
mod expr;
pub mod laws;
mod lookup;
mod named;
mod policy;
mod rule;
mod view;

pub use body::check_body;
pub use builtin::builtin_classes;
pub use doubles::check_doubles;
pub use lookup::{ClassNames, Classes, Locks};
pub use named::{Named, index, index_named, index_of, push_ids, push_named};
pub use par_index;
pub use policy::{
    check_class, check_lock, check_locks, check_may_policy, check_policy, check_result, check_type,
};
pub use view::{Declared, Home, View, actors, classes, declared_classes, locks, policies};
