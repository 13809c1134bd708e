//! Items in an order, each found by the first place where it stands.
//!
//! What a program or a class file declares is looked up by name at each use. An index answers in
//! constant time where a list would be searched from its first item on; contracts see it as that
//! list. A few names are searched all the same, which takes less time than a hash. It keeps no copy
//! of a name, and knows nothing of what the names are for.
#![tactic(auto)]

mod firsts;
mod names;
mod search;
mod stack;

pub use firsts::Firsts;
pub use names::NameIndex;
pub use par_base;
pub use stack::NameStack;
