//! What one pass over a body finds, as a plain function of the heads of its loops.
//!
//! Two laws are proved of it. What a pass finds is below all closed facts that are above its heads,
//! and facts that hold what a pass finds are closed where no head is raised. The crate has no code:
//! passes that run are proved equal to this one.
#![tactic(auto)]

pub use par_except;
