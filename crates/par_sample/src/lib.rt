//! The source that is made of a number, with which anyone can see that the compiler is whole and
//! how fast it is: a hundred classes of ten methods, which differ in their numbers alone. And what
//! a program has in it: its classes, their methods, and the nodes of these.
//!
//! Which text the source is, a definition says line by line. The crate knows nothing of what
//! becomes of it, and compiles nothing: how many class files there are is handed in. The built-in
//! classes are not counted.
#![tactic(auto)]

mod classes;
mod counts;
mod numbers;
mod source;
mod summary;

pub use counts::summary_of;
pub use source::sample;
pub use summary::Summary;
