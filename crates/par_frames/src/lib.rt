//! The frames of a method as an attribute of its code has them: `StackMapTable` (Java Virtual
//! Machine Specification, Java SE 7, section 4.7.4, narrowed to ints, nulls and named classes).
//!
//! Frames are written, each in its shortest form; definitions say what the frames of a class file
//! are, and which method has none. Whether frames fit the code is not asked here.
#![tactic(auto)]

mod arguments;
mod attribute;
pub mod error;
mod form_bytes;
mod forms;
pub mod indexed;
mod laws;
mod pool_classes;

pub use attribute::write_frames;
pub use error::{FrameError, KindName};
pub use laws::written_kinds_are_read;
pub use par_kinds::frame::{Frame, MethodFrames, PlacedFrame, VKind};
