//! Frames whose classes have their indices.

use par_base::list::List;
use par_frame_forms::PlaceType;

/// A frame as it is written: each class by the index of its constant.
#[derive(Drop)]
pub struct IndexedFrame {
    pub offset: u32,
    pub locals: List<PlaceType>,
    pub stack: List<PlaceType>,
}
