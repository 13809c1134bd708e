//! A method, as its frames are looked for.

ghost use Rattle.std.specs.Prelude.{◌≡◌, false, slice_index_or};

use par_class::file::CodeAttr;
use par_link::Linked;
use par_single::descriptor::Said;
use par_starts::Starts;

/// A method with code.
#[derive(Clone, Copy)]
pub struct Method<'m, 'f> {
    pub linked: &'f Linked,
    /// The place of its file.
    pub class: u16,
    pub code: &'f CodeAttr,
    /// The kind of its result, where it has one.
    pub gives: Option<Said<'f>>,
    /// The names of the classes of exceptions.
    pub exceptions: &'m [&'f [u8]],
    /// Where its instructions start.
    pub starts: &'m Starts,
    /// The offsets whose frames stay as they are from the start.
    pub fixed: &'m [bool],
}

impl Method<'_, '_> {
    /// Whether the frame of an offset stays as it is.
    pub fn is_fixed(&self, at: usize) -> bool
        ensures { result ≡ slice_index_or self.now.fixed.now at false }
    {
        match self.fixed.get(at) {
            Some(fixed) => *fixed,
            None => false,
        }
    }
}
