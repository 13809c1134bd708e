//! What becomes of the frames that are kept where an instruction goes on.

ghost use Rattle.std.specs.Prelude.{◌≡◌};
ghost use Rattle.par_frame_passes.specs.Tables.{joined};

/// What becomes of them.
#[derive(Clone, Copy)]
pub(crate) enum Course {
    /// No frames fit.
    Refused,
    /// Those that were kept stay as they are, and new ones stand ahead.
    Calm,
    /// The frame of this offset rose, or it is new and does not stand ahead.
    Rises(usize),
}

impl Course {
    /// What becomes of them where this comes first, and then another.
    pub(crate) fn joined(self, other: Course) -> Course
        ensures { result ≡ joined self other }
    {
        match (self, other) {
            (Course::Refused, _) => Course::Refused,
            (Course::Calm, other) => other,
            (Course::Rises(_), Course::Refused) => Course::Refused,
            (Course::Rises(to), Course::Calm) => Course::Rises(to),
            (Course::Rises(to), Course::Rises(other)) => Course::Rises(to.min(other)),
        }
    }
}
