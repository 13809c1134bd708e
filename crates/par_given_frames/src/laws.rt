ghost use Rattle.par_given_frames.specs.Laws.{WrittenFramesAreRead};

use par_frames::written_kinds_are_read;

/// What is written as the frames of a method is read as frames that tell the same, of which some
/// list fewer locals: those that are not known at the end need not be listed.
pub fn written_frames_are_read()
    ensures { WrittenFramesAreRead }
{
    written_kinds_are_read();
}
