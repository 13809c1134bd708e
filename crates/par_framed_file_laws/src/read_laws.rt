ghost use Rattle.par_framed_file_laws.specs.ReadLaws.{PlacedFramesAreRead};

use par_given_frames::written_frames_are_read;

/// The attributes of placed code give frames that tell the same as those that stand in it.
pub fn placed_frames_are_read()
    ensures { PlacedFramesAreRead }
{
    written_frames_are_read();
}
