// What the files of a secure program keep. Nothing runs here: the contract is a law.
ghost use Rattle.par_secrecy.specs.ShownFiles.{ShownFilesAreSecure};

/// Files whose runs show those of a secure program are secure: whoever watches their runs learns
/// what the program's own runs would have told, and no more.
pub fn shown_files_are_secure()
    ensures { ShownFilesAreSecure }
{}
