//! What holds of the load maker's files by their definitions. Each law is a contract with an empty body.
ghost use Rattle.load_maker.specs.MadeFiles.{MadeFilesAreRead, MadeLaneFits};

/// The files of every seed and of all numbers within the limits are read as what they say, and are not too long to be.
pub fn made_files()
    ensures { MadeFilesAreRead }
{}

/// The lane `seeded` takes the argument of the lane row, whatever the seed is.
pub fn made_lane()
    ensures { MadeLaneFits }
{}
