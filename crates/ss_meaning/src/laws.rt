ghost use Rattle.ss_meaning.specs.Laws.{NeverWrong, BeginsFit, KeepsModes};

/// What is proved of well-typed programs: their meaning is never that they go wrong, a run begins
/// with a store that fits the program, and each block of statements leaves one that fits.
pub fn laws()
    ensures never_wrong { NeverWrong }
    ensures begins_fit { BeginsFit }
    ensures keeps_modes { KeepsModes }
{}
