ghost use Rattle.ss_picture.specs.MaximalRuns.{PiecesCut, OnlyPiecesCut};
ghost use Rattle.ss_picture.specs.Nearest.{RoundsToNearest, OnlyNearest};

/// A law of the definitions: a picture is cut, from the left, into its fields, each as long as it can
/// be, and the bytes between them, and there is no other such cut.
pub fn pieces_are_the_maximal_runs()
    ensures cut { PiecesCut }
    ensures only { OnlyPiecesCut }
{}

/// A law of the definitions: the size of a mean is rounded to the nearest number with its decimals, a
/// half upwards, and to no other.
pub fn means_are_the_nearest()
    ensures rounds { RoundsToNearest }
    ensures only { OnlyNearest }
{}
