//! Laws of the sizes of resolved programs.

ghost use Rattle.ss_check_laws.specs.SizeLaws.{BodiesStaySmall, ProgramsStaySmall};

/// A resolved body, and a resolved program, have no more nodes than their trees.
pub fn laws_of_sizes()
    ensures bodies { BodiesStaySmall }
    ensures programs { ProgramsStaySmall }
{}
