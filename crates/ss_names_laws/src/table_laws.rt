//! Laws of the table of a program that breaks no rule, and of the local variables of its sections.

ghost use Rattle.ss_names_laws.specs.Laws.{LayoutsAreThere, LayoutsAreWellTyped, RoutinesAreThere, SectionsAreValid, TablesAreThere, TablesAreValid};

/// What is proved of the table of a program that breaks no rule: it has a layout, which is well typed, and each of
/// its names means something that is there.
pub fn laws_of_tables()
    ensures layouts { LayoutsAreThere }
    ensures there { TablesAreThere }
    ensures valid { TablesAreValid }
    ensures typed { LayoutsAreWellTyped }
{}

/// What is proved of the local variables of the sections of such a program: each has a mode, and parameters come first.
pub fn laws_of_sections()
    ensures sections { SectionsAreValid }
    ensures routines { RoutinesAreThere }
{}
