//! Laws of bodies whose uses break no rule.

ghost use Rattle.ss_check_laws.specs.BodyLaws.{BodiesResolve};

/// A body whose uses break no rule has a resolved form, and that is well typed.
pub fn laws()
    ensures { BodiesResolve }
{}
