//! Layouts and the keys of ranked sets are equal where their contents are, wherever they lie in memory.

ghost use Rattle.std.specs.Ordering.{on, eq_of_both};
ghost use Rattle.std.specs.Cmp.{on_equiv, and_equiv, partial_equiv_from_equiv};
ghost use Rattle.std.specs.Cmp.Lexicographic.{pointwise, lists_equiv};
ghost use Rattle.ss_base.specs.contracts.layout.ClassKindEq.TheImpl.Laws as kinds;
ghost use Rattle.ss_base.specs.contracts.layout.ModeEq.TheImpl.Laws as modes;
ghost use Rattle.ss_base.specs.contracts.layout.RankKeyEq.TheImpl.Laws as keys;
ghost use Rattle.ss_base.specs.contracts.layout.SetLayoutEq.TheImpl.Laws as sets;

use crate::layout::{ClassKind, ClassLayout, Layout, Mode, RankKey, RankKeys, SetLayout};

impl PartialEq for ClassLayout {
    ghost eq = { eq_of_both (on (λ c. c.kind) ⟦<ClassKind as PartialEq>⟧.eq) (on (λ c. c.fields) (pointwise ⟦<Mode as PartialEq>⟧.eq)) };

    ghost laws = { partial_equiv_from_equiv (and_equiv (on_equiv (λ c. c.kind) kinds.laws-law) (on_equiv (λ c. c.fields) (lists_equiv modes.laws-law))) };

    fn eq(&self, other: &ClassLayout) -> bool {
        self.kind == other.kind && self.fields == other.fields
    }
}

impl Eq for ClassLayout {
    ghost laws = { and_equiv (on_equiv (λ c. c.kind) kinds.laws-law) (on_equiv (λ c. c.fields) (lists_equiv modes.laws-law)) };
}

impl PartialEq for Layout {
    ghost use Rattle.ss_base.specs.contracts.equality.ClassLayoutEq.TheImpl.Laws as classes;

    ghost eq = { eq_of_both (on (λ l. l.classes) (pointwise ⟦<ClassLayout as PartialEq>⟧.eq)) (on (λ l. l.sets) (pointwise ⟦<SetLayout as PartialEq>⟧.eq)) };

    ghost laws = { partial_equiv_from_equiv (and_equiv (on_equiv (λ l. l.classes) (lists_equiv classes.laws-law)) (on_equiv (λ l. l.sets) (lists_equiv sets.laws-law))) };

    fn eq(&self, other: &Layout) -> bool {
        self.classes == other.classes && self.sets == other.sets
    }
}

impl Eq for Layout {
    ghost use Rattle.ss_base.specs.contracts.equality.ClassLayoutEq.TheImpl.Laws as classes;

    ghost laws = { and_equiv (on_equiv (λ l. l.classes) (lists_equiv classes.laws-law)) (on_equiv (λ l. l.sets) (lists_equiv sets.laws-law)) };
}

impl PartialEq for RankKeys {
    ghost eq = { pointwise ⟦<RankKey as PartialEq>⟧.eq };

    ghost laws = { partial_equiv_from_equiv (lists_equiv keys.laws-law) };

    fn eq(&self, other: &RankKeys) -> bool {
        self.as_slice() == other.as_slice()
    }
}

impl Eq for RankKeys {
    ghost laws = { lists_equiv keys.laws-law };
}
