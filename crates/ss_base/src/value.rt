ghost use Rattle.std.specs.Prelude.{◌≡◌, refl};
ghost use Rattle.std.specs.Cmp.{partial_order_from_agreeing_total};
ghost use Rattle.std.specs.Cmp.Lexicographic.{texts_ties};
ghost use Rattle.ss_base.specs.declared.value.Value.TheVariants.{Whole, Text};
ghost use Rattle.std.specs.Ordering.{as_partial_cmp};
ghost use Rattle.ss_base.specs.Layout.{mode_of};
ghost use Rattle.ss_base.specs.Order.{value_cmp, value_cmp_total};

use crate::alpha::Alpha;
use crate::layout::Mode;
use std::cmp::Ordering;

/// What a variable, a field or an item holds.
#[derive(Clone, Copy, Debug, PartialEq, Eq)]
pub enum Value {
    /// A whole number of 64 bits.
    Whole(i64),
    /// A text of at most `TEXT_LIMIT` characters.
    Text(Alpha),
}

impl Value {
    /// The mode of the fields that may hold it.
    pub fn mode(&self) -> Mode
        ensures { result ≡ mode_of self.now }
    {
        match self {
            Value::Whole(_) => Mode::Integer,
            Value::Text(_) => Mode::Alpha,
        }
    }
}

impl PartialOrd for Value {
    ghost partial_cmp = { as_partial_cmp value_cmp };

    ghost laws = { partial_order_from_agreeing_total value_cmp value_cmp_total (λ x y. refl) (elim [ Whole x ↦ elim [ Whole y ↦ refl | Text t ↦ refl ] | Text s ↦ elim [ Whole y ↦ refl | Text t ↦ texts_ties s t ] ]) };

    fn partial_cmp(&self, other: &Value) -> Option<Ordering> {
        Some(self.cmp(other))
    }
}

/// Numbers by their size and texts by their bytes. A number comes before a text.
impl Ord for Value {
    ghost cmp = { value_cmp };

    ghost total = { value_cmp_total };

    ghost matches_partial_cmp = { λ x y. refl };

    ghost matches_eq = { elim [ Whole x ↦ elim [ Whole y ↦ refl | Text t ↦ refl ] | Text s ↦ elim [ Whole y ↦ refl | Text t ↦ texts_ties s t ] ] };

    fn cmp(&self, other: &Value) -> Ordering {
        match (self, other) {
            (Value::Whole(x), Value::Whole(y)) => x.cmp(y),
            (Value::Text(s), Value::Text(t)) => s.cmp(t),
            (Value::Whole(_), Value::Text(_)) => Ordering::Less,
            (Value::Text(_), Value::Whole(_)) => Ordering::Greater,
        }
    }
}
