//! Words as values of a mode.

ghost use Rattle.std.specs.Prelude.{◌≡◌, Option, None, refl};
ghost use Rattle.ss_base.specs.declared.layout.Mode.{Mode as ModeSeen};
ghost use Rattle.ss_base.specs.declared.layout.Mode.TheVariants.{Integer, Alpha as AlphaMode};
ghost use Rattle.ss_base.specs.declared.value.Value.{Value as ValueSeen};
ghost use Rattle.ss_input.specs.Words.{optional_text, as_whole, word_value};

use crate::number::number_read;
use ss_base::Alpha;

/// The values of a mode.
pub(crate) trait WordValue: Copy {
    ghost mode: { ModeSeen };

    ghost values: { Option Self → Option ValueSeen };

    ghost none: { values None ≡ None };

    /// What a word is in this mode, if it is a value of it.
    fn of_word(word: &[u8]) -> Option<Self>
        ensures { word_value mode word.now ≡ values result };
}

impl WordValue for i64 {
    ghost mode = { Integer };

    ghost values = { as_whole };

    ghost none = { refl };

    fn of_word(word: &[u8]) -> Option<i64> {
        number_read(word)
    }
}

impl WordValue for Alpha {
    ghost mode = { AlphaMode };

    ghost values = { optional_text };

    ghost none = { refl };

    fn of_word(word: &[u8]) -> Option<Alpha> {
        Alpha::of(word)
    }
}
