//! Why a value is not noted.

/// Why a value is not noted.
#[derive(Clone, Copy)]
pub enum Unnoted {
    /// A history takes no further value: the fault 14.
    Full,
    /// There is no history, or the value is a text. This never comes of a well-typed program.
    TypeError,
}
