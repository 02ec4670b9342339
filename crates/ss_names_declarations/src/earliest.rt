//! The first breach of a rule.

ghost use Rattle.std.specs.Prelude.{◌≡◌, ℕ};
ghost use Rattle.ss_names_declarations.specs.Earliest.{EarliestIsFirst, EarliestIsLeast, EarliestOfParts, precedes, earlier, earlier_of};

/// A breach of a rule in a line.
pub trait Breach: Copy {
    ghost order: { Self → ℕ × ℕ };

    /// The number of the rule in the order of the rules, and then the line.
    fn order_of(&self) -> (u32, u32)
        ensures { result ≡ order self.now };
}

// Whether a place comes before another: by the rule, and then by the line.
fn comes_before(a: (u32, u32), b: (u32, u32)) -> bool
    ensures { result ≡ precedes a b }
{
    a.0 < b.0 || (a.0 == b.0 && a.1 < b.1)
}

/// What was found so far or, if it comes before that, one more.
pub fn earlier<E: Breach>(found: Option<E>, breach: E) -> Option<E>
    ensures { result ≡ earlier E.order found breach }
{
    match found {
        None => Some(breach),
        Some(first) => {
            if comes_before(breach.order_of(), first.order_of()) {
                Some(breach)
            } else {
                Some(first)
            }
        }
    }
}

/// The earlier of two, where there are any.
pub fn earlier_of<E: Breach>(found: Option<E>, breach: Option<E>) -> Option<E>
    ensures { result ≡ earlier_of E.order found breach }
{
    match breach {
        None => found,
        Some(breach) => earlier(found, breach),
    }
}

/// What is proved of the earliest of any breaches. None comes before it. If the breaches of its rule come in the order of
/// the text, it is the first of them. Of two lists it is the earlier of that of each.
pub fn laws_of_earliest<E: Breach>()
    ensures least { EarliestIsLeast E.order }
    ensures first { EarliestIsFirst E.order }
    ensures parts { EarliestOfParts E.order }
{}
