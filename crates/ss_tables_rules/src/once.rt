//! What may be said once.

ghost use Rattle.std.specs.Prelude.{◌≡◌, Some, None, is_some, if◌then◌else◌, IfOk, OnOk};
ghost use Rattle.std.specs.List.{fold};
ghost use Rattle.ss_names_declarations.specs.Earliest.{earlier};
ghost use Rattle.ss_names_declarations.specs.NameTable.{is_one_of, value_for};
ghost use Rattle.ss_tables_rules.specs.declared.once.Once.TheVariants as o;
ghost use Rattle.ss_tables_rules.specs.Once.{again, if_class, once_added, once_of, repeats, repeated_breach};
ghost use Rattle.ss_tables_rules.specs.Order.{table_error_order};

use crate::error::TableError;
use ss_base::{Line, Name};
use ss_names::Names;
use ss_names_declarations::{Declaration, Declared, Keys, Seed, earlier_of, has_entry};
use std::alloc::{AllocError, Global};

/// What may be said once.
#[derive(Clone, Copy, PartialEq, Eq, Hash)]
pub enum Once {
    Normally,
    PriorityOrder,
    Main,
    /// The owner of a set.
    Owner { set: Name },
    /// The class of the members of a set.
    Member { set: Name },
    /// The DEFINE of a set.
    Order { set: Name },
    /// The mode of an attribute.
    Mode { attribute: Name },
    /// The place of a class in the priority order.
    Priority { class: Name },
    /// The BREAK of a class.
    Ties { class: Name },
    /// The EVENT section of a class.
    Event { class: Name },
    /// The TALLY or ACCUMULATE of a subject.
    Subject { subject: Name },
    Parameter { name: Name, section: usize },
    /// The DEFINE of a local variable.
    Local { name: Name, section: usize },
}

// What may be said once, where the name is that of a class.
fn if_class(names: &Names, class: &Name, once: Once) -> Option<Once>
    ensures { result ≡ if_class names.now class.now once }
{
    has_entry(&names.classes, class).then_some(once)
}

// The DEFINE of a set, where the name is that of a set.
fn if_set(names: &Names, set: &Name) -> Option<Once>
    ensures { result ≡ (if is_one_of names.now.set_names set.now then Some (o.Order set.now) else None) }
{
    names
        .set_names
        .contains(set)
        .then_some(Once::Order { set: *set })
}

// The mode of an attribute, where the name is that of an attribute.
fn if_attribute(names: &Names, attribute: &Name) -> Option<Once>
    ensures { result ≡ (if is_some (value_for names.now.attributes attribute.now) then Some (o.Mode attribute.now) else None) }
{
    has_entry(&names.attributes, attribute).then_some(Once::Mode {
        attribute: *attribute,
    })
}

/// What a declaration says that may be said once. A DEFINE of no set, and a priority, BREAK or EVENT of no class, are refused
/// by other rules.
pub fn once_of(names: &Names, what: &Declared) -> Option<Once>
    ensures { result ≡ once_of names.now what.now }
{
    match what {
        Declared::Normally { .. } => Some(Once::Normally),
        Declared::PriorityOrder => Some(Once::PriorityOrder),
        Declared::Main => Some(Once::Main),
        Declared::Owner { set, .. } => Some(Once::Owner { set: *set }),
        Declared::Member { set, .. } => Some(Once::Member { set: *set }),
        Declared::Order { set, .. } => if_set(names, set),
        Declared::Variable { variable, .. } => if_attribute(names, variable),
        Declared::Priority { class } => if_class(names, class, Once::Priority { class: *class }),
        Declared::Ties { class } => if_class(names, class, Once::Ties { class: *class }),
        Declared::Event { class, .. } => if_class(names, class, Once::Event { class: *class }),
        Declared::Subject { subject, .. } => Some(Once::Subject { subject: *subject }),
        Declared::Parameter { parameter, section } => Some(Once::Parameter {
            name: *parameter,
            section: *section,
        }),
        Declared::Local {
            variable,
            section,
            ..
        } => Some(Once::Local {
            name: *variable,
            section: *section,
        }),
        _ => None,
    }
}

// The breach of saying it again.
fn repeated_breach(line: Line, what: &Declared) -> TableError
    ensures { result ≡ repeated_breach line what.now }
{
    match what {
        Declared::Subject { .. } => TableError::TallyTwice(line),
        _ => TableError::Twice(line),
    }
}

// The breach of a declaration that says this, after what was said.
#[tactic(auto, using(crate::proofs::Repeats::among))]
fn again(said: &Keys<Once>, once: &Option<Once>, declaration: &Declaration) -> Option<TableError>
    ensures { result ≡ again said.now declaration.now.line declaration.now.what once.now }
{
    match once {
        Some(once) => {
            if said.contains(once) {
                Some(repeated_breach(declaration.line, &declaration.what))
            } else {
                None
            }
        }
        None => None,
    }
}

// Notes what is said.
#[tactic(auto, using(crate::proofs::Repeats::among))]
fn note(said: &mut Keys<Once>, once: Option<Once>) -> Result<(), AllocError>
    ensures { OnOk result (said.new ≡ once_added said.old once) }
{
    match once {
        Some(once) => said.insert_new(once),
        None => Ok(()),
    }
}

/// What was found so far, or the first breach of saying again what may be said once.
///
/// # Errors
/// `AllocError` where memory is refused.
pub fn repeated(
    alloc: Global,
    seed: Seed,
    names: &Names,
    declarations: &[Declaration],
    found: Option<TableError>,
) -> Result<Option<TableError>, AllocError>
    ensures { IfOk result (λ b. b ≡ fold (earlier table_error_order) found (repeats names.now declarations.now)) }
{
    let mut said = Keys::new(alloc, seed);
    let mut found = found;
    for declaration in declarations {
        let once = once_of(names, &declaration.what);
        found = earlier_of(found, again(&said, &once, declaration));
        note(&mut said, once)?;
    }
    Ok(found)
}
