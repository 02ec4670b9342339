//! What the preamble says, as the generator asks it.

ghost use Rattle.std.specs.Prelude.{◌≡◌, slice_get};
ghost use Rattle.ss_program.specs.declared.sections.Subject.TheVariants.{OfVariable, OfAttribute, OfCount};
ghost use Rattle.ss_program.specs.View.{view_expression, view_program};
ghost use Rattle.ss_program.specs.WellTyped.{field_mode};
ghost use Rattle.ss_meaning.specs.Histories.{same_subject};
ghost use Rattle.ss_code_instructions.specs.Facts.{watch};
ghost use Rattle.ss_code_instructions.specs.Translation.{or_integer, expression_mode as mode_of_expression, filing_by};
ghost use Rattle.ss_code_pieces.specs.Preamble.{mode_in, scope_for_modes, filing_of};

use ss_base::{Discipline, Mode};
use ss_program::expression::{Expression, Variable};
use ss_program::sections::{Program, Statistic, Subject};

// Whether two subjects are one.
fn is_same(first: Subject, second: Subject) -> bool
    ensures { result ≡ same_subject first second }
{
    match first {
        Subject::OfVariable { number } => match second {
            Subject::OfVariable { number: other } => number == other,
            Subject::OfAttribute { .. } => false,
            Subject::OfCount { .. } => false,
        },
        Subject::OfAttribute { class, field } => match second {
            Subject::OfVariable { .. } => false,
            Subject::OfAttribute {
                class: other_class,
                field: other_field,
            } => class == other_class && field == other_field,
            Subject::OfCount { .. } => false,
        },
        Subject::OfCount { set } => match second {
            Subject::OfVariable { .. } => false,
            Subject::OfAttribute { .. } => false,
            Subject::OfCount { set: other } => set == other,
        },
    }
}

// Whether one of these statistics is kept of a subject.
fn is_watched(statistics: &[Statistic], subject: Subject) -> bool
    ensures { result ≡ watch statistics.now subject }
{
    let mut watched = false;
    for statistic in statistics {
        watched = watched || is_same(statistic.subject, subject);
    }
    watched
}

/// Whether a statistic is kept of a global variable.
pub fn is_variable_watched(program: &Program, number: usize) -> bool
    ensures { result ≡ watch program.now.statistics.items (OfVariable number) }
{
    is_watched(&program.statistics, Subject::OfVariable { number })
}

/// Whether a statistic is kept of an attribute.
pub fn is_attribute_watched(program: &Program, class: usize, field: usize) -> bool
    ensures { result ≡ watch program.now.statistics.items (OfAttribute class field) }
{
    is_watched(&program.statistics, Subject::OfAttribute { class, field })
}

/// Whether a statistic is kept of N. of a set.
pub fn is_count_watched(program: &Program, set: usize) -> bool
    ensures { result ≡ watch program.now.statistics.items (OfCount set) }
{
    is_watched(&program.statistics, Subject::OfCount { set })
}

/// The mode of an attribute.
pub fn attribute_mode(program: &Program, class: usize, field: usize) -> Mode
    ensures { result ≡ or_integer (field_mode (view_program program.now) class field) }
{
    match program.layout.classes.get(class) {
        None => Mode::Integer,
        Some(found) => match found.fields.get(field) {
            None => Mode::Integer,
            Some(mode) => *mode,
        },
    }
}

/// The mode of a variable, where these are the local ones.
pub fn variable_mode(program: &Program, locals: &[Mode], variable: Variable) -> Mode
    ensures { result ≡ or_integer (mode_in program.now.globals.items locals.now variable) }
{
    let found = match variable {
        Variable::Global { number } => program.globals.get(number),
        Variable::Local { number } => locals.get(number),
    };
    match found {
        None => Mode::Integer,
        Some(mode) => *mode,
    }
}

/// The mode of an expression, where these are the local variables.
#[tactic(auto, unfolding(ss_program::specs::View::view_expression))]
pub fn expression_mode(program: &Program, locals: &[Mode], e: &Expression) -> Mode
    ensures { result ≡ mode_of_expression (scope_for_modes program.now locals.now) (view_expression e.now) }
{
    match e {
        Expression::Constant { value } => value.mode(),
        Expression::Fetch { variable } => variable_mode(program, locals, *variable),
        Expression::Attribute { class, field, .. } => attribute_mode(program, *class, *field),
        Expression::Calculate { first, further } => {
            if further.is_empty() {
                expression_mode(program, locals, first)
            } else {
                Mode::Integer
            }
        }
        Expression::OfSystemSet { .. }
        | Expression::OfSet { .. }
        | Expression::OfMember { .. }
        | Expression::Clock
        | Expression::TimeOf { .. }
        | Expression::Figure { .. }
        | Expression::FigureOf { .. }
        | Expression::Signed { .. }
        | Expression::Unary { .. } => Mode::Integer,
    }
}

/// Where the discipline of a set puts a member.
#[derive(Clone, Copy, Debug, PartialEq, Eq)]
pub enum Ordering {
    First,
    Last,
    Ranked,
}

/// Where the discipline of a set puts a member.
pub fn ordering_of(program: &Program, set: usize) -> Ordering
    ensures { filing_of result ≡ filing_by (slice_get program.now.disciplines.items set) }
{
    match program.disciplines.get(set) {
        None => Ordering::Ranked,
        Some(Discipline::Fifo) => Ordering::Last,
        Some(Discipline::Lifo) => Ordering::First,
        Some(Discipline::Ranked(_)) => Ordering::Ranked,
    }
}
