//! Programs and their parts.

use crate::statement::{CountedClass, Statement};
pub use ss_base::Weighting;
use ss_base::{Discipline, Layout, Line, Mode, RankKeys};

/// What a statistic is of.
#[derive(Clone, Copy, Debug, PartialEq, Eq)]
pub enum Subject {
    /// A global variable.
    OfVariable { number: usize },
    /// An attribute of the entities of a class.
    OfAttribute { class: usize, field: usize },
    /// N. of the sets of a name.
    OfCount { set: usize },
}

/// A statistic: what it is of, and how it weighs values.
#[derive(Clone, Copy, Debug, PartialEq, Eq)]
pub struct Statistic {
    pub subject: Subject,
    pub weighting: Weighting,
}

/// A routine. Its local variables are numbered in this order: those that it is given, those that it
/// yields, and the others.
#[derive(Drop)]
pub struct Routine {
    pub given: Vec<Mode>,
    pub yielding: Vec<Mode>,
    pub others: Vec<Mode>,
    pub body: Vec<Statement>,
}

/// A notice class and its event routine. The local variables of the routine are numbered in this order: those
/// that it is given, which take the first attributes of the notice, and the others.
#[derive(Drop)]
pub struct Event {
    pub class: usize,
    /// The attributes that break ties between notices of the class at one time, the first of which counts most.
    pub ties: RankKeys,
    /// The line of the event routine.
    pub line: Line,
    pub given: Vec<Mode>,
    pub others: Vec<Mode>,
    /// The global variable that gets the number of the notice where it is saved. Else the notice is destroyed as
    /// the routine begins.
    pub saved: Option<usize>,
    pub body: Vec<Statement>,
}

/// A program.
#[derive(Drop)]
pub struct Program {
    /// Its classes and sets.
    pub layout: Layout,
    /// The discipline of each set.
    pub disciplines: Vec<Discipline>,
    /// The mode of each global variable.
    pub globals: Vec<Mode>,
    /// N. of each permanent class.
    pub counts: Vec<CountedClass>,
    pub statistics: Vec<Statistic>,
    pub routines: Vec<Routine>,
    /// The notice classes, in the order in which they come at one time.
    pub events: Vec<Event>,
    /// The mode of each local variable of MAIN.
    pub locals: Vec<Mode>,
    /// The statements of MAIN.
    pub main: Vec<Statement>,
}
