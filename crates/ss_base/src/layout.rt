ghost use Rattle.std.specs.Prelude.{◌≡◌, IfOk, IsTrue, length};
ghost use Rattle.std.specs.List.{list_all};
ghost use Rattle.ss_base.specs.Layout.{first_value, is_layout, is_narrow, is_sound, layout_of, names_classes};

use crate::alpha::Alpha;
use crate::value::Value;
use std::alloc::{AllocError, Global};
use std::marker::Model;

/// What a field, a variable or a value is: a whole number or a text.
#[derive(Clone, Copy, Debug, PartialEq, Eq)]
pub enum Mode {
    Integer,
    Alpha,
}

impl Mode {
    /// What a variable or a field of the mode holds at first: zero, or the empty text.
    pub fn first_value(&self) -> Value
        ensures { result ≡ first_value self.now }
    {
        match self {
            Mode::Integer => Value::Whole(0),
            Mode::Alpha => Value::Text(Alpha::empty()),
        }
    }
}

/// How the entities of a class are created and destroyed.
#[derive(Clone, Copy, Debug, PartialEq, Eq)]
pub enum ClassKind {
    /// Made once, all together, and known by their index.
    Permanent,
    /// Made and destroyed one by one, and known by their creation number.
    Temporary,
    /// As a temporary entity, and it may be scheduled.
    Notice,
}

/// A class: its kind, and the mode of each of its fields, which are numbered from 0.
///
/// A contract sees it as plain data: two classes with the same contents are equal.
#[derive(Clone, Debug, Drop)]
pub struct ClassLayout {
    pub kind: ClassKind,
    pub fields: Vec<Mode>,
}

impl Model for ClassLayout {
    ghost use Rattle.ss_base.specs.Plain.{PlainClass};

    ghost Value = { PlainClass };

    ghost view = { λ c. record { kind = c.kind; fields = c.fields.items } };
}

impl ClassLayout {
    // Whether it has no more attributes than a class may have.
    fn is_narrow(&self) -> bool
        ensures { result ≡ is_narrow self.now }
    {
        self.fields.len() <= LAYOUT_LIMIT
    }
}

/// Who owns the sets of a name.
#[derive(Clone, Copy, Debug, PartialEq, Eq)]
pub enum Owner {
    /// THE SYSTEM, which owns one set of the name.
    System,
    /// Each entity of the class of this number.
    Class(usize),
}

/// The sets of one name: who owns them, and the class of their members.
#[derive(Clone, Copy, Debug, PartialEq, Eq)]
pub struct SetLayout {
    pub owner: Owner,
    pub member: usize,
}

/// The most classes, the most sets, and the most attributes of a class.
const LAYOUT_LIMIT: usize = 1048576;

/// The classes and the sets of a model. Both are numbered from 0. The classes that its sets name are among its own, and
/// there are at most 1,048,576 classes, sets, and attributes of a class.
///
/// A contract sees it as plain data: two layouts with the same contents are equal.
#[derive(Clone, Debug, Drop)]
pub struct Layout {
    pub classes: Vec<ClassLayout>,
    pub sets: Vec<SetLayout>,
}

impl Model for Layout {
    ghost use Rattle.ss_base.specs.Plain.{PlainLayout};
    ghost use Rattle.std.specs.Prelude.{IsTrue};
    ghost use Rattle.ss_base.specs.Layout.{is_layout};

    ghost Value = { PlainLayout };

    ghost view = { λ l. record { classes = l.classes.items; sets = l.sets.items } };

    ghost invariant = { λ l. IsTrue (is_layout (record { classes = l.classes.items; sets = l.sets.items })) };
}

impl Layout {
    /// The layout of these classes and sets. None where a set names a class that is not among them. Also none for more
    /// than 1,048,576 classes, sets, or attributes of a class.
    pub fn new(classes: Vec<ClassLayout>, sets: Vec<SetLayout>) -> Option<Layout>
        ensures { result ≡ layout_of classes.items sets.items }
    {
        if fit_together(&classes, &sets) {
            Some(Layout { classes, sets })
        } else {
            None
        }
    }

    /// What holds of every layout.
    pub fn law(&self)
        ensures { IsTrue (is_layout self.now) }
    {
        let _ = &self.classes;
    }
}

// Whether these sets name classes among these.
fn is_sound(classes: &[ClassLayout], sets: &[SetLayout]) -> bool
    ensures { result ≡ is_sound (record { classes = classes.now; sets = sets.now }) }
{
    let count = classes.len();
    sets.iter().all(|set| set.names_classes(count))
}

// Whether none of these classes has too many attributes.
fn are_narrow(classes: &[ClassLayout]) -> bool
    ensures { result ≡ list_all is_narrow classes.now }
{
    classes.iter().all(ClassLayout::is_narrow)
}

// Whether these are the classes and sets of a layout.
fn fit_together(classes: &[ClassLayout], sets: &[SetLayout]) -> bool
    ensures { result ≡ is_layout (record { classes = classes.now; sets = sets.now }) }
{
    is_sound(classes, sets)
        && classes.len() <= LAYOUT_LIMIT
        && sets.len() <= LAYOUT_LIMIT
        && are_narrow(classes)
}

impl SetLayout {
    /// Whether its owner and its member are among so many classes.
    pub fn names_classes(&self, classes: usize) -> bool
        ensures { result ≡ names_classes classes self.now }
    {
        let owned = match self.owner {
            Owner::System => true,
            Owner::Class(class) => class < classes,
        };
        owned && self.member < classes
    }
}

/// What a ranked set compares in its members: a field, and whether a high value comes first.
#[derive(Clone, Copy, Debug, PartialEq, Eq)]
pub struct RankKey {
    pub field: usize,
    pub high: bool,
}

/// What a ranked set ranks its members by: the first key counts most.
///
/// A contract sees it as the list of its keys.
#[derive(Clone, Debug, Drop)]
pub struct RankKeys {
    keys: Vec<RankKey>,
}

impl Model for RankKeys {
    ghost use Rattle.std.specs.Prelude.{List};
    ghost use Rattle.ss_base.specs.declared.layout.RankKey.{RankKey as Key};

    ghost Value = { List Key };

    ghost view = { λ r. r.keys.items };
}

impl RankKeys {
    /// These keys, the first of which counts most.
    pub fn new(keys: Vec<RankKey>) -> RankKeys
        ensures { result ≡ keys.items }
    {
        RankKeys { keys }
    }

    /// The keys, from the one that counts most.
    pub fn as_slice(&self) -> &[RankKey]
        ensures { result.now ≡ self.now }
    {
        &self.keys
    }
}

/// Where FILE puts a member.
///
/// A contract sees it as plain data: two disciplines with the same contents are equal.
#[derive(Clone, Debug, PartialEq, Eq, Drop)]
pub enum Discipline {
    /// Last.
    Fifo,
    /// First.
    Lifo,
    /// Before the first member that ranks after it by these keys.
    Ranked(RankKeys),
}
