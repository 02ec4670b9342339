//! What every room uses: lines, texts, names, values, faults, arithmetic, layouts, and readers and writers.
#![tactic(auto)]

mod alpha;
mod arithmetic;
mod counted;
mod equality;
mod fault;
mod faulty;
mod layout;
mod line;
mod memory;
mod name;
mod picture_line;
mod plan;
mod spelling;
mod value;
mod words;

pub use alpha::{Alpha, TEXT_LIMIT};
pub use arithmetic::{div_f, minus, mod_f, plus, times};
pub use counted::Counted;
pub use fault::{FaultKind, Refused};
pub use faulty::{Faulty, FaultyRead, FaultyWrite};
pub use layout::{
    ClassKind, ClassLayout, Discipline, Layout, Mode, Owner, RankKey, RankKeys, SetLayout,
};
pub use line::Line;
pub use memory::{MemoryRead, MemoryWrite, WriteFailure};
pub use name::{NAME_LIMIT, Name};
pub use picture_line::PictureLine;
pub use plan::Plan;
pub use spelling::{SPELLING_LIMIT, Spelling};
pub use value::Value;
pub use words::{End, GuardKind, Operator, PhraseKind, Relation, Sign, UnaryOperator, Weighting};
