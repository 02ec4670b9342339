//! What each word means, in the place where it is looked for.

ghost use Rattle.std.specs.Prelude.{◌≡◌};
ghost use Rattle.ss_parse_expressions.specs.WordTables.{relation_of, function_of, phrase_of, guard_of, outcome_of, mode_of_word, rank_of, statistic_of};

use crate::tables::WordTable;
use ss_lex::Word;
use ss_tree::condition::Relation;
use ss_tree::expression::{Function, Operator, UnaryOperator};
use ss_tree::head::{GuardKind, PhraseKind};
use ss_tree::preamble::{ModeWord, StatisticKind};
use ss_tree::statement::FindOutcome;

/// The relation that the word names.
pub fn relation_of(word: Word) -> Option<Relation>
    ensures { result ≡ relation_of word }
{
    match word {
        Word::Eq | Word::Equals => Some(Relation::Equal),
        Word::Ne => Some(Relation::NotEqual),
        Word::Lt => Some(Relation::Less),
        Word::Gt => Some(Relation::Greater),
        Word::Le => Some(Relation::LessOrEqual),
        Word::Ge => Some(Relation::GreaterOrEqual),
        _ => None,
    }
}

/// The function that the word names.
pub fn function_of(word: Word) -> Option<Function>
    ensures { result ≡ function_of word }
{
    match word {
        Word::DivF => Some(Function::Two(Operator::Quotient)),
        Word::ModF => Some(Function::Two(Operator::Remainder)),
        Word::AbsF => Some(Function::One(UnaryOperator::Absolute)),
        Word::MinF => Some(Function::Two(Operator::Least)),
        Word::MaxF => Some(Function::Two(Operator::Greatest)),
        _ => None,
    }
}

/// The words that begin phrases.
pub struct PhraseWords;

impl WordTable for PhraseWords {
    type Means = PhraseKind;

    ghost table = { phrase_of };

    fn meaning_of(word: Word) -> Option<PhraseKind> {
        match word {
            Word::With | Word::When => Some(PhraseKind::With),
            Word::Unless => Some(PhraseKind::Unless),
            Word::While => Some(PhraseKind::While),
            Word::Until => Some(PhraseKind::Until),
            _ => None,
        }
    }
}

/// The words that begin conditions of loops.
pub struct GuardWords;

impl WordTable for GuardWords {
    type Means = GuardKind;

    ghost table = { guard_of };

    fn meaning_of(word: Word) -> Option<GuardKind> {
        match word {
            Word::While => Some(GuardKind::While),
            Word::Until => Some(GuardKind::Until),
            _ => None,
        }
    }
}

/// The words for the outcomes of a FIND.
pub struct OutcomeWords;

impl WordTable for OutcomeWords {
    type Means = FindOutcome;

    ghost table = { outcome_of };

    fn meaning_of(word: Word) -> Option<FindOutcome> {
        match word {
            Word::Found => Some(FindOutcome::Found),
            Word::None => Some(FindOutcome::None),
            _ => None,
        }
    }
}

/// The words for modes.
pub struct ModeWords;

impl WordTable for ModeWords {
    type Means = ModeWord;

    ghost table = { mode_of_word };

    fn meaning_of(word: Word) -> Option<ModeWord> {
        match word {
            Word::Integer => Some(ModeWord::Integer),
            Word::Alpha => Some(ModeWord::Alpha),
            Word::Real => Some(ModeWord::Real),
            _ => None,
        }
    }
}

/// The words that say whether the highest value comes first.
pub struct RankWords;

impl WordTable for RankWords {
    type Means = bool;

    ghost table = { rank_of };

    fn meaning_of(word: Word) -> Option<bool> {
        match word {
            Word::High => Some(true),
            Word::Low => Some(false),
            _ => None,
        }
    }
}

/// The words for the kinds of statistics.
pub struct StatisticWords;

impl WordTable for StatisticWords {
    type Means = StatisticKind;

    ghost table = { statistic_of };

    fn meaning_of(word: Word) -> Option<StatisticKind> {
        match word {
            Word::Number => Some(StatisticKind::Number),
            Word::Sum => Some(StatisticKind::Sum),
            Word::Maximum => Some(StatisticKind::Maximum),
            Word::Minimum => Some(StatisticKind::Minimum),
            Word::Mean => Some(StatisticKind::Mean),
            _ => None,
        }
    }
}
