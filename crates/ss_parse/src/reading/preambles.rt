//! Preambles.

ghost use Rattle.std.specs.Prelude.{◌≡◌, None, map};
ghost use Rattle.ss_tree.specs.View.{view_clause, view_order, view_preamble};
ghost use Rattle.ss_parse_expressions.specs.Reading.{HasGivenReading, word, begins, expect, after_dropped, closed, apply, maybe_list, begins_more, taken, in_table};
ghost use Rattle.ss_lex.specs.declared.word.Word.TheVariants.{Entities, Variable};
ghost use Rattle.ss_parse_expressions.specs.ReadWords.{names};
ghost use Rattle.ss_parse.specs.SpelledPreambles.{group_after};
ghost use Rattle.ss_parse_expressions.specs.WordTables.{mode_of_word};
ghost use Rattle.ss_parse.specs.ReadPreambles.{then_rank, keys, statistic_kind, found, clause, begins_clause, clause_list, clauses, ranking, order, notices_at, every_at, normally_at, system_at, define_end, define_at, priority_at, break_at, statistics_at, preamble_at, begins_preamble, preamble_in, preambles, whole_preamble};

use ss_base::{Line, Name};
use ss_lex::{Symbol, Token, TokenKind, Word};
use ss_parse_expressions::classes::{WordClass, skip_class};
use ss_parse_expressions::names::{begins_more_names, items, name, names};
use ss_parse_expressions::reading::Reading;
use ss_parse_expressions::steps::{alone, beside, joined};
use ss_parse_expressions::tables::{begins_word_of, take_word_of};
use ss_parse_expressions::tokens::{
    after_first, begins_symbol, begins_word, expect_word, skip_separator, skip_word, syntax,
};
use ss_parse_expressions::words::{ModeWords, RankWords, StatisticWords};
use ss_parse_statements::statements::{begins_noisy, expect_noisy};
use ss_tree::preamble::{
    ClassKind, Clause, ModeWord, NamedKey, NamedStatistic, PreambleStatement, SetOrder,
    StatisticKind, Weighting,
};
use std::alloc::Global;

/// The end of a DEFINE of variables: a mode.
pub fn variable_mode(tokens: &[Token]) -> Reading<'_, ModeWord>
    ensures { HasGivenReading (λ x. (x.0, x.1.now)) result (closed (taken (in_table mode_of_word)) (expect (word Variable)) tokens.now) }
{
    let (mode, rest) = take_word_of::<ModeWords>(tokens)?;
    let rest = expect_word(rest, Word::Variable)?;
    Ok((mode, rest))
}

/// A clause of an EVERY.
#[tactic(auto, unfolding(crate::specs::ReadPreambles::clause))]
fn clause(alloc: Global, tokens: &[Token]) -> Reading<'_, Clause>
    ensures { HasGivenReading (λ x. (view_clause x.0, x.1.now)) result (clause tokens.now) }
{
    if begins_word(tokens, Word::Has) {
        let (names, rest) = items(alloc, skip_word(tokens, Word::Has))?;
        Ok((Clause::Has(names), rest))
    } else if begins_word(tokens, Word::Owns) {
        let (names, rest) = items(alloc, skip_word(tokens, Word::Owns))?;
        Ok((Clause::Owns(names), rest))
    } else {
        let rest = expect_word(tokens, Word::May)?;
        let rest = expect_word(rest, Word::Belong)?;
        let rest = expect_word(rest, Word::To)?;
        let (names, rest) = items(alloc, rest)?;
        Ok((Clause::BelongsTo(names), rest))
    }
}

/// THEN BY, and HIGH or LOW.
fn then_rank(tokens: &[Token]) -> Reading<'_, bool>
    ensures { HasGivenReading (λ x. (x.0, x.1.now)) result (then_rank tokens.now) }
{
    let rest = expect_noisy(tokens, Word::Then)?;
    let rest = expect_word(rest, Word::By)?;
    take_word_of::<RankWords>(rest)
}

/// Keys, the further ones after THEN BY.
#[tactic(auto, unfolding(crate::specs::ReadPreambles::key))]
fn keys(alloc: Global, tokens: &[Token]) -> Reading<'_, Vec<NamedKey>>
    ensures { HasGivenReading (λ x. (x.0.items, x.1.now)) result (keys tokens.now) }
{
    let (high, from) = take_word_of::<RankWords>(tokens)?;
    let first = name(from)?;
    let mut all = alone(alloc, NamedKey { high, name: first })?;
    let mut rest = after_first(from);
    'more: while begins_noisy(rest, Word::Then) {
        let (high, after_dropped) = then_rank(rest)?;
        let name = name(after_dropped)?;
        all.push(NamedKey { high, name })?;
        rest = after_first(after_dropped);
    }
    Ok((all, rest))
}

/// AS and the kind of a statistic.
fn statistic_kind(tokens: &[Token]) -> Reading<'_, StatisticKind>
    ensures { HasGivenReading (λ x. (x.0, x.1.now)) result (statistic_kind tokens.now) }
{
    let rest = expect_word(tokens, Word::As)?;
    take_word_of::<StatisticWords>(skip_word(rest, Word::The))
}

/// Statistics with separators between.
#[tactic(auto, unfolding(crate::specs::ReadPreambles::statistic))]
fn found(alloc: Global, tokens: &[Token]) -> Reading<'_, Vec<NamedStatistic>>
    ensures { HasGivenReading (λ x. (x.0.items, x.1.now)) result (found tokens.now) }
{
    let first = name(tokens)?;
    let (kind, mut rest) = statistic_kind(after_first(tokens))?;
    let mut all = alone(alloc, NamedStatistic { name: first, kind })?;
    'more: while begins_more_names(rest) {
        let from = skip_separator(rest);
        let name = name(from)?;
        let (kind, after) = statistic_kind(after_first(from))?;
        all.push(NamedStatistic { name, kind })?;
        rest = after;
    }
    Ok((all, rest))
}

/// Whether a clause of an EVERY is first.
fn begins_clause(tokens: &[Token]) -> bool
    ensures { result ≡ begins_clause tokens.now }
{
    match tokens {
        [] => false,
        [first, ..] => match &first.kind {
            TokenKind::Word(word) => matches!(word, Word::Has | Word::Owns | Word::May),
            _ => false,
        },
    }
}

/// Whether a separator and then a clause follow.
fn begins_more_clauses(tokens: &[Token]) -> bool
    ensures { result ≡ begins_more begins_clause tokens.now }
{
    (begins_symbol(tokens, Symbol::Comma) || begins_word(tokens, Word::And))
        && begins_clause(skip_separator(tokens))
}

/// Clauses with separators between.
fn clause_list(alloc: Global, tokens: &[Token]) -> Reading<'_, Vec<Clause>>
    ensures { HasGivenReading (λ x. (map view_clause x.0.items, x.1.now)) result (clause_list tokens.now) }
{
    let (first, mut rest) = clause(alloc, tokens)?;
    let mut all = alone(alloc, first)?;
    'more: while begins_more_clauses(rest) {
        let (longer, after) = joined(all, clause(alloc, skip_separator(rest)))?;
        all = longer;
        rest = after;
    }
    Ok((all, rest))
}

/// The clauses of an EVERY, if there are any.
fn clauses(alloc: Global, tokens: &[Token]) -> Reading<'_, Vec<Clause>>
    ensures { HasGivenReading (λ x. (map view_clause x.0.items, x.1.now)) result (clauses tokens.now) }
{
    if begins_clause(tokens) {
        clause_list(alloc, tokens)
    } else {
        Ok((Vec::new(alloc), tokens))
    }
}

/// The ranking of a set, after SET.
fn ranking(alloc: Global, tokens: &[Token]) -> Reading<'_, SetOrder>
    ensures { HasGivenReading (λ x. (view_order x.0, x.1.now)) result (ranking tokens.now) }
{
    if !begins_word(tokens, Word::Ranked) {
        return Ok((SetOrder::Fifo, tokens));
    }
    let rest = expect_word(skip_word(tokens, Word::Ranked), Word::By)?;
    let (keys, rest) = keys(alloc, rest)?;
    Ok((SetOrder::Ranked(keys), rest))
}

/// How a set is ordered.
#[tactic(auto, unfolding(crate::specs::ReadPreambles::order))]
fn order(alloc: Global, tokens: &[Token]) -> Reading<'_, SetOrder>
    ensures { HasGivenReading (λ x. (view_order x.0, x.1.now)) result (order tokens.now) }
{
    if begins_word(tokens, Word::Fifo) {
        let rest = expect_word(skip_word(tokens, Word::Fifo), Word::Set)?;
        Ok((SetOrder::Fifo, rest))
    } else if begins_word(tokens, Word::Lifo) {
        let rest = expect_word(skip_word(tokens, Word::Lifo), Word::Set)?;
        Ok((SetOrder::Lifo, rest))
    } else {
        let rest = expect_word(tokens, Word::Set)?;
        ranking(alloc, rest)
    }
}

/// The rest of PERMANENT or TEMPORARY ENTITIES, after its first word: this statement.
fn entities(group: PreambleStatement, tokens: &[Token]) -> Reading<'_, PreambleStatement>
    ensures { HasGivenReading (λ x. (view_preamble x.0, x.1.now)) result (apply (λ u. view_preamble group) (expect (word Entities)) tokens.now) }
{
    let (group, rest) = beside(group, expect_word(tokens, Word::Entities))?;
    Ok((group, rest))
}

/// The names after this word, if it is there.
pub fn names_after(alloc: Global, tokens: &[Token], wanted: Word) -> Reading<'_, Vec<Name>>
    ensures { HasGivenReading (λ x. (x.0.items, x.1.now)) result (maybe_list (begins (word wanted)) (after_dropped (expect (word wanted)) names) tokens.now) }
{
    if !begins_word(tokens, wanted) {
        return Ok((Vec::new(alloc), tokens));
    }
    names(alloc, skip_word(tokens, wanted))
}

/// The rest of EVENT NOTICES, after its first word.
#[tactic(auto, unfolding(crate::specs::ReadPreambles::notices_at))]
fn notices(alloc: Global, line: Line, tokens: &[Token]) -> Reading<'_, PreambleStatement>
    ensures { HasGivenReading (λ x. (view_preamble x.0, x.1.now)) result (notices_at line tokens.now) }
{
    let rest = expect_word(tokens, Word::Notices)?;
    let (included, rest) = names_after(alloc, rest, Word::Include)?;
    Ok((PreambleStatement::EventNotices { line, included }, rest))
}

/// The rest of EVERY, after its first word, in a group of this kind.
#[tactic(auto, unfolding(crate::specs::ReadPreambles::every_at))]
fn every(
    alloc: Global,
    group: Option<ClassKind>,
    line: Line,
    tokens: &[Token],
) -> Reading<'_, PreambleStatement>
    ensures { HasGivenReading (λ x. (view_preamble x.0, x.1.now)) result (every_at group line tokens.now) }
{
    let Some(kind) = group else {
        return Err(syntax(tokens));
    };
    let class = name(tokens)?;
    let (clauses, rest) = clauses(alloc, after_first(tokens))?;
    let statement = PreambleStatement::Every {
        line,
        kind,
        class,
        clauses,
    };
    Ok((statement, rest))
}

/// The rest of NORMALLY, after its first word.
#[tactic(auto, unfolding(crate::specs::ReadPreambles::normally_at))]
fn normally(line: Line, tokens: &[Token]) -> Reading<'_, PreambleStatement>
    ensures { HasGivenReading (λ x. (view_preamble x.0, x.1.now)) result (normally_at line tokens.now) }
{
    let rest = expect_noisy(tokens, Word::Mode)?;
    let rest = expect_word(rest, Word::Is)?;
    let (mode, rest) = take_word_of::<ModeWords>(rest)?;
    Ok((PreambleStatement::Normally { line, mode }, rest))
}

/// The rest of THE SYSTEM OWNS, after its first word.
#[tactic(auto, unfolding(crate::specs::ReadPreambles::system_at))]
fn system(alloc: Global, line: Line, tokens: &[Token]) -> Reading<'_, PreambleStatement>
    ensures { HasGivenReading (λ x. (view_preamble x.0, x.1.now)) result (system_at line tokens.now) }
{
    let rest = expect_word(tokens, Word::System)?;
    let rest = expect_word(rest, Word::Owns)?;
    let (sets, rest) = items(alloc, rest)?;
    Ok((PreambleStatement::SystemOwns { line, sets }, rest))
}

/// The end of a DEFINE: a mode, or how a set is ordered.
fn define_end(
    alloc: Global,
    line: Line,
    names: Vec<Name>,
    tokens: &[Token],
) -> Reading<'_, PreambleStatement>
    ensures { HasGivenReading (λ x. (view_preamble x.0, x.1.now)) result (define_end line names.items tokens.now) }
{
    if begins_word_of::<ModeWords>(tokens) {
        let (names, (mode, rest)) = beside(names, variable_mode(tokens))?;
        Ok((
            PreambleStatement::DefineVariables { line, names, mode },
            rest,
        ))
    } else {
        let (names, (order, rest)) = beside(names, order(alloc, tokens))?;
        Ok((PreambleStatement::DefineSets { line, names, order }, rest))
    }
}

/// The rest of DEFINE, after its first word.
#[tactic(auto, unfolding(crate::specs::ReadPreambles::define_at))]
fn define(alloc: Global, line: Line, tokens: &[Token]) -> Reading<'_, PreambleStatement>
    ensures { HasGivenReading (λ x. (view_preamble x.0, x.1.now)) result (define_at line tokens.now) }
{
    let (names, rest) = names(alloc, tokens)?;
    let (names, rest) = beside(names, expect_word(rest, Word::As))?;
    define_end(alloc, line, names, skip_class(rest, WordClass::Article))
}

/// The rest of PRIORITY ORDER, after its first word.
#[tactic(auto, unfolding(crate::specs::ReadPreambles::priority_at))]
fn priority(alloc: Global, line: Line, tokens: &[Token]) -> Reading<'_, PreambleStatement>
    ensures { HasGivenReading (λ x. (view_preamble x.0, x.1.now)) result (priority_at line tokens.now) }
{
    let rest = expect_word(tokens, Word::Order)?;
    let rest = expect_word(rest, Word::Is)?;
    let (classes, rest) = names(alloc, rest)?;
    Ok((PreambleStatement::PriorityOrder { line, classes }, rest))
}

/// The rest of BREAK, after its first word.
#[tactic(auto, unfolding(crate::specs::ReadPreambles::break_at))]
fn break_form(alloc: Global, line: Line, tokens: &[Token]) -> Reading<'_, PreambleStatement>
    ensures { HasGivenReading (λ x. (view_preamble x.0, x.1.now)) result (break_at line tokens.now) }
{
    let class = name(tokens)?;
    let rest = expect_word(after_first(tokens), Word::Ties)?;
    let rest = expect_word(rest, Word::By)?;
    let (keys, rest) = keys(alloc, rest)?;
    Ok((PreambleStatement::BreakTies { line, class, keys }, rest))
}

/// The rest of TALLY or ACCUMULATE, after its first word.
#[tactic(auto, unfolding(crate::specs::ReadPreambles::statistics_at))]
fn statistics(
    alloc: Global,
    line: Line,
    weighting: Weighting,
    tokens: &[Token],
) -> Reading<'_, PreambleStatement>
    ensures { HasGivenReading (λ x. (view_preamble x.0, x.1.now)) result (statistics_at line weighting tokens.now) }
{
    let (statistics, rest) = found(alloc, tokens)?;
    let (statistics, rest) = beside(statistics, expect_word(rest, Word::Of))?;
    let (statistics, subject) = beside(statistics, name(rest))?;
    let statement = PreambleStatement::Statistics {
        line,
        weighting,
        statistics,
        subject,
    };
    Ok((statement, after_first(rest)))
}

/// The rest of a statement of a preamble, after its first word, in a group of this kind.
#[tactic(auto, unfolding(crate::specs::ReadPreambles::preamble_at, crate::specs::ReadPreambles::permanent_at, crate::specs::ReadPreambles::temporary_at))]
fn statement_rest(
    alloc: Global,
    group: Option<ClassKind>,
    line: Line,
    word: Word,
    tokens: &[Token],
) -> Reading<'_, PreambleStatement>
    ensures { HasGivenReading (λ x. (view_preamble x.0, x.1.now)) result (preamble_at group line word tokens.now) }
{
    match word {
        Word::Permanent => entities(PreambleStatement::PermanentEntities { line }, tokens),
        Word::Temporary => entities(PreambleStatement::TemporaryEntities { line }, tokens),
        Word::Event => notices(alloc, line, tokens),
        Word::Every => every(alloc, group, line, tokens),
        Word::Normally => normally(line, tokens),
        Word::The => system(alloc, line, tokens),
        Word::Define => define(alloc, line, tokens),
        Word::Priority => priority(alloc, line, tokens),
        Word::Break => break_form(alloc, line, tokens),
        Word::Tally => statistics(alloc, line, Weighting::Tally, tokens),
        Word::Accumulate => statistics(alloc, line, Weighting::Accumulate, tokens),
        _ => Err(syntax(tokens)),
    }
}

/// Whether a statement of a preamble begins here.
fn begins_preamble(tokens: &[Token]) -> bool
    ensures { result ≡ begins_preamble tokens.now }
{
    match tokens {
        [] => false,
        [first, ..] => match &first.kind {
            TokenKind::Word(word) => matches!(
                word,
                Word::Permanent
                    | Word::Temporary
                    | Word::Event
                    | Word::Every
                    | Word::Normally
                    | Word::The
                    | Word::Define
                    | Word::Priority
                    | Word::Break
                    | Word::Tally
                    | Word::Accumulate
            ),
            _ => false,
        },
    }
}

/// A statement of a preamble, in a group of this kind.
fn preamble_statement(
    alloc: Global,
    group: Option<ClassKind>,
    tokens: &[Token],
) -> Reading<'_, PreambleStatement>
    ensures { HasGivenReading (λ x. (view_preamble x.0, x.1.now)) result (preamble_in group tokens.now) }
{
    match tokens {
        [] => Err(syntax(tokens)),
        [first, rest @ ..] => match &first.kind {
            TokenKind::Word(word) => statement_rest(alloc, group, first.line, *word, rest),
            _ => Err(syntax(tokens)),
        },
    }
}

/// The kind of the group that the next statement is in.
fn group_after(group: Option<ClassKind>, statement: &PreambleStatement) -> Option<ClassKind>
    ensures { result ≡ group_after group (view_preamble statement.now) }
{
    match statement {
        PreambleStatement::PermanentEntities { .. } => Some(ClassKind::Permanent),
        PreambleStatement::TemporaryEntities { .. } => Some(ClassKind::Temporary),
        PreambleStatement::EventNotices { .. } => Some(ClassKind::Notice),
        _ => group,
    }
}

/// The statements of a preamble.
fn preamble_statements(alloc: Global, tokens: &[Token]) -> Reading<'_, Vec<PreambleStatement>>
    ensures { HasGivenReading (λ x. (map view_preamble x.0.items, x.1.now)) result (preambles None tokens.now) }
{
    let mut all = Vec::new(alloc);
    let mut group: Option<ClassKind> = None;
    let mut rest = tokens;
    'more: while begins_preamble(rest) {
        let (next, after) = preamble_statement(alloc, group, rest)?;
        group = group_after(group, &next);
        all.push(next)?;
        rest = after;
    }
    Ok((all, rest))
}

/// A preamble, if there is one.
#[tactic(auto, unfolding(crate::specs::ReadPreambles::whole_preamble))]
pub fn preamble(alloc: Global, tokens: &[Token]) -> Reading<'_, Vec<PreambleStatement>>
    ensures { HasGivenReading (λ x. (map view_preamble x.0.items, x.1.now)) result (whole_preamble tokens.now) }
{
    if !begins_word(tokens, Word::Preamble) {
        return Ok((Vec::new(alloc), tokens));
    }
    let (statements, rest) = preamble_statements(alloc, skip_word(tokens, Word::Preamble))?;
    let (statements, rest) = beside(statements, expect_word(rest, Word::End))?;
    Ok((statements, rest))
}
