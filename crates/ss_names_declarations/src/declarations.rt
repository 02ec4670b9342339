//! The list of what a program declares.

ghost use Rattle.std.specs.Prelude.{◌≡◌, [], ◌∷◌, ◌++◌, map, OnOk, IfOk};
ghost use Rattle.std.specs.List.{flat_map};
ghost use Rattle.ss_tree.specs.View.{view_clause, view_order, view_preamble, view_definition, view_kind, view_section, view_program_tree};
ghost use Rattle.ss_tree.specs.Names.{NameBytes};
ghost use Rattle.ss_tree.specs.declared.preamble.NamedKey.{NamedKey as KeySeen};
ghost use Rattle.ss_tree.specs.declared.preamble.NamedStatistic.{NamedStatistic as StatisticSeen};
ghost use Rattle.ss_names_declarations.specs.declared.declaration.Declared.TheVariants as d;
ghost use Rattle.ss_names_declarations.specs.Declarations.{at_line, declared_as, parameter_declaration, in_clause, rule_of, in_set_order, in_preamble_statement, in_section_head, in_definition, in_section, flat_map_from, declarations};

use crate::declaration::{Declaration, Declared, SetRule};
use ss_base::{Line, Name};
use ss_tree::preamble::{
    ClassKind, Clause, ModeWord, NamedKey, NamedStatistic, PreambleStatement, SetOrder,
};
use ss_tree::program::{LocalDefinition, Program, Section, SectionKind};
use std::alloc::{AllocError, Global};

// Adds one declaration.
fn add(out: &mut Vec<Declaration>, line: Line, what: Declared) -> Result<(), AllocError>
    ensures { OnOk result (out.new.items ≡ out.old.items ++ at_line line what ∷ []) }
{
    // The checker needs to see the type of the class that may own a set.
    let _none: Option<Name> = None;
    out.push(Declaration { line, what })?;
    Ok(())
}

// What the names of a list are declared as.
#[derive(Clone, Copy)]
enum Listed {
    /// Attributes of a class.
    Attribute(Name),
    /// Sets of a class or, without one, of THE SYSTEM.
    Owner(Option<Name>),
    /// Sets that the entities of a class may belong to.
    Member(Name),
    /// Classes of notices.
    Notice,
    Variable(ModeWord),
    /// Sets with this rule, by the statement of this number.
    Order(SetRule, usize),
    /// Classes in the priority order.
    Priority,
    /// Parameters of the section of this number.
    Parameter(usize),
    /// Local variables of the section of this number.
    Local(usize, ModeWord),
}

// What a name of a list is declared as.
fn declared_as(listed: &Listed, name: Name) -> Declared
    ensures { result ≡ declared_as listed.now name }
{
    match listed {
        Listed::Attribute(class) => Declared::Attribute {
            attribute: name,
            class: *class,
        },
        Listed::Owner(class) => Declared::Owner {
            set: name,
            class: *class,
        },
        Listed::Member(class) => Declared::Member {
            set: name,
            class: *class,
        },
        Listed::Notice => Declared::Class {
            class: name,
            kind: ClassKind::Notice,
        },
        Listed::Variable(mode) => Declared::Variable {
            variable: name,
            mode: *mode,
        },
        Listed::Order(rule, statement) => Declared::Order {
            set: name,
            rule: *rule,
            statement: *statement,
        },
        Listed::Priority => Declared::Priority { class: name },
        Listed::Parameter(section) => Declared::Parameter {
            parameter: name,
            section: *section,
        },
        Listed::Local(section, mode) => Declared::Local {
            variable: name,
            section: *section,
            mode: *mode,
        },
    }
}

// Adds what the names of a list are declared as.
fn add_names(
    out: &mut Vec<Declaration>,
    line: Line,
    listed: &Listed,
    names: &[Name],
) -> Result<(), AllocError>
    ensures { OnOk result (out.new.items ≡ out.old.items ++ map (λ (name : NameBytes). at_line line (declared_as listed.now name)) names.now) }
{
    for name in names {
        add(out, line, declared_as(listed, *name))?;
    }
    Ok(())
}

// Adds what a clause of an EVERY declares, of its class.
fn add_clause(
    out: &mut Vec<Declaration>,
    line: Line,
    class: Name,
    clause: &Clause,
) -> Result<(), AllocError>
    ensures { OnOk result (out.new.items ≡ out.old.items ++ in_clause line class (view_clause clause.now)) }
{
    match clause {
        Clause::Has(names) => add_names(out, line, &Listed::Attribute(class), names),
        Clause::Owns(names) => add_names(out, line, &Listed::Owner(Some(class)), names),
        Clause::BelongsTo(names) => add_names(out, line, &Listed::Member(class), names),
    }
}

// Adds what the clauses of an EVERY declare, of its class.
fn add_clauses(
    out: &mut Vec<Declaration>,
    line: Line,
    class: Name,
    clauses: &[Clause],
) -> Result<(), AllocError>
    ensures { OnOk result (out.new.items ≡ out.old.items ++ flat_map (in_clause line class) (map view_clause clauses.now)) }
{
    for clause in clauses {
        add_clause(out, line, class, clause)?;
    }
    Ok(())
}

// How a DEFINE orders its sets.
fn rule_of(order: &SetOrder) -> SetRule
    ensures { result ≡ rule_of (view_order order.now) }
{
    match order {
        SetOrder::Fifo => SetRule::Fifo,
        SetOrder::Lifo => SetRule::Lifo,
        SetOrder::Ranked(_) => SetRule::Ranked,
    }
}

// Adds the keys of the statement of this number.
fn add_rank_keys(
    out: &mut Vec<Declaration>,
    line: Line,
    statement: usize,
    keys: &[NamedKey],
) -> Result<(), AllocError>
    ensures { OnOk result (out.new.items ≡ out.old.items ++ map (λ (key : KeySeen). at_line line (d.RankKey key.name key.high statement)) keys.now) }
{
    for key in keys {
        let rank_key = Declared::RankKey {
            attribute: key.name,
            high: key.high,
            statement,
        };
        add(out, line, rank_key)?;
    }
    Ok(())
}

// Adds the keys by which the statement of this number ranks its sets, if it does.
fn add_order(
    out: &mut Vec<Declaration>,
    line: Line,
    statement: usize,
    order: &SetOrder,
) -> Result<(), AllocError>
    ensures { OnOk result (out.new.items ≡ out.old.items ++ in_set_order line statement (view_order order.now)) }
{
    match order {
        SetOrder::Fifo => Ok(()),
        SetOrder::Lifo => Ok(()),
        SetOrder::Ranked(keys) => add_rank_keys(out, line, statement, keys),
    }
}

// Adds the sets that the statement of this number orders, and its keys.
fn add_sets(
    out: &mut Vec<Declaration>,
    line: Line,
    statement: usize,
    names: &[Name],
    order: &SetOrder,
) -> Result<(), AllocError>
    ensures { OnOk result (out.new.items ≡ out.old.items ++ (map (λ (set : NameBytes). at_line line (d.Order set (rule_of (view_order order.now)) statement)) names.now ++ in_set_order line statement (view_order order.now))) }
{
    let rule = rule_of(order);
    add_names(out, line, &Listed::Order(rule, statement), names)?;
    add_order(out, line, statement, order)
}

// Adds the keys for the ties of a class.
fn add_tie_keys(
    out: &mut Vec<Declaration>,
    line: Line,
    class: Name,
    keys: &[NamedKey],
) -> Result<(), AllocError>
    ensures { OnOk result (out.new.items ≡ out.old.items ++ map (λ (key : KeySeen). at_line line (d.TieKey class key.name key.high)) keys.now) }
{
    for key in keys {
        let tie_key = Declared::TieKey {
            class,
            attribute: key.name,
            high: key.high,
        };
        add(out, line, tie_key)?;
    }
    Ok(())
}

// Adds the statistics of a subject.
fn add_statistics(
    out: &mut Vec<Declaration>,
    line: Line,
    subject: Name,
    statistics: &[NamedStatistic],
) -> Result<(), AllocError>
    ensures { OnOk result (out.new.items ≡ out.old.items ++ map (λ (s : StatisticSeen). at_line line (d.Statistic s.name s.kind subject)) statistics.now) }
{
    for statistic in statistics {
        let what = Declared::Statistic {
            statistic: statistic.name,
            kind: statistic.kind,
            subject,
        };
        add(out, line, what)?;
    }
    Ok(())
}

// Adds what the statement of this number in the preamble declares.
fn add_statement(
    out: &mut Vec<Declaration>,
    number: usize,
    statement: &PreambleStatement,
) -> Result<(), AllocError>
    ensures { OnOk result (out.new.items ≡ out.old.items ++ in_preamble_statement number (view_preamble statement.now)) }
{
    match statement {
        PreambleStatement::PermanentEntities { .. } => Ok(()),
        PreambleStatement::TemporaryEntities { .. } => Ok(()),
        PreambleStatement::EventNotices { line, included } => {
            add_names(out, *line, &Listed::Notice, included)
        }
        PreambleStatement::Every {
            line,
            kind,
            class,
            clauses,
        } => {
            let every = Declared::Class {
                class: *class,
                kind: *kind,
            };
            add(out, *line, every)?;
            add_clauses(out, *line, *class, clauses)
        }
        PreambleStatement::Normally { line, mode } => {
            add(out, *line, Declared::Normally { mode: *mode })
        }
        PreambleStatement::SystemOwns { line, sets } => {
            add_names(out, *line, &Listed::Owner(None), sets)
        }
        PreambleStatement::DefineVariables { line, names, mode } => {
            add_names(out, *line, &Listed::Variable(*mode), names)
        }
        PreambleStatement::DefineSets { line, names, order } => {
            add_sets(out, *line, number, names, order)
        }
        PreambleStatement::PriorityOrder { line, classes } => {
            add(out, *line, Declared::PriorityOrder)?;
            add_names(out, *line, &Listed::Priority, classes)
        }
        PreambleStatement::BreakTies { line, class, keys } => {
            add(out, *line, Declared::Ties { class: *class })?;
            add_tie_keys(out, *line, *class, keys)
        }
        PreambleStatement::Statistics {
            line,
            weighting,
            statistics,
            subject,
        } => {
            add_statistics(out, *line, *subject, statistics)?;
            let what = Declared::Subject {
                subject: *subject,
                weighting: *weighting,
            };
            add(out, *line, what)
        }
    }
}

// Adds what a preamble declares.
#[tactic(auto, using(crate::proofs::Rows::one_more, std::proofs::lemmas::Grind::common_steps))]
fn add_preamble(
    out: &mut Vec<Declaration>,
    preamble: &[PreambleStatement],
) -> Result<(), AllocError>
    ensures { OnOk result (out.new.items ≡ out.old.items ++ flat_map_from in_preamble_statement 0 (map view_preamble preamble.now)) }
{
    for (number, statement) in preamble.iter().enumerate() {
        add_statement(out, number, statement)?;
    }
    Ok(())
}

// Adds the parameters of the section of this number.
fn add_parameters(
    out: &mut Vec<Declaration>,
    line: Line,
    section: usize,
    names: &[Name],
) -> Result<(), AllocError>
    ensures { OnOk result (out.new.items ≡ out.old.items ++ map (parameter_declaration line section) names.now) }
{
    add_names(out, line, &Listed::Parameter(section), names)
}

// Adds what the head of the section of this number declares.
fn add_head(
    out: &mut Vec<Declaration>,
    line: Line,
    section: usize,
    kind: &SectionKind,
) -> Result<(), AllocError>
    ensures { OnOk result (out.new.items ≡ out.old.items ++ in_section_head line section (view_kind kind.now)) }
{
    match kind {
        SectionKind::Main => add(out, line, Declared::Main),
        SectionKind::Routine {
            name,
            given,
            yielding,
        } => {
            let routine = Declared::Routine {
                routine: *name,
                section,
                given: given.len(),
                yielding: yielding.len(),
            };
            add(out, line, routine)?;
            add_parameters(out, line, section, given)?;
            add_parameters(out, line, section, yielding)
        }
        SectionKind::Event {
            name,
            given,
            saving,
        } => {
            let event = Declared::Event {
                class: *name,
                section,
                given: given.len(),
                saving: *saving,
            };
            add(out, line, event)?;
            add_parameters(out, line, section, given)
        }
    }
}

// Adds what the DEFINEs at the head of the section of this number declare.
fn add_definitions(
    out: &mut Vec<Declaration>,
    section: usize,
    definitions: &[LocalDefinition],
) -> Result<(), AllocError>
    ensures { OnOk result (out.new.items ≡ out.old.items ++ flat_map (in_definition section) (map view_definition definitions.now)) }
{
    for definition in definitions {
        let listed = Listed::Local(section, definition.mode);
        add_names(out, definition.line, &listed, &definition.names)?;
    }
    Ok(())
}

// Adds what the section of this number declares.
fn add_section(
    out: &mut Vec<Declaration>,
    number: usize,
    section: &Section,
) -> Result<(), AllocError>
    ensures { OnOk result (out.new.items ≡ out.old.items ++ in_section number (view_section section.now)) }
{
    add_head(out, section.line, number, &section.kind)?;
    add_definitions(out, number, &section.definitions)
}

// Adds what the sections of a program declare.
#[tactic(auto, using(crate::proofs::Rows::one_more, std::proofs::lemmas::Grind::common_steps))]
fn add_sections(out: &mut Vec<Declaration>, sections: &[Section]) -> Result<(), AllocError>
    ensures { OnOk result (out.new.items ≡ out.old.items ++ flat_map_from in_section 0 (map view_section sections.now)) }
{
    for (number, section) in sections.iter().enumerate() {
        add_section(out, number, section)?;
    }
    Ok(())
}

/// What a program declares, in the order of the text. Nothing is left out that its preamble or the head of a section
/// declares.
///
/// # Errors
/// `AllocError` where memory is refused.
pub fn declarations_of(alloc: Global, program: &Program) -> Result<Vec<Declaration>, AllocError>
    ensures { IfOk result (λ out. out.items ≡ declarations (view_program_tree program.now)) }
{
    let mut out = Vec::new(alloc);
    add_preamble(&mut out, &program.preamble)?;
    add_sections(&mut out, &program.sections)?;
    Ok(out)
}
