//! A text that is spelled in two ways, and the one tree that it has.
//!
//! Each part of the tree is looked at, so that no other tree is taken for it.

use ss_base::Line;
use ss_lex::tokens;
use ss_parse::{Program, parse};
use ss_tree::expression::Expression;
use ss_tree::head::{Head, LoopHead};
use ss_tree::program::{Section, SectionKind};
use ss_tree::release::release_tree;
use ss_tree::statement::Statement;
use std::alloc::Global;

// Whether it is this number.
fn is_number(tree: &Expression, wanted: i64) -> bool {
    match tree {
        Expression::Number(number) => *number == wanted,
        _ => false,
    }
}

// Whether it is FOR I = 1 TO 3, without a step and without phrases.
fn is_range(head: &LoopHead) -> bool {
    let LoopHead::For(head) = head else {
        return false;
    };
    match head {
        Head::Range {
            variable,
            from,
            to,
            step,
            phrases,
        } => {
            variable.bytes() == b"I".as_slice()
                && is_number(from, 1)
                && is_number(to, 3)
                && step.is_none()
                && phrases.is_empty()
        }
        _ => false,
    }
}

// Whether a STOP on line 2 is all of it.
fn is_stop(body: &[Statement]) -> bool {
    match body {
        [Statement::Stop { line: Line(2) }] => true,
        _ => false,
    }
}

// Whether it is a loop on line 2 with that head and that body.
fn is_loop(statement: &Statement) -> bool {
    let Statement::Loop {
        line: Line(2),
        head,
        body,
    } = statement
    else {
        return false;
    };
    is_range(head) && is_stop(body)
}

// Whether it is a MAIN on line 1 of which that loop is all.
fn is_main(section: &Section) -> bool {
    let [statement] = section.body.as_slice() else {
        return false;
    };
    section.line == Line(1)
        && matches!(&section.kind, SectionKind::Main)
        && section.definitions.is_empty()
        && is_loop(statement)
}

// Whether that MAIN is all of it.
fn is_tree(program: &Program) -> bool {
    match program.sections.as_slice() {
        [section] => program.preamble.is_empty() && is_main(section),
        _ => false,
    }
}

// Whether a text has that tree.
fn has_tree(alloc: Global, text: &[u8]) -> bool {
    let Ok(tokens) = tokens(alloc, text) else {
        return false;
    };
    match parse(alloc, &tokens) {
        Ok(program) => {
            let is_tree = is_tree(&program);
            release_tree(program);
            is_tree
        }
        Err(_) => false,
    }
}

// The second has commas as noise, and REPEAT for LOOP. The third has another number.
#[test]
fn two_spellings_of_a_loop(rt: HostRuntime) {
    assert!(rt; has_tree(rt.alloc(), b"MAIN\nFOR I = 1 TO 3 DO STOP LOOP\nEND"));
    assert!(rt; has_tree(rt.alloc(), b"MAIN\nFOR I = 1 TO 3, DO , STOP , REPEAT\nEND"));
    assert!(rt; !has_tree(rt.alloc(), b"MAIN\nFOR I = 1 TO 4 DO STOP LOOP\nEND"));
}
