//! The words of the command line, and the orders that they give.

use simscript_order::Order;
use std::alloc::Global;

static ORDERS: [(&[&str], Order<'static>); 8] = [
    (&["simscript"], Order::Plain),
    (&["simscript", "check", "m"], Order::Check("m")),
    (&["simscript", "list", "m"], Order::List("m")),
    (&["simscript", "run", "m"], Order::Run("m", None, 1_000_000)),
    (
        &["simscript", "run", "m", "--input", "d", "--ticks", "7"],
        Order::Run("m", Some("d"), 7),
    ),
    (
        &["simscript", "run", "--ticks=9", "--input=d", "m"],
        Order::Run("m", Some("d"), 9),
    ),
    (
        &["simscript", "run", "m", "--ticks", "0"],
        Order::Run("m", None, 0),
    ),
    (
        &["simscript", "run", "m", "--ticks", "18446744073709551615"],
        Order::Run("m", None, u64::MAX),
    ),
];

// Whether words give these orders.
fn are_orders(alloc: Global, rows: &[(&[&str], Order<'_>)]) -> bool {
    for (words, order) in rows {
        if Order::of(alloc, *words).ok() != Some(*order) {
            return false;
        }
    }
    true
}

#[test]
fn words_give_orders(rt: HostRuntime) {
    assert!(rt; are_orders(rt.alloc(), &ORDERS));
}

static REFUSED: [(&[&str], u8); 11] = [
    (&["simscript", "check"], 2),
    (&["simscript", "list"], 2),
    (&["simscript", "run"], 2),
    (&["simscript", "check", "m", "n"], 2),
    (&["simscript", "m"], 2),
    (
        &["simscript", "run", "m", "--ticks", "18446744073709551616"],
        2,
    ),
    (&["simscript", "run", "m", "--ticks", "-1"], 2),
    (&["simscript", "run", "m", "--ticks", "many"], 2),
    (&["simscript", "check", "m", "--ticks", "1"], 2),
    (&["simscript", "--help"], 0),
    (&["simscript", "run", "--help"], 0),
];

// Whether words are refused with these statuses.
fn are_refused(alloc: Global, rows: &[(&[&str], u8)]) -> bool {
    for (words, status) in rows {
        if Order::of(alloc, *words).err().map(|misuse| misuse.status()) != Some(*status) {
            return false;
        }
    }
    true
}

#[test]
fn other_words_are_refused(rt: HostRuntime) {
    assert!(rt; are_refused(rt.alloc(), &REFUSED));
}
