// How values, ties, keys and entries compare.
ghost use Rattle.std.specs.Prelude.{◌≡◌, nat_eq};
ghost use Rattle.std.specs.Ordering.{on, eq_of_both, int_eq};
ghost use Rattle.std.specs.Cmp.{on_equiv, and_equiv, nat_eq_equiv, int_eq_equiv, partial_equiv_from_equiv};
ghost use Rattle.std.specs.Cmp.Lexicographic.{slice_cmp, pointwise, lists_equiv};
ghost use Rattle.ss_world.specs.Order.{tie_order, key_order, comes_before};
ghost use Rattle.ss_world.specs.contracts.ties.TieEq.TheImpl.Laws as tie_laws;

use super::{Entry, Key};
use ss_world::Tie;
use std::cmp::Ordering;

impl PartialEq for Key {
    ghost eq = { eq_of_both (eq_of_both (on (λ k. k.time) int_eq) (on (λ k. k.rank) nat_eq)) (on (λ k. k.ties) (pointwise ⟦<Tie as PartialEq>⟧.eq)) };

    ghost laws = { partial_equiv_from_equiv (and_equiv (and_equiv (on_equiv (λ k. k.time) int_eq_equiv) (on_equiv (λ k. k.rank) nat_eq_equiv)) (on_equiv (λ k. k.ties) (lists_equiv tie_laws.laws-law))) };

    fn eq(&self, other: &Key) -> bool {
        self.time == other.time && self.rank == other.rank && self.ties == other.ties
    }
}

impl Eq for Key {
    ghost laws = { and_equiv (and_equiv (on_equiv (λ k. k.time) int_eq_equiv) (on_equiv (λ k. k.rank) nat_eq_equiv)) (on_equiv (λ k. k.ties) (lists_equiv tie_laws.laws-law)) };
}

fn tie_order(a: &Tie, b: &Tie) -> Ordering
    ensures { result ≡ tie_order a.now b.now }
{
    match (a.high, b.high) {
        (false, false) => a.value.cmp(&b.value),
        (false, true) => Ordering::Less,
        (true, false) => Ordering::Greater,
        (true, true) => b.value.cmp(&a.value),
    }
}

// In turn, as long as they tie; a list that ends first comes first.
fn ties_order(a: &[Tie], b: &[Tie]) -> Ordering
    ensures { result ≡ slice_cmp tie_order a.now b.now }
{
    for (i, x) in a.iter().enumerate() {
        let Some(y) = b.get(i) else {
            return Ordering::Greater;
        };
        let order = tie_order(x, y);
        if order.is_ne() {
            return order;
        }
    }
    if a.len() < b.len() {
        Ordering::Less
    } else {
        Ordering::Equal
    }
}

fn key_order(a: &Key, b: &Key) -> Ordering
    ensures { result ≡ key_order a.now b.now }
{
    a.time
        .cmp(&b.time)
        .then_with(|| a.rank.cmp(&b.rank))
        .then_with(|| ties_order(&a.ties, &b.ties))
}

// Whether `a` comes out before `b`.
#[tactic(auto, unfolding(ss_world::specs::Order::comes_before))]
pub(super) fn comes_before(a: &Entry, b: &Entry) -> bool
    ensures { result ≡ comes_before a.now b.now }
{
    key_order(&a.key, &b.key)
        .then_with(|| a.number.cmp(&b.number))
        .is_lt()
}
