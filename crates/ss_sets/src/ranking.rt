// Filing by discipline.
ghost use Rattle.std.specs.Prelude.{◌≡◌, ◌+◌, ◌<◌, ◌≤◌, ◌∷◌, not, length, pos, slice_get, IsOk, MatchResult, Ok, Err, Some};
ghost use Rattle.std.specs.Ordering.{match_ordering, int_cmp, nat_cmp};
ghost use Rattle.std.specs.Cmp.Lexicographic.{slice_cmp};
ghost use Rattle.ss_base.specs.Order.{value_cmp};
ghost use Rattle.ss_records.specs.Passing.{first_where, before_where};
ghost use Rattle.ss_world.specs.State.{modes_of};
ghost use Rattle.ss_world.specs.Sets.{owner, member_class, next_in};
ghost use Rattle.ss_world.specs.Disciplines.{value_of, ranks_after, members_passed, passed_by, owned, filed_ranked, filed, AreFields, HasMemberKeys};
ghost use Rattle.ss_sets.specs.Walks.{is_after, IsRankIn};

use ss_base::{Alpha, Discipline, FaultKind, Mode, RankKey, Value};
use ss_records::Heap;
use std::cmp::Ordering;

// How an entity x ranks by the key that counts most: its class, the key, the value of x by it, and whether all values by it are
// whole numbers.
#[derive(Clone, Copy)]
struct Rank {
    class: usize,
    key: RankKey,
    x: i64,
    own: Value,
    whole: bool,
}

// What a look at a member finds: whether it ranks strictly after x, and the member that follows it, 0 where there is none.
#[derive(Clone, Copy)]
struct Seen {
    after: bool,
    next: i64,
}

/// Files x in the set of an owner: last for FIFO, first for LIFO, and for RANKED directly before the first member
/// that ranks strictly after it by the values that they have now, last where there is none. Values that change later
/// move nothing. Faults: those of x (1 to 5), then those of the owner, then 6 where x is in some set of this name;
/// after a fault the heap is as it was.
pub fn file(
    heap: &mut Heap,
    discipline: &Discipline,
    set: usize,
    o: i64,
    x: i64,
) -> Result<(), FaultKind>
    requires set { set < length heap.old.state.layout.sets }
    requires keys { HasMemberKeys heap.old.state.layout set discipline.now }
    ensures done { MatchResult result (λ _. filed heap.old.state discipline.now set o x ≡ Ok heap.new.state) (λ e. (filed heap.old.state discipline.now set o x ≡ Err e) × (heap.new.state ≡ heap.old.state)) }
    ensures touches { (heap.old.total ≤ heap.new.total) × (heap.new.total ≤ heap.old.total + 16 + passed_by heap.old.state discipline.now set o x) }
    ensures least { IsOk result → heap.old.total + 4 ≤ heap.new.total }
{
    match discipline {
        Discipline::Fifo => heap.file_last(set, o, x),
        Discipline::Lifo => heap.file_first(set, o, x),
        Discipline::Ranked(keys) => file_ranked(heap, keys.as_slice(), set, o, x),
    }
}

// Files x by its ranks.
fn file_ranked(
    heap: &mut Heap,
    keys: &[RankKey],
    set: usize,
    o: i64,
    x: i64,
) -> Result<(), FaultKind>
    requires set { set < length heap.old.state.layout.sets }
    requires keys { AreFields heap.old.state.layout (member_class heap.old.state.layout set) keys.now }
    ensures done { MatchResult result (λ _. filed_ranked heap.old.state keys.now set o x ≡ Ok heap.new.state) (λ e. (filed_ranked heap.old.state keys.now set o x ≡ Err e) × (heap.new.state ≡ heap.old.state)) }
    ensures touches { (heap.old.total ≤ heap.new.total) × (heap.new.total ≤ heap.old.total + 16 + members_passed heap.old.state (member_class heap.old.state.layout set) keys.now x (owned heap.old.state set o)) }
    ensures least { IsOk result → heap.old.total + 4 ≤ heap.new.total }
{
    heap.sets_are_apart();
    match heap.look_member(set, x) {
        Ok(_) => match first_after(heap, keys, set, o, x) {
            Ok(0) => heap.file_last(set, o, x),
            Ok(y) => heap.file_before(set, o, x, y),
            Err(fault) => Err(fault),
        },
        Err(fault) => Err(fault),
    }
}

// The first member that ranks strictly after x, 0 where there is none: a touch for each member that x passes. Faults: those of
// the owner.
fn first_after(
    heap: &mut Heap,
    keys: &[RankKey],
    set: usize,
    o: i64,
    x: i64,
) -> Result<i64, FaultKind>
    requires set { set < length heap.old.state.layout.sets }
    requires keys { AreFields heap.old.state.layout (member_class heap.old.state.layout set) keys.now }
    ensures found { MatchResult result (λ y. IsOk (owner heap.old.state set o) × (y ≡ pos (first_where (is_after heap.old.state (member_class heap.old.state.layout set) keys.now x) (owned heap.old.state set o)))) (λ e. owner heap.old.state set o ≡ Err e) }
    ensures same { heap.new.state ≡ heap.old.state }
    ensures touches { (heap.old.total ≤ heap.new.total) × (heap.new.total ≤ heap.old.total + 2 + before_where (is_after heap.old.state (member_class heap.old.state.layout set) keys.now x) (owned heap.old.state set o)) }
{
    match keys.split_first() {
        Some((key, others)) => first_after_by(heap, *key, others, set, o, x),
        None => match heap.look_owner(set, o) {
            Ok(_) => Ok(0),
            Err(fault) => Err(fault),
        },
    }
}

// The first member that ranks after x, by a key that counts most and the others. Of whole numbers it reads no more than that.
fn first_after_by(
    heap: &mut Heap,
    key: RankKey,
    others: &[RankKey],
    set: usize,
    o: i64,
    x: i64,
) -> Result<i64, FaultKind>
    requires set { set < length heap.old.state.layout.sets }
    requires keys { AreFields heap.old.state.layout (member_class heap.old.state.layout set) (key ∷ others.now) }
    ensures found { MatchResult result (λ y. IsOk (owner heap.old.state set o) × (y ≡ pos (first_where (is_after heap.old.state (member_class heap.old.state.layout set) (key ∷ others.now) x) (owned heap.old.state set o)))) (λ e. owner heap.old.state set o ≡ Err e) }
    ensures same { heap.new.state ≡ heap.old.state }
    ensures touches { (heap.old.total ≤ heap.new.total) × (heap.new.total ≤ heap.old.total + 2 + before_where (is_after heap.old.state (member_class heap.old.state.layout set) (key ∷ others.now) x) (owned heap.old.state set o)) }
{
    let class = class_of(heap, set);
    match mode(heap, class, key.field) {
        Mode::Integer => {
            let own = whole(heap, class, key.field, x);
            match others {
                [] => heap.first_past(set, o, key.field, own, key.high),
                _ => {
                    let own = Value::Whole(own);
                    let rank = Rank {
                        class,
                        key,
                        x,
                        own,
                        whole: true,
                    };
                    walk(heap, &rank, others, set, o)
                }
            }
        }
        Mode::Alpha => {
            let own = value(heap, class, key.field, x);
            let rank = Rank {
                class,
                key,
                x,
                own,
                whole: false,
            };
            walk(heap, &rank, others, set, o)
        }
    }
}

// The first member that ranks after x, by a walk from member to member.
#[inline(always)]
fn walk(
    heap: &mut Heap,
    rank: &Rank,
    others: &[RankKey],
    set: usize,
    o: i64,
) -> Result<i64, FaultKind>
    requires rank { IsRankIn heap.old.state set rank.now others.now }
    ensures found { MatchResult result (λ y. IsOk (owner heap.old.state set o) × (y ≡ pos (first_where (is_after heap.old.state (member_class heap.old.state.layout set) (rank.now.key ∷ others.now) rank.now.x) (owned heap.old.state set o)))) (λ e. owner heap.old.state set o ≡ Err e) }
    ensures same { heap.new.state ≡ heap.old.state }
    ensures touches { (heap.old.total ≤ heap.new.total) × (heap.new.total ≤ heap.old.total + 2 + before_where (is_after heap.old.state (member_class heap.old.state.layout set) (rank.now.key ∷ others.now) rank.now.x) (owned heap.old.state set o)) }
{
    heap.sets_are_apart();
    let mut y = match heap.first(set, o) {
        Ok(first) => first,
        Err(fault) => return Err(fault),
    };
    while y != 0 {
        let it = match look(heap, rank, others, set, y) {
            Ok(it) => it,
            Err(fault) => return Err(fault),
        };
        if it.after {
            return Ok(y);
        }
        y = it.next;
    }
    Ok(0)
}

// Looks at a member: its value is read together with the next one.
#[inline(always)]
fn look(
    heap: &mut Heap,
    rank: &Rank,
    others: &[RankKey],
    set: usize,
    y: i64,
) -> Result<Seen, FaultKind>
    requires rank { IsRankIn heap.old.state set rank.now others.now }
    ensures found { MatchResult result (λ it. (it.after ≡ ranks_after heap.old.state (member_class heap.old.state.layout set) (rank.now.key ∷ others.now) y rank.now.x) × (next_in heap.old.state set y ≡ Ok it.next)) (λ e. next_in heap.old.state set y ≡ Err e) }
    ensures same { heap.new.state ≡ heap.old.state }
    ensures touches { MatchResult result (λ _. heap.new.total ≡ heap.old.total + 1) (λ _. heap.old.total ≤ heap.new.total) }
{
    let field = rank.key.field;
    if rank.whole {
        match heap.whole_member(set, field, y) {
            Ok(its) => {
                let value = Value::Whole(its.value);
                Ok(looked(heap, rank, others, y, &value, its.next))
            }
            Err(fault) => Err(fault),
        }
    } else {
        match heap.member(set, field, y) {
            Ok(its) => Ok(looked(heap, rank, others, y, &its.value, its.next)),
            Err(fault) => Err(fault),
        }
    }
}

// What a look at a member finds, by its value.
#[inline(always)]
fn looked(heap: &Heap, rank: &Rank, others: &[RankKey], y: i64, value: &Value, next: i64) -> Seen
    requires keys { AreFields heap.now.state.layout rank.now.class others.now }
    ensures next { result.next ≡ next }
    ensures after { result.after ≡ match_ordering (value_cmp value.now rank.now.own) rank.now.key.high (ranks_after heap.now.state rank.now.class others.now y rank.now.x) (not rank.now.key.high) }
{
    let order = order_of(value, &rank.own);
    let after = ranks_after_by(heap, order, rank, others, y);
    Seen { after, next }
}

// The class of the members of a set.
fn class_of(heap: &Heap, set: usize) -> usize
    requires set { set < length heap.now.state.layout.sets }
    ensures { result ≡ member_class heap.now.state.layout set }
{
    let layout = heap.layout();
    layout.sets[set].member
}

// The order of two values. That of two whole numbers is in line.
#[inline(always)]
fn order_of(first: &Value, second: &Value) -> Ordering
    ensures { result ≡ value_cmp first.now second.now }
{
    match (first, second) {
        (Value::Whole(x), Value::Whole(y)) => order_of_numbers(*x, *y),
        (Value::Text(s), Value::Text(t)) => order_of_texts(*s, *t),
        (Value::Whole(_), Value::Text(_)) => Ordering::Less,
        (Value::Text(_), Value::Whole(_)) => Ordering::Greater,
    }
}

// The order of two whole numbers.
#[inline(always)]
fn order_of_numbers(x: i64, y: i64) -> Ordering
    ensures { result ≡ int_cmp x y }
{
    if x < y {
        Ordering::Less
    } else if y < x {
        Ordering::Greater
    } else {
        Ordering::Equal
    }
}

// The order of two texts.
#[inline(never)]
fn order_of_texts(s: Alpha, t: Alpha) -> Ordering
    ensures { result ≡ slice_cmp nat_cmp s t }
{
    s.cmp(&t)
}

// Whether y ranks strictly after x: by the order of the two in a key, high or low, and where they tie in it by the first
// of the others in which they differ.
#[inline(always)]
fn ranks_after_by(heap: &Heap, order: Ordering, rank: &Rank, others: &[RankKey], y: i64) -> bool
    requires keys { AreFields heap.now.state.layout rank.now.class others.now }
    ensures { result ≡ match_ordering order rank.now.key.high (ranks_after heap.now.state rank.now.class others.now y rank.now.x) (not rank.now.key.high) }
{
    match order {
        Ordering::Less => rank.key.high,
        Ordering::Greater => !rank.key.high,
        Ordering::Equal => match others {
            [] => false,
            _ => ranks_after(heap, others, rank.class, y, rank.x),
        },
    }
}

// Whether y ranks strictly after x: by the first key in which they differ.
#[inline(never)]
fn ranks_after(heap: &Heap, keys: &[RankKey], class: usize, y: i64, x: i64) -> bool
    requires keys { AreFields heap.now.state.layout class keys.now }
    ensures { result ≡ ranks_after heap.now.state class keys.now y x }
{
    for key in keys {
        let first = value(heap, class, key.field, y);
        let second = value(heap, class, key.field, x);
        match first.cmp(&second) {
            Ordering::Less => return key.high,
            Ordering::Greater => return !key.high,
            Ordering::Equal => {}
        }
    }
    false
}

// The value of an attribute of whole numbers of an entity, 0 where there is none.
fn whole(heap: &Heap, class: usize, field: usize, x: i64) -> i64
    requires mode { slice_get (modes_of heap.now.state.layout class) field ≡ Some Mode.Integer }
    ensures { value_of heap.now.state class field x ≡ Value.Whole result }
{
    match heap.whole(class, field, x) {
        Ok(n) => n,
        Err(_) => 0,
    }
}

// The mode of an attribute.
fn mode(heap: &Heap, class: usize, field: usize) -> Mode
    requires field { field < length (modes_of heap.now.state.layout class) }
    ensures { slice_get (modes_of heap.now.state.layout class) field ≡ Some result }
{
    let layout = heap.layout();
    layout.classes[class].fields[field]
}

// The value of an attribute of an entity, 0 where there is none.
fn value(heap: &Heap, class: usize, field: usize, x: i64) -> Value
    requires field { field < length (modes_of heap.now.state.layout class) }
    ensures { result ≡ value_of heap.now.state class field x }
{
    match heap.value(class, field, x) {
        Ok(value) => value,
        Err(_) => Value::Whole(0),
    }
}
