//! The calls of a heap, and those of its sets, each by its name.

use ss_base::{
    ClassKind, ClassLayout, Discipline, FaultKind, Layout, Mode, Owner, RankKey, RankKeys, Refused,
    SetLayout, Value,
};
use ss_records::Heap;
use ss_sets::{file, fits, is_in, remove_first, remove_last};
use std::alloc::{AllocError, Global};
use std::test::Fail;

const JOB: usize = 0;

const BELL: usize = 1;

const MACHINE: usize = 2;

const POOL: usize = 0;

// A class with attributes of these modes.
fn class(alloc: Global, kind: ClassKind, modes: &[Mode]) -> Result<ClassLayout, AllocError> {
    Ok(ClassLayout {
        kind,
        fields: Vec::from_slice(alloc, modes)?,
    })
}

// Jobs with a rank, bells, and machines, which are permanent; and a pool of the system, for jobs.
fn layout(alloc: Global) -> Result<Option<Layout>, AllocError> {
    let mut classes = Vec::new(alloc);
    classes.push(class(alloc, ClassKind::Temporary, &[Mode::Integer])?)?;
    classes.push(class(alloc, ClassKind::Notice, &[])?)?;
    classes.push(class(alloc, ClassKind::Permanent, &[])?)?;
    let pool = SetLayout {
        owner: Owner::System,
        member: JOB,
    };
    let sets = Vec::from_slice(alloc, &[pool])?;
    Ok(Layout::new(classes, sets))
}

// Whether a layout is the one of these classes and sets.
pub(crate) fn is_layout(alloc: Global, found: &Layout) -> bool {
    match layout(alloc) {
        Ok(Some(layout)) => *found == layout,
        Ok(None) | Err(_) => false,
    }
}

// A heap with nothing in it.
fn empty(alloc: Global) -> Option<Heap> {
    match layout(alloc) {
        Ok(Some(layout)) => Heap::new(alloc, layout).ok(),
        Ok(None) | Err(_) => None,
    }
}

// A new entity, where the class is there and its entities are created one by one.
fn create(heap: &mut Heap, class: usize) -> Option<i64> {
    let layout = heap.layout();
    let found = layout.classes.get(class)?;
    let kind = found.kind;
    match kind {
        ClassKind::Permanent => None,
        ClassKind::Temporary | ClassKind::Notice => heap.create(class).ok(),
    }
}

// All machines, where they are a permanent class.
fn create_all(heap: &mut Heap, n: i64) -> Option<Result<(), Refused>> {
    let layout = heap.layout();
    let found = layout.classes.get(MACHINE)?;
    let kind = found.kind;
    match kind {
        ClassKind::Permanent => Some(heap.create_all(MACHINE, n)),
        ClassKind::Temporary | ClassKind::Notice => None,
    }
}

// Destroys a job, where jobs are created one by one.
fn destroy(heap: &mut Heap, r: i64) -> Option<Result<(), FaultKind>> {
    let layout = heap.layout();
    let found = layout.classes.get(JOB)?;
    let kind = found.kind;
    match kind {
        ClassKind::Permanent => None,
        ClassKind::Temporary | ClassKind::Notice => Some(heap.destroy(JOB, r)),
    }
}

fn known(heap: &Heap, class: usize, r: i64) -> Option<Result<(), FaultKind>> {
    let layout = heap.layout();
    if class >= layout.classes.len() {
        return None;
    }
    Some(heap.known(class, r))
}

// Sets the rank of a job, where it is a number.
fn set_value(heap: &mut Heap, r: i64, value: i64) -> Option<Result<(), FaultKind>> {
    let layout = heap.layout();
    let found = layout.classes.get(JOB)?;
    let mode = *found.fields.get(0)?;
    match mode {
        Mode::Integer => Some(heap.set_value(JOB, 0, r, Value::Whole(value))),
        Mode::Alpha => None,
    }
}

// The rank of a job.
fn value(heap: &Heap, r: i64) -> Option<Result<Value, FaultKind>> {
    let layout = heap.layout();
    let found = layout.classes.get(JOB)?;
    let _mode = found.fields.get(0)?;
    Some(heap.value(JOB, 0, r))
}

// What the pool is asked for: of itself, or of one of its members.
#[derive(Clone, Copy)]
enum Ask {
    First,
    Last,
    Count,
    Next(i64),
    Previous(i64),
    RemoveFirst,
    RemoveLast,
}

fn answer_to(heap: &mut Heap, asked: Ask) -> Option<Result<i64, FaultKind>> {
    let layout = heap.layout();
    if POOL >= layout.sets.len() {
        return None;
    }
    Some(match asked {
        Ask::First => heap.first(POOL, 0),
        Ask::Last => heap.last(POOL, 0),
        Ask::Count => heap.count(POOL, 0),
        Ask::Next(x) => heap.next(POOL, x),
        Ask::Previous(x) => heap.previous(POOL, x),
        Ask::RemoveFirst => remove_first(heap, POOL, 0),
        Ask::RemoveLast => remove_last(heap, POOL, 0),
    })
}

// The owner in whose pool a job is.
fn owner_in(heap: &mut Heap, x: i64) -> Option<Result<Option<i64>, FaultKind>> {
    let layout = heap.layout();
    if POOL >= layout.sets.len() {
        return None;
    }
    Some(heap.owner_in(POOL, x))
}

// Whether a job is in the pool.
fn is_pooled(heap: &mut Heap, x: i64) -> Option<Result<bool, FaultKind>> {
    let layout = heap.layout();
    if POOL >= layout.sets.len() {
        return None;
    }
    Some(is_in(heap, POOL, 0, x))
}

// Where a job goes in the pool, or that it leaves.
#[derive(Clone, Copy)]
enum Move {
    First(i64),
    Last(i64),
    Before(i64, i64),
    After(i64, i64),
    Remove(i64),
}

fn move_job(heap: &mut Heap, how: Move) -> Option<Result<(), FaultKind>> {
    let layout = heap.layout();
    if POOL >= layout.sets.len() {
        return None;
    }
    Some(match how {
        Move::First(x) => heap.file_first(POOL, 0, x),
        Move::Last(x) => heap.file_last(POOL, 0, x),
        Move::Before(x, y) => heap.file_before(POOL, 0, x, y),
        Move::After(x, y) => heap.file_after(POOL, 0, x, y),
        Move::Remove(x) => heap.remove(POOL, 0, x),
    })
}

// Files a job in the pool, where the discipline fits it.
fn put(heap: &mut Heap, by: &Discipline, x: i64) -> Option<Result<(), FaultKind>> {
    let layout = heap.layout();
    if POOL >= layout.sets.len() || !fits(layout, POOL, by) {
        return None;
    }
    Some(file(heap, by, POOL, 0, x))
}

// Whether the number of a job that is destroyed is never used again.
fn is_never_used_again(heap: &mut Heap) -> bool {
    create(heap, JOB) == Some(1)
        && destroy(heap, 1) == Some(Ok(()))
        && create(heap, JOB) == Some(2)
        && known(heap, JOB, 2) == Some(Ok(()))
        && value(heap, 1) == Some(Err(FaultKind::DestroyedEntity))
}

// Whether a bell keeps its time, which a job has not, and a job its rank.
fn are_kept(heap: &mut Heap) -> bool {
    create(heap, BELL) == Some(3)
        && heap.known_notice(3) == Ok(())
        && heap.known_notice(2) == Err(FaultKind::WrongClass)
        && heap.set_time_a(3, 7) == Ok(())
        && heap.time_a(3) == Ok(7)
        && set_value(heap, 2, -8) == Some(Ok(()))
        && value(heap, 2) == Some(Ok(Value::Whole(-8)))
}

// Whether machines are made at once, and only once. Then there is a block for the system, the job, the bell and each machine. The
// numbers up to 3 are on one page of 256.
fn are_made_once(heap: &mut Heap) -> bool {
    let twice = Refused::Fault(FaultKind::CreatedTwice);
    known(heap, MACHINE, 2) == Some(Err(FaultKind::Index))
        && create_all(heap, 2) == Some(Ok(()))
        && known(heap, MACHINE, 2) == Some(Ok(()))
        && create_all(heap, 2) == Some(Err(twice))
        && heap.blocks() == 5
        && heap.pages() == 1
}

// Whether the entities of a new heap are as they should be.
fn are_entities(alloc: Global) -> bool {
    match empty(alloc) {
        Some(mut heap) => {
            is_never_used_again(&mut heap) && are_kept(&mut heap) && are_made_once(&mut heap)
        }
        None => false,
    }
}

#[test]
fn entities_have_numbers_times_and_values(rt: HostRuntime) {
    assert!(rt; are_entities(rt.alloc()));
}

// A heap with the jobs 1 to 4, of these ranks.
fn with_jobs(alloc: Global) -> Option<Heap> {
    let mut heap = empty(alloc)?;
    if are_ranked(&mut heap, &[2, 1, 2, 3]) {
        Some(heap)
    } else {
        None
    }
}

// Whether the next entities are jobs of these ranks.
fn are_ranked(heap: &mut Heap, ranks: &[i64]) -> bool {
    for rank in ranks {
        let Some(x) = create(heap, JOB) else {
            return false;
        };
        if set_value(heap, x, *rank) != Some(Ok(())) {
            return false;
        }
    }
    true
}

// The pool is 1, then 2 1, then 2 3 1, then 2 3 4 1, and at last 2 4 1.
static MOVES: [Move; 5] = [
    Move::Last(1),
    Move::First(2),
    Move::Before(3, 1),
    Move::After(4, 3),
    Move::Remove(3),
];

// Whether these are made in turn.
fn are_moved(heap: &mut Heap, moves: &[Move]) -> bool {
    for how in moves {
        if move_job(heap, *how) != Some(Ok(())) {
            return false;
        }
    }
    true
}

// Whether 2 4 1 are in that order, and are counted, which reads one word.
fn are_in_a_row(heap: &mut Heap) -> bool {
    answer_to(heap, Ask::First) == Some(Ok(2))
        && answer_to(heap, Ask::Next(2)) == Some(Ok(4))
        && answer_to(heap, Ask::Previous(1)) == Some(Ok(4))
        && answer_to(heap, Ask::Last) == Some(Ok(1))
        && answer_to(heap, Ask::Count) == Some(Ok(3))
        && heap.touches() == 1
}

// Whether the system owns the pool with 4 in it, and 3 is in none.
fn have_an_owner(heap: &mut Heap) -> bool {
    owner_in(heap, 4) == Some(Ok(Some(0)))
        && owner_in(heap, 3) == Some(Ok(None))
        && is_pooled(heap, 4) == Some(Ok(true))
        && is_pooled(heap, 3) == Some(Ok(false))
}

// Whether a member is filed once, and removed once.
fn are_filed_once(heap: &mut Heap) -> bool {
    move_job(heap, Move::Last(4)) == Some(Err(FaultKind::FiledTwice))
        && move_job(heap, Move::Remove(3)) == Some(Err(FaultKind::NotFiled))
        && answer_to(heap, Ask::RemoveLast) == Some(Ok(1))
        && answer_to(heap, Ask::RemoveFirst) == Some(Ok(2))
}

// Whether it is all so in a heap of its own.
fn are_members(alloc: Global) -> bool {
    match with_jobs(alloc) {
        Some(mut heap) => {
            are_moved(&mut heap, &MOVES)
                && are_in_a_row(&mut heap)
                && have_an_owner(&mut heap)
                && are_filed_once(&mut heap)
        }
        None => false,
    }
}

#[test]
fn members_are_in_a_row(rt: HostRuntime) {
    assert!(rt; are_members(rt.alloc()));
}

// Whether all four jobs are filed.
fn are_filed(heap: &mut Heap, by: &Discipline) -> bool {
    for x in 1..5 {
        if put(heap, by, x) != Some(Ok(())) {
            return false;
        }
    }
    true
}

// Whether these are the members, from the first to the last.
fn come(heap: &mut Heap, order: &[i64]) -> bool {
    for x in order {
        if answer_to(heap, Ask::RemoveFirst) != Some(Ok(*x)) {
            return false;
        }
    }
    answer_to(heap, Ask::RemoveFirst) == Some(Err(FaultKind::EmptySet))
}

// Whether the jobs of a heap of its own come in this order.
fn come_by(alloc: Global, by: &Discipline, order: &[i64]) -> bool {
    match with_jobs(alloc) {
        Some(mut heap) => are_filed(&mut heap, by) && come(&mut heap, order),
        None => false,
    }
}

#[test]
fn members_come_in_the_order_of_their_set(rt: HostRuntime) -> Result<(), Fail> {
    let rank = RankKey {
        field: 0,
        high: true,
    };
    let keys = Vec::from_array(rt.alloc(), [rank])?;
    let by = Discipline::Ranked(RankKeys::new(keys));
    assert_ne!(rt; by, Discipline::Fifo);
    assert!(rt; come_by(rt.alloc(), &by, &[4, 1, 3, 2]));
    assert!(rt; come_by(rt.alloc(), &Discipline::Fifo, &[1, 2, 3, 4]));
    assert!(rt; come_by(rt.alloc(), &Discipline::Lifo, &[4, 3, 2, 1]));
    Ok(())
}
