//! Long sets, many numbers, pages that are given back, and refused memory.

use ss_base::{
    ClassKind, ClassLayout, Discipline, FaultKind, Layout, Mode, Owner, SetLayout, Value,
};
use ss_records::{Command, CommandAnswer, Heap};
use ss_sets::{file, fits};
use std::alloc::{AllocError, Global};

const JOB: usize = 0;

const TOOL: usize = 1;

const MACHINE: usize = 2;

const POOL: usize = 0;

const RACK: usize = 1;

const QUEUE: usize = 2;

// Jobs with a rank, tools, and machines with a load, which are permanent.
static CLASSES: [(ClassKind, &[Mode]); 3] = [
    (ClassKind::Temporary, &[Mode::Integer]),
    (ClassKind::Temporary, &[]),
    (ClassKind::Permanent, &[Mode::Integer]),
];

// A job may be in the pool of the system, in the rack of a tool, and in the queue of a machine.
static SETS: [SetLayout; 3] = [
    SetLayout {
        owner: Owner::System,
        member: JOB,
    },
    SetLayout {
        owner: Owner::Class(TOOL),
        member: JOB,
    },
    SetLayout {
        owner: Owner::Class(MACHINE),
        member: JOB,
    },
];

fn classes(alloc: Global) -> Result<Vec<ClassLayout>, AllocError> {
    let mut classes = Vec::new(alloc);
    for (kind, modes) in &CLASSES {
        let class = ClassLayout {
            kind: *kind,
            fields: Vec::from_slice(alloc, modes)?,
        };
        classes.push(class)?;
    }
    Ok(classes)
}

fn layout(alloc: Global) -> Result<Option<Layout>, AllocError> {
    let sets = Vec::from_slice(alloc, &SETS)?;
    let classes = classes(alloc)?;
    Ok(Layout::new(classes, sets))
}

// A heap of these classes and sets.
fn yard(alloc: Global) -> Option<Heap> {
    match layout(alloc) {
        Ok(Some(layout)) => Heap::new(alloc, layout).ok(),
        Ok(None) | Err(_) => None,
    }
}

// Whether calls fit a heap and answer this.
fn answer(alloc: Global, heap: &mut Heap, commands: &[Command], wanted: &[CommandAnswer]) -> bool {
    if !ss_records::fit(heap, commands) {
        return false;
    }
    match ss_records::run(heap, alloc, commands) {
        Ok(answers) => answers.as_slice() == wanted,
        Err(_) => false,
    }
}

// Whether a new entity of a class has this number.
fn is_created(alloc: Global, heap: &mut Heap, class: usize, x: i64) -> bool {
    answer(
        alloc,
        heap,
        &[Command::Create { class }],
        &[CommandAnswer::Number(x)],
    )
}

// Whether a call that gives no number goes well.
fn is_done(alloc: Global, heap: &mut Heap, command: Command) -> bool {
    answer(alloc, heap, &[command], &[CommandAnswer::Done])
}

// The call that destroys a job.
fn destroyed(r: i64) -> Command {
    Command::Destroy { class: JOB, r }
}

// The call that files a job last in a set.
fn filed(set: usize, owner: i64, member: i64) -> Command {
    Command::FileLast { set, owner, member }
}

// The call that removes a job from the pool.
fn removed(member: i64) -> Command {
    Command::Remove {
        set: POOL,
        owner: 0,
        member,
    }
}

// The first attribute of an entity.
fn value(heap: &Heap, class: usize, r: i64) -> Option<Result<Value, FaultKind>> {
    let layout = heap.layout();
    let found = layout.classes.get(class)?;
    let _mode = found.fields.get(0)?;
    Some(heap.value(class, 0, r))
}

// The first member of a set, or the one after x.
fn member_after(heap: &mut Heap, set: usize, owner: i64, x: Option<i64>) -> Option<i64> {
    let layout = heap.layout();
    if set >= layout.sets.len() {
        return None;
    }
    match x {
        None => heap.first(set, owner).ok(),
        Some(x) => heap.next(set, x).ok(),
    }
}

// Whether a set has these members, from the first to the last.
fn has_members(heap: &mut Heap, set: usize, owner: i64, wanted: &[i64]) -> bool {
    let mut at = member_after(heap, set, owner, None);
    for x in wanted {
        if at != Some(*x) {
            return false;
        }
        at = member_after(heap, set, owner, at);
    }
    at == Some(0)
}

// Whether new jobs up to a number are filed last in the pool.
fn are_pooled(alloc: Global, heap: &mut Heap, to: i64) -> bool {
    for x in 1..to {
        let commands = [Command::Create { class: JOB }, filed(POOL, 0, x)];
        let wanted = [CommandAnswer::Number(x), CommandAnswer::Done];
        if !answer(alloc, heap, &commands, &wanted) {
            return false;
        }
    }
    true
}

// Whether a job in the middle of ten thousand is removed in few touches, and those beside it are neighbours then.
fn is_removed_at_once(alloc: Global, heap: &mut Heap) -> bool {
    are_pooled(alloc, heap, 10_001)
        && is_done(alloc, heap, removed(5000))
        && heap.touches() <= 12
        && member_after(heap, POOL, 0, Some(4999)) == Some(5001)
        && heap.blocks() == 10_001
}

// Whether two hundred thousand records with links between them are there, more than calls may nest.
fn are_linked(alloc: Global, heap: &mut Heap) -> bool {
    are_pooled(alloc, heap, 200_001) && heap.blocks() == 200_001
}

// Whether new jobs are filed in three sets each.
fn are_filed(alloc: Global, heap: &mut Heap, jobs: &[i64], tool: i64, machine: i64) -> bool {
    for x in jobs {
        if !is_created(alloc, heap, JOB, *x)
            || !is_done(alloc, heap, filed(POOL, 0, *x))
            || !is_done(alloc, heap, filed(RACK, tool, *x))
            || !is_done(alloc, heap, filed(QUEUE, machine, *x))
        {
            return false;
        }
    }
    true
}

// Whether jobs are in three sets at once, and one that leaves the pool stays in the others.
fn are_in_three_sets(alloc: Global, heap: &mut Heap) -> bool {
    is_done(
        alloc,
        heap,
        Command::CreateAll {
            class: MACHINE,
            n: 2,
        },
    ) && is_created(alloc, heap, TOOL, 1)
        && are_filed(alloc, heap, &[2, 3, 4], 1, 2)
        && is_done(alloc, heap, removed(3))
        && has_members(heap, POOL, 0, &[2, 4])
        && has_members(heap, RACK, 1, &[2, 3, 4])
        && has_members(heap, QUEUE, 2, &[2, 3, 4])
}

// Whether a thousand jobs are created and destroyed, one after another, within a page.
fn come_and_go(alloc: Global, heap: &mut Heap) -> bool {
    for x in 1..1001 {
        if !is_created(alloc, heap, JOB, x)
            || !is_done(alloc, heap, destroyed(x))
            || heap.pages() > 1
        {
            return false;
        }
    }
    heap.blocks() == 1 && value(heap, JOB, 1) == Some(Err(FaultKind::DestroyedEntity))
}

// Whether jobs up to a number are created.
fn are_created(alloc: Global, heap: &mut Heap, to: i64) -> bool {
    for x in 1..to {
        if !is_created(alloc, heap, JOB, x) {
            return false;
        }
    }
    true
}

// Whether jobs up to a number are destroyed, but for one.
fn go_but_one(alloc: Global, heap: &mut Heap, to: i64, kept: i64) -> bool {
    for x in 1..to {
        if x != kept && !is_done(alloc, heap, destroyed(x)) {
            return false;
        }
    }
    true
}

// Whether the pages of six hundred jobs are given back, but for that of the one that is left and that of the next number.
fn are_given_back(alloc: Global, heap: &mut Heap) -> bool {
    are_created(alloc, heap, 601)
        && heap.pages() == 3
        && go_but_one(alloc, heap, 601, 300)
        && heap.pages() <= 2
        && value(heap, JOB, 299) == Some(Err(FaultKind::DestroyedEntity))
        && value(heap, JOB, 300) == Some(Ok(Value::Whole(0)))
}

// Files a job in the pool in the order of coming.
fn come_last(heap: &mut Heap, x: i64) -> Option<Result<(), FaultKind>> {
    let layout = heap.layout();
    if POOL >= layout.sets.len() || !fits(layout, POOL, &Discipline::Fifo) {
        return None;
    }
    Some(file(heap, &Discipline::Fifo, POOL, 0, x))
}

// Whether a thousand jobs are filed in that order, each in 4 to 16 touches.
fn are_queued(alloc: Global, heap: &mut Heap) -> bool {
    for x in 1..1001 {
        if !is_created(alloc, heap, JOB, x) || come_last(heap, x) != Some(Ok(())) {
            return false;
        }
        let touches = heap.touches();
        if touches < 4 || touches > 16 {
            return false;
        }
    }
    true
}

// Whether a new job has this number, where memory may be refused: then nothing has changed, and the next try succeeds.
fn is_created_in_spite(alloc: Global, heap: &mut Heap, x: i64) -> bool {
    let (blocks, pages) = (heap.blocks(), heap.pages());
    is_created(alloc, heap, JOB, x)
        || value(heap, JOB, x) == Some(Err(FaultKind::NeverCreated))
            && (heap.blocks(), heap.pages()) == (blocks, pages)
            && is_created(alloc, heap, JOB, x)
}

// Whether a call goes well, where memory may be refused: then the next try does.
fn is_done_in_spite(alloc: Global, heap: &mut Heap, command: &Command) -> bool {
    is_done(alloc, heap, *command) || is_done(alloc, heap, *command)
}

// Whether six hundred jobs are created and filed in spite of refusals, and then five machines.
fn come_in_spite(alloc: Global, heap: &mut Heap) -> bool {
    for x in 1..601 {
        if !is_created_in_spite(alloc, heap, x)
            || !is_done_in_spite(alloc, heap, &filed(POOL, 0, x))
        {
            return false;
        }
    }
    is_done_in_spite(
        alloc,
        heap,
        &Command::CreateAll {
            class: MACHINE,
            n: 5,
        },
    ) && value(heap, MACHINE, 5) == Some(Ok(Value::Whole(0)))
        && heap.blocks() == 606
}

// What is looked at.
#[derive(Clone, Copy)]
enum Look {
    RemovedAtOnce,
    Linked,
    InThreeSets,
    ComeAndGo,
    GivenBack,
    Queued,
    InSpite,
}

// Whether it is as it should be.
fn is_right(alloc: Global, heap: &mut Heap, look: Look) -> bool {
    match look {
        Look::RemovedAtOnce => is_removed_at_once(alloc, heap),
        Look::Linked => are_linked(alloc, heap),
        Look::InThreeSets => are_in_three_sets(alloc, heap),
        Look::ComeAndGo => come_and_go(alloc, heap),
        Look::GivenBack => are_given_back(alloc, heap),
        Look::Queued => are_queued(alloc, heap),
        Look::InSpite => come_in_spite(alloc, heap),
    }
}

// Whether it is in a heap of its own, where memory may be refused for that: then the next try succeeds.
fn looks_right(alloc: Global, look: Look) -> bool {
    let heap = match yard(alloc) {
        Some(heap) => Some(heap),
        None => yard(alloc),
    };
    match heap {
        Some(mut heap) => is_right(alloc, &mut heap, look),
        None => false,
    }
}

#[test]
fn a_member_in_the_middle_of_a_long_set_is_removed_at_once(rt: HostRuntime) {
    assert!(rt; looks_right(rt.alloc(), Look::RemovedAtOnce));
}

#[test]
fn many_linked_records_are_let_go(rt: HostRuntime) {
    assert!(rt; looks_right(rt.alloc(), Look::Linked));
}

#[test]
fn an_entity_is_in_three_sets_at_once(rt: HostRuntime) {
    assert!(rt; looks_right(rt.alloc(), Look::InThreeSets));
}

#[test]
fn a_page_without_a_living_number_is_given_back(rt: HostRuntime) {
    assert!(rt; looks_right(rt.alloc(), Look::ComeAndGo));
    assert!(rt; looks_right(rt.alloc(), Look::GivenBack));
}

#[test]
fn a_long_queue_costs_no_more(rt: HostRuntime) {
    assert!(rt; looks_right(rt.alloc(), Look::Queued));
}

#[test]
fn refused_memory_leaves_the_heap(rt: HostRuntime) {
    assert!(rt; looks_right(rt.alloc(), Look::InSpite));
}
