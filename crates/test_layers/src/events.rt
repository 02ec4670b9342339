//! A thousand notices at one time, what calls cost, and refused memory.

use ss_base::{FaultKind, Mode, Value};
use ss_events::{Answer, Call, Pending, Tie, TieShape};
use std::alloc::{AllocError, Global};

// A list of one class with these ties.
fn listed(alloc: Global, ties: &[TieShape]) -> Result<Pending, AllocError> {
    let shapes = Vec::from_slice(alloc, ties)?;
    let classes = Vec::from_array(alloc, [shapes])?;
    Pending::new(alloc, &classes)
}

// Whether calls answer this in turn.
fn answer(alloc: Global, pending: &mut Pending, calls: &[Call], wanted: &[Answer]) -> bool {
    if !pending.fit(calls) {
        return false;
    }
    match pending.run(alloc, calls) {
        Ok(answers) => answers.as_slice() == wanted,
        Err(_) => false,
    }
}

// The call that schedules a notice without ties at a time.
fn at<'a>(time: i64, notice: i64) -> Call<'a> {
    Call::Schedule {
        time,
        rank: 0,
        ties: &[],
        notice,
    }
}

// The answer that a notice comes next, at its time.
fn next(time: i64, notice: i64) -> Answer {
    Answer::Next(Some((time, notice)))
}

// Whether the last call stayed within the bounds for 1,000 pending notices, of ten binary digits.
fn is_short(pending: &Pending) -> bool {
    pending.comparisons() <= 30 && pending.moves() <= 34
}

// Whether a thousand notices at one time are scheduled with few comparisons and moves, the first with no comparison.
fn are_scheduled(alloc: Global, pending: &mut Pending) -> bool {
    for notice in 1i64..1001 {
        if !answer(alloc, pending, &[at(5, notice)], &[Answer::Done]) {
            return false;
        }
        let is_first = pending.comparisons() == 0;
        if !is_short(pending) || is_first != (notice == 1) || pending.moves() == 0 {
            return false;
        }
    }
    true
}

// Whether one of them is cancelled with few comparisons and moves, and scheduled again.
fn is_scheduled_again(alloc: Global, pending: &mut Pending, notice: i64) -> bool {
    pending.cancel(notice).is_ok()
        && is_short(pending)
        && answer(alloc, pending, &[at(5, notice)], &[Answer::Done])
}

// Whether a notice comes next, with few comparisons and moves.
fn comes_next(pending: &mut Pending, notice: i64) -> bool {
    pending.take() == Some((5, notice)) && is_short(pending)
}

// Whether they come out in the order of scheduling, and this one last.
fn come_out(pending: &mut Pending, last: i64) -> bool {
    for notice in 1i64..1001 {
        if notice != last && !comes_next(pending, notice) {
            return false;
        }
    }
    comes_next(pending, last) && pending.take().is_none()
}

// Whether a thousand notices at one time come out in the order of scheduling, one of them scheduled again.
fn keep_their_order(alloc: Global, list: Result<Pending, AllocError>) -> bool {
    match list {
        Ok(mut pending) => {
            are_scheduled(alloc, &mut pending)
                && is_scheduled_again(alloc, &mut pending, 500)
                && come_out(&mut pending, 500)
        }
        Err(_) => false,
    }
}

#[test]
fn equals_come_out_in_order_of_scheduling(rt: HostRuntime) {
    assert!(rt; keep_their_order(rt.alloc(), listed(rt.alloc(), &[])));
}

// A call, what it answers, and how many comparisons and moves it makes.
type Row<'a> = (Call<'a>, Answer, u64, u64);

// Whether a call does.
fn is_counted(alloc: Global, pending: &mut Pending, row: &Row) -> bool {
    let (call, wanted, comparisons, moves) = row;
    answer(alloc, pending, &[*call], &[*wanted])
        && pending.comparisons() == *comparisons
        && pending.moves() == *moves
}

// Whether calls do in turn.
fn are_counted(alloc: Global, pending: &mut Pending, rows: &[Row]) -> bool {
    for row in rows {
        if !is_counted(alloc, pending, row) {
            return false;
        }
    }
    true
}

// Whether calls do in a list of its own.
fn few_are_counted(alloc: Global, rows: &[Row]) -> bool {
    match listed(alloc, &[]) {
        Ok(mut pending) => are_counted(alloc, &mut pending, rows),
        Err(_) => false,
    }
}

// A move is a notice's own. Of those that come before their parent, the notice 4 passes one entry and the notice 6 passes two.
// The times in the places are 3 4 7 5 8 6 then, where the first place has the four after it as children; then 4 6 7 5 8, then
// 4 6 7 8, and then 4 6 7.
#[test]
fn comparisons_and_moves_of_few_notices(rt: HostRuntime) {
    let rows = [
        (at(5, 1), Answer::Done, 0, 1),
        (at(6, 2), Answer::Done, 1, 1),
        (at(7, 3), Answer::Done, 1, 1),
        (at(4, 4), Answer::Done, 1, 3),
        (at(8, 5), Answer::Done, 1, 1),
        (at(3, 6), Answer::Done, 2, 5),
        (Call::Least, next(3, 6), 0, 0),
        (
            Call::Cancel(7),
            Answer::Faulted(FaultKind::NotScheduled),
            0,
            0,
        ),
        (at(9, 6), Answer::Faulted(FaultKind::AlreadyScheduled), 0, 0),
        (Call::Take, next(3, 6), 4, 4),
        (Call::Cancel(1), Answer::Done, 1, 2),
        (Call::Cancel(5), Answer::Done, 0, 2),
        (Call::Take, next(4, 4), 1, 4),
    ];
    assert!(rt; few_are_counted(rt.alloc(), &rows));
}

// Whether 64 notices, each at its own time, are scheduled in order, each after its parent.
fn many_are_scheduled(alloc: Global, pending: &mut Pending) -> bool {
    for notice in 1i64..65 {
        let compared = if notice == 1 { 0 } else { 1 };
        if !is_counted(
            alloc,
            pending,
            &(at(notice, notice), Answer::Done, compared, 1),
        ) {
            return false;
        }
    }
    true
}

// Whether calls after these are counted so.
fn line_is_counted(alloc: Global, rows: &[Row]) -> bool {
    match listed(alloc, &[]) {
        Ok(mut pending) => {
            many_are_scheduled(alloc, &mut pending) && are_counted(alloc, &mut pending, rows)
        }
        Err(_) => false,
    }
}

// Four at one time make a line: one comparison each, the first with its parent and the others with the last of the line. Three go:
// the second, after which another one comes into its place; the last; and the first, into whose place the third comes, which is
// compared with its parent. For the first of two more no line is found: what was last in it is gone. For the second one is found,
// but the cell of its notice is that of notice 1: so it is put into a place of its own, after a second comparison.
#[test]
fn comparisons_and_moves_of_a_line(rt: HostRuntime) {
    let rows = [
        (at(1000, 65), Answer::Done, 1, 1),
        (at(1000, 66), Answer::Done, 1, 1),
        (at(1000, 67), Answer::Done, 1, 1),
        (at(1000, 68), Answer::Done, 1, 1),
        (Call::Cancel(66), Answer::Done, 0, 1),
        (Call::Cancel(68), Answer::Done, 0, 0),
        (Call::Cancel(65), Answer::Done, 1, 1),
        (at(1000, 69), Answer::Done, 1, 1),
        (at(1000, 513), Answer::Done, 2, 1),
    ];
    assert!(rt; line_is_counted(rt.alloc(), &rows));
}

static HIGH_NUMBER: [TieShape; 1] = [TieShape {
    mode: Mode::Integer,
    high: true,
}];

// Whether a notice is scheduled at a time of its own, with a tie.
fn is_scheduled(alloc: Global, pending: &mut Pending, notice: i64) -> bool {
    let ties = [Tie {
        value: Value::Whole(notice),
        high: true,
    }];
    let call = Call::Schedule {
        time: notice.wrapping_neg(),
        rank: 0,
        ties: &ties,
        notice,
    };
    answer(alloc, pending, &[call], &[Answer::Done])
}

// Whether notices are scheduled at earlier and earlier times. Where memory is refused, for a key with its tie or for the list,
// the list is as it was, and the next try succeeds.
fn are_scheduled_in_spite(alloc: Global, pending: &mut Pending) -> bool {
    for notice in 1i64..101 {
        let before = pending.least();
        if !is_scheduled(alloc, pending, notice)
            && (pending.is_scheduled(notice)
                || pending.least() != before
                || !is_scheduled(alloc, pending, notice))
        {
            return false;
        }
    }
    true
}

// A list of one class with a high number, where memory may be refused: then the next try succeeds.
fn listed_in_spite(alloc: Global) -> Result<Pending, AllocError> {
    match listed(alloc, &HIGH_NUMBER) {
        Ok(pending) => Ok(pending),
        Err(_) => listed(alloc, &HIGH_NUMBER),
    }
}

// Whether notices are scheduled in a list in spite of refusals, and the last is the first to come.
fn is_left(alloc: Global, list: Result<Pending, AllocError>) -> bool {
    match list {
        Ok(mut pending) => {
            are_scheduled_in_spite(alloc, &mut pending) && pending.take() == Some((-100, 100))
        }
        Err(_) => false,
    }
}

#[test]
fn refused_memory_leaves_the_list(rt: HostRuntime) {
    assert!(rt; is_left(rt.alloc(), listed_in_spite(rt.alloc())));
}
