//! A worked example of each public call, two tables side by side, and row memory that was in use before, run on the code.
use super::*;
use analysis::{Row, Task};
use demand::Every;
use std::alloc::{AllocError, Global};
use std::process::Abort;
use std::test::Fail;
use table::{BoundRefusal, HoldRefusal, State, WithdrawRefusal};

const EMPTY: Option<Task<Every>> = None;

// A row that nothing speaks against. Its priority is its number.
fn task(number: u32) -> Task<Every> {
    Task {
        row: Row {
            number,
            priority: number,
            deadline: 900,
            ..Row::default()
        },
        kind: Every {
            job: 1,
            period: 1000,
        },
    }
}

// The same, with other numbers.
fn with_priority(number: u32, priority: u32) -> Task<Every> {
    let mut task = task(number);
    task.row.priority = priority;
    task
}

fn with_suspension(number: u32, suspension: u32) -> Task<Every> {
    let mut task = task(number);
    task.row.suspension = suspension;
    task
}

fn with_deadline(number: u32, deadline: u32) -> Task<Every> {
    let mut task = task(number);
    task.row.deadline = deadline;
    task
}

fn with_section(number: u32, length: u32) -> Task<Every> {
    let Task { row, kind } = task(number);
    Task {
        row: Row {
            sections: [length, 0, 0, 0, 0, 0, 0, 0],
            ..row
        },
        kind,
    }
}

fn hold(table: u8, row: u32) -> HoldId {
    HoldId { table, row }
}

// What is told of a desk with rows of the numbers 1 to 3: the room, how each row stands, its bound and vector, and the holds in
// hand, in their order.
#[derive(PartialEq, Eq, Debug, Drop)]
struct Standing {
    room: usize,
    states: [State; 3],
    bounds: [Result<(u32, u32), BoundRefusal>; 3],
    holds: Vec<HoldId>,
}

fn standing_of(heap: Global, desk: &Desk<'_, Every>) -> Result<Standing, AllocError> {
    let table = desk.table();
    Ok(Standing {
        room: table.room(),
        states: [1, 2, 3].map(|number| table.state_of(number)),
        bounds: [1, 2, 3].map(|number| table.bound(number)),
        holds: desk
            .holds()
            .iter()
            .map(|own| hold(own.table(), own.row()))
            .collect(heap)?,
    })
}

// A desk at which rows of these numbers are held, one after the other.
fn with_held<'a>(
    heap: Global,
    number: u8,
    places: &'a mut [Option<Task<Every>>],
    rows: [u32; 3],
) -> Result<Desk<'a, Every>, Fail> {
    let mut desk = Desk::new(heap, number, places);
    for row in rows {
        desk.call(heap, Call::Hold(task(row)))?;
    }
    Ok(desk)
}

// A hold in hand at one desk is handed to the other, to be kept and then to be released. It is refused both times, and both
// desks stand as they stood.
fn hand_over(
    rt: &impl Abort,
    heap: Global,
    id: HoldId,
    from: &mut Desk<'_, Every>,
    to: &mut Desk<'_, Every>,
) -> Result<(), Fail> {
    let before = (standing_of(heap, from)?, standing_of(heap, to)?);
    let calls = [Call::Keep(id), Call::Release(id)];
    let due = [Reply::Keep(Err(NotHeld)), Reply::Release(Err(NotHeld))];
    for (call, due) in Vec::from_array(heap, calls)?.into_iter().zip(due) {
        let ran = to.run_beside(heap, Vec::from_array(heap, [call])?, from)?;
        assert_eq!(rt; ran.replies.as_slice(), [due].as_slice());
        assert_eq!(rt; (standing_of(heap, from)?, standing_of(heap, to)?), before);
    }
    Ok(())
}

// Every kind of answer comes up in one list, on two places.
#[test]
fn every_kind_of_answer(rt: HostRuntime) -> Result<(), Fail> {
    let heap = rt.alloc();
    let mut others = [EMPTY; 1];
    let mut other = Desk::new(heap, 2, &mut others);
    other.run(heap, Vec::from_array(heap, [Call::Hold(task(7))])?)?;
    let calls = Vec::from_array(
        heap,
        [
            Call::Hold(with_priority(1, 5)),
            Call::Hold(task(1)),
            Call::Hold(with_priority(2, 5)),
            Call::Hold(with_suspension(2, 5)),
            Call::Hold(with_deadline(2, 0)),
            Call::Hold(with_section(2, 2)),
            Call::Hold(with_deadline(2, 1)),
            Call::Bound(1),
            Call::Withdraw(1),
            Call::Keep(hold(1, 1)),
            Call::Keep(hold(1, 1)),
            Call::Release(hold(1, 1)),
            Call::Hold(with_priority(3, 9)),
            Call::Hold(task(4)),
            Call::Keep(hold(2, 7)),
            Call::Release(hold(2, 7)),
            Call::Release(hold(1, 3)),
            Call::Bound(3),
            Call::Withdraw(3),
            Call::Withdraw(1),
        ],
    )?;
    let mut places = [EMPTY; 2];
    let mut desk = Desk::new(heap, 1, &mut places);
    let ran = desk.run_beside(heap, calls, &mut other)?;
    let due = [
        Reply::Hold(Ok(())),
        Reply::Hold(Err(HoldRefusal::Number)),
        Reply::Hold(Err(HoldRefusal::Priority)),
        Reply::Hold(Err(HoldRefusal::Suspension)),
        Reply::Hold(Err(HoldRefusal::Deadline)),
        Reply::Hold(Err(HoldRefusal::Section)),
        Reply::Hold(Err(HoldRefusal::Late(2))),
        Reply::Bound(Ok((1, 0))),
        Reply::Withdraw(Err(WithdrawRefusal::NotKept)),
        Reply::Keep(Ok(())),
        Reply::Keep(Err(NotHeld)),
        Reply::Release(Err(NotHeld)),
        Reply::Hold(Ok(())),
        Reply::Hold(Err(HoldRefusal::NoPlace)),
        Reply::Keep(Err(NotHeld)),
        Reply::Release(Err(NotHeld)),
        Reply::Release(Ok(())),
        Reply::Bound(Err(BoundRefusal::NoSuchRow)),
        Reply::Withdraw(Err(WithdrawRefusal::NoSuchRow)),
        Reply::Withdraw(Ok(())),
    ];
    assert_eq!(rt; ran.replies.as_slice(), due.as_slice());
    assert_eq!(rt; (desk.holds().len(), other.holds().len()), (0, 1));
    assert_eq!(rt; ran.answers.rows().len(), 0);
    Ok(())
}

// A table is made with a first list, and gone on with; the hold that is in hand is spent by the second list.
#[test]
fn a_list_and_another(rt: HostRuntime) -> Result<(), Fail> {
    let heap = rt.alloc();
    let mut places = [EMPTY; 13];
    let first = Vec::from_array(heap, [Call::Hold(task(1)), Call::Hold(task(2))])?;
    let mut none = Vec::new(heap);
    let opened = Desk::open(heap, 3, &mut places, first, &mut none);
    none.destroy_empty();
    let (mut desk, ran) = opened?;
    assert_eq!(rt;
        ran.replies.as_slice(),
        [Reply::Hold(Ok(())), Reply::Hold(Ok(()))].as_slice()
    );
    assert_eq!(rt;
        ran.answers.rows().iter().map(|row| row.number).max(),
        Some(2)
    );
    assert_eq!(rt;
        (desk.table().room(), desk.table().state_of(2)),
        (10, State::Held(2))
    );
    let second = Vec::from_array(heap, [Call::Keep(hold(3, 2)), Call::Bound(1)])?;
    let ran = desk.run(heap, second)?;
    assert_eq!(rt;
        ran.replies.as_slice(),
        [Reply::Keep(Ok(())), Reply::Bound(Ok((2, 0)))].as_slice()
    );
    assert_eq!(rt; desk.holds().iter().map(|hold| hold.row()).max(), Some(1));
    let table = desk.close();
    assert_eq!(rt;
        (table.state_of(1), table.state_of(2)),
        (State::Free, State::Kept(2))
    );
    Ok(())
}

// A hold of the same number is refused before any call is made.
#[test]
fn a_hold_of_a_table_of_the_same_number(rt: HostRuntime) -> Result<(), Fail> {
    let heap = rt.alloc();
    let mut others = [EMPTY; 1];
    let mut other = Desk::new(heap, 1, &mut others);
    other.run(heap, Vec::from_array(heap, [Call::Hold(task(7))])?)?;
    let mut places = [EMPTY; 1];
    let mut desk = Desk::new(heap, 1, &mut places);
    let calls = Vec::from_array(heap, [Call::Hold(task(1))])?;
    let refused = desk.run_beside(heap, calls, &mut other);
    assert_eq!(rt; refused.map(|_| ()), Err(RunRefusal::OwnHold));
    assert_eq!(rt; (desk.table().room(), other.holds().len()), (1, 1));
    Ok(())
}

// Two tables hold rows of the same numbers. A hold of one is nothing to the other, and is spent where it came from.
#[test]
fn holds_of_two_tables(rt: HostRuntime) -> Result<(), Fail> {
    let heap = rt.alloc();
    let mut places = [EMPTY; 4];
    let mut desk = with_held(heap, 1, &mut places, [1, 2, 3])?;
    let mut others = [EMPTY; 3];
    let mut other = with_held(heap, 2, &mut others, [3, 2, 1])?;
    assert_eq!(rt;
        standing_of(heap, &other)?.holds.as_slice(),
        [hold(2, 3), hold(2, 2), hold(2, 1)].as_slice()
    );
    hand_over(&rt, heap, hold(1, 2), &mut desk, &mut other)?;
    hand_over(&rt, heap, hold(2, 2), &mut other, &mut desk)?;
    for number in [2, 1, 3] {
        let kept = desk.call(heap, Call::Keep(hold(1, number)))?;
        let released = other.call(heap, Call::Release(hold(2, number)))?;
        assert_eq!(rt;
            (kept, released),
            (Reply::Keep(Ok(())), Reply::Release(Ok(())))
        );
        assert_eq!(rt;
            (
                desk.table().state_of(number),
                other.table().state_of(number)
            ),
            (State::Kept(number), State::Free)
        );
    }
    assert_eq!(rt; (desk.table().room(), other.table().room()), (1, 3));
    assert_eq!(rt; (desk.holds().len(), other.holds().len()), (0, 0));
    Ok(())
}

// Fourteen strangers stand in the row memory. The first twelve places are the table's, which begins empty; those behind them
// are not touched.
#[test]
fn strangers_in_the_row_memory(rt: HostRuntime) -> Result<(), Fail> {
    let heap = rt.alloc();
    let numbers = [1, 2, 3, 4, 5, 6, 7, 8, 9, 10, 11, 12, 13, 14];
    let strangers = numbers.map(|number| Some(task(number)));
    let mut places = strangers;
    let mut desk = Desk::new(heap, 5, &mut places);
    assert_eq!(rt; (desk.table().room(), desk.answers().rows().len()), (12, 0));
    for number in numbers {
        assert_eq!(rt; desk.table().state_of(number), State::Free);
    }
    let calls = [
        Call::Hold(task(14)),
        Call::Hold(task(2)),
        Call::Hold(task(3)),
        Call::Keep(hold(5, 14)),
        Call::Release(hold(5, 2)),
    ];
    let ran = desk.run(heap, Vec::from_array(heap, calls)?)?;
    let due = [
        Reply::Hold(Ok(())),
        Reply::Hold(Ok(())),
        Reply::Hold(Ok(())),
        Reply::Keep(Ok(())),
        Reply::Release(Ok(())),
    ];
    assert_eq!(rt; ran.replies.as_slice(), due.as_slice());
    assert_eq!(rt; (desk.table().room(), ran.answers.rows().len()), (10, 2));
    desk.close();
    let (used, behind) = places.split_at(12);
    let left: Vec<u32> = used
        .iter()
        .flatten()
        .map(|task| task.row.number)
        .collect(heap)?;
    assert_eq!(rt; left.as_slice(), [14].as_slice());
    assert_eq!(rt; behind, &strangers[12..]);
    Ok(())
}

#[test]
fn numbers_of_replies(rt: HostRuntime) {
    let kept = Reply::Keep(Ok(()));
    let late = Reply::Hold(Err(HoldRefusal::Late(3)));
    assert_eq!(rt;
        [kept.number(), late.number(), NotHeld.number()],
        [0, 11, 12]
    );
}

// What a maintainer reads of each refusal of this crate.
#[test]
fn texts_of_refusals(rt: HostRuntime) -> Result<(), Fail> {
    let heap = rt.alloc();
    let text = format!(in heap; "{NotHeld}")?;
    assert_eq!(rt;
        text.as_str(),
        "check 12: the hold is another table's, or its row is not held here"
    );
    let text = format!(in heap; "{}", RunRefusal::OwnHold)?;
    assert_eq!(rt;
        text.as_str(),
        "a hold that was handed in bears the number of this table: give each table a number of its own"
    );
    let text = format!(in heap; "{}", RunRefusal::Memory)?;
    assert_eq!(rt;
        text.as_str(),
        "there is no memory for the replies or the holds: run fewer calls at a time"
    );
    Ok(())
}

// A row is kept without a hold in hand, and one is tried out and leaves nothing behind.
#[test]
fn a_register(rt: HostRuntime) -> Result<(), Fail> {
    let mut places = [EMPTY; 2];
    let mut register = Register::new(9, &mut places);
    let first = task(1);
    let second = task(2);
    let kept = register
        .take_in(first.row, first.kind)
        .map(|answers| answers.rows().len());
    let tried = register
        .try_out(second.row, second.kind)
        .map(|answers| answers.rows().len());
    assert_eq!(rt; (kept, tried), (Ok(1), Ok(2)));
    assert_eq!(rt;
        (register.number(), register.answers().rows().len()),
        (9, 1)
    );
    assert_eq!(rt; register.table().state_of(2), State::Free);
    Ok(())
}

// Calls are made one by one, and each is about a row.
#[test]
fn one_call_after_the_other(rt: HostRuntime) -> Result<(), Fail> {
    let heap = rt.alloc();
    let mut places = [EMPTY; 1];
    let mut desk = Desk::new(heap, 3, &mut places);
    let calls: [Call<Every>; 5] = [
        Call::Hold(task(1)),
        Call::Keep(hold(3, 1)),
        Call::Release(hold(3, 1)),
        Call::Bound(1),
        Call::Withdraw(1),
    ];
    let due = [
        Reply::Hold(Ok(())),
        Reply::Keep(Ok(())),
        Reply::Release(Err(NotHeld)),
        Reply::Bound(Ok((1, 0))),
        Reply::Withdraw(Ok(())),
    ];
    for (call, due) in Vec::from_array(heap, calls)?.into_iter().zip(due) {
        assert_eq!(rt; call.row(), 1);
        let reply = desk.call(heap, call)?;
        assert_eq!(rt; reply, due);
    }
    assert_eq!(rt; desk.table().room(), 1);
    Ok(())
}
