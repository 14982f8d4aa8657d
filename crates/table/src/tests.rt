//! The limits of a row and of a table, and a worked example of each public call, run on the code.
use super::*;
use analysis::{JudgeRefusal, Row};
use demand::Every;
use std::alloc::Global;
use std::fmt;
use std::test::Fail;

const KIND: Every = Every {
    job: 1,
    period: 1000,
};

const EMPTY: Option<Task<Every>> = None;

// A row that nothing speaks against. Its priority is its number.
fn row(number: u32) -> Row {
    Row {
        number,
        priority: number.clamp(1, 255),
        deadline: 900,
        ..Row::default()
    }
}

// A refusal by its number. A hold that comes back is taken apart here, where its fields are in reach.
fn by_number<T>(spent: Result<T, SpendRefusal>) -> Result<T, u32> {
    spent.map_err(|refusal| {
        let number = refusal.number();
        let SpendRefusal::NotHeld(Hold { table: _, row: _ }) = refusal;
        number
    })
}

// Holds a row and spends the hold. A refusal is answered by its number.
fn pass<'a, F, T>(table: &mut Table<'a, Every>, row: Row, spend: F) -> Result<T, u32>
where
    F: FnOnce(&mut Table<'a, Every>, Hold) -> Result<T, SpendRefusal>,
    requires { F.IsAlwaysCallable spend }
{
    let hold = table.hold(row, KIND).map_err(HoldRefusal::number)?;
    by_number(spend(table, hold))
}

#[test]
fn at_most_63_suspensions(rt: HostRuntime) {
    let mut places = [EMPTY; MOST_ROWS];
    let mut table = Table::new(1, &mut places);
    let mut row = row(1);
    row.suspension = 64;
    row.suspensions = 63;
    let at = pass(&mut table, row, Table::release);
    row.suspensions = 64;
    let beyond = pass(&mut table, row, Table::release);
    assert_eq!(rt;
        (at, beyond),
        (Ok(()), Err(HoldRefusal::Suspension.number()))
    );
}

#[test]
fn a_deadline_up_to_the_spacing(rt: HostRuntime) {
    let mut places = [EMPTY; MOST_ROWS];
    let mut table = Table::new(1, &mut places);
    let mut row = row(1);
    row.deadline = 1000;
    let at = pass(&mut table, row, Table::release);
    row.deadline = 1001;
    let beyond = pass(&mut table, row, Table::release);
    assert_eq!(rt; (at, beyond), (Ok(()), Err(HoldRefusal::Deadline.number())));
}

#[test]
fn numbers_from_1_to_255(rt: HostRuntime) {
    let mut places = [EMPTY; MOST_ROWS];
    let mut table = Table::new(1, &mut places);
    let none = pass(&mut table, row(0), Table::release);
    let first = pass(&mut table, row(1), Table::release);
    let last = pass(&mut table, row(255), Table::release);
    let beyond = pass(&mut table, row(256), Table::release);
    let refused = Err(HoldRefusal::Number.number());
    assert_eq!(rt;
        (none, first, last, beyond),
        (refused, Ok(()), Ok(()), refused)
    );
}

#[test]
fn a_taken_number(rt: HostRuntime) {
    let mut places = [EMPTY; MOST_ROWS];
    let mut table = Table::new(1, &mut places);
    let kept = pass(&mut table, row(1), Table::keep);
    let again = pass(&mut table, row(1), Table::release);
    assert_eq!(rt; (kept, again), (Ok(()), Err(HoldRefusal::Number.number())));
}

#[test]
fn one_place_takes_one_row(rt: HostRuntime) {
    let mut places = [EMPTY; 1];
    let mut table = Table::new(1, &mut places);
    let kept = pass(&mut table, row(1), Table::keep);
    let second = pass(&mut table, row(2), Table::release);
    assert_eq!(rt;
        (kept, second),
        (Ok(()), Err(HoldRefusal::NoPlace.number()))
    );
}

#[test]
fn a_thirteenth_row_has_no_place(rt: HostRuntime) {
    let mut places = [EMPTY; 13];
    let mut table = Table::new(1, &mut places);
    let mut kept = Ok(());
    for number in 1..13 {
        kept = kept.and(pass(&mut table, row(number), Table::keep));
    }
    let next = pass(&mut table, row(13), Table::release);
    assert_eq!(rt; (kept, next), (Ok(()), Err(HoldRefusal::NoPlace.number())));
}

// A row is held, kept and withdrawn, and the table is asked in between.
#[test]
fn a_row_that_comes_and_goes(rt: HostRuntime) -> Result<(), Fail> {
    let mut places = [EMPTY; 3];
    let mut table = Table::new(7, &mut places);
    assert_eq!(rt; (table.room(), table.state_of(5)), (3, State::Free));
    let asked = pass(&mut table, row(5), |table, hold| {
        let numbers = (hold.table(), hold.row());
        let state = table.state_of(5);
        let early = table.withdraw(5);
        table.keep(hold)?;
        Ok((numbers, state, early))
    });
    assert_eq!(rt;
        asked,
        Ok(((7, 5), State::Held(5), Err(WithdrawRefusal::NotKept)))
    );
    assert_eq!(rt; (table.room(), table.state_of(5)), (2, State::Kept(5)));
    assert_eq!(rt; table.bound(5), Ok((1, 0)));
    let answers = table.answers()?;
    assert_eq!(rt; answers.rows().get(0).map(|row| row.blocking), Some(0));
    assert_eq!(rt; table.withdraw(5), Ok(()));
    assert_eq!(rt; table.withdraw(5), Err(WithdrawRefusal::NoSuchRow));
    assert_eq!(rt; table.bound(5), Err(BoundRefusal::NoSuchRow));
    Ok(())
}

// The answers that come with a hold are those that the table has from then on.
#[test]
fn answers_with_the_hold(rt: HostRuntime) -> Result<(), Fail> {
    let mut places = [EMPTY; 2];
    let mut table = Table::new(1, &mut places);
    assert_eq!(rt; pass(&mut table, row(2), Table::keep), Ok(()));
    let (state, kept, bound) = match table.hold_answered(row(3), KIND) {
        Ok((hold, answers)) => {
            let state = table.state_of(3);
            let bound = answers.rows().iter().map(|row| row.bound).max();
            (state, by_number(table.keep(hold)), bound)
        }
        Err(refusal) => (State::Free, Err(refusal.number()), None),
    };
    assert_eq!(rt; (state, kept, bound), (State::Held(3), Ok(()), Some(2)));
    assert_eq!(rt; table.bound(2), Ok((2, 0)));
    Ok(())
}

#[test]
fn numbers_of_refusals(rt: HostRuntime) {
    let judged = HoldRefusal::from(JudgeRefusal::TooMany);
    assert_eq!(rt; [judged.number(), HoldRefusal::Late(3).number()], [10, 11]);
    assert_eq!(rt;
        [
            WithdrawRefusal::NoSuchRow.number(),
            WithdrawRefusal::NotKept.number(),
            BoundRefusal::NoSuchRow.number(),
        ],
        [13, 14, 13]
    );
}

// A hold of one table is handed to another of the same size: it comes back, and is spent where it is from.
#[test]
fn a_hold_of_another_table(rt: HostRuntime) {
    let mut places = [EMPTY; 1];
    let mut table = Table::new(1, &mut places);
    let mut others = [EMPTY; 1];
    let mut other = Table::new(2, &mut others);
    let mut refused = None;
    let spent = pass(&mut table, row(1), |table, hold| match other.keep(hold) {
        Ok(()) => Ok(()),
        Err(refusal) => {
            refused = Some(refusal.number());
            let SpendRefusal::NotHeld(hold) = refusal;
            table.release(hold)
        }
    });
    assert_eq!(rt; (spent, refused), (Ok(()), Some(12)));
}

// What a refusal prints.
fn shown<E: fmt::Display>(heap: Global, refusal: &E, wanted: &str) -> Result<bool, Fail> {
    Ok(refusal.to_string(heap)?.as_str() == wanted)
}

// Each refusal is told in words, with the number of its check.
#[test]
fn refusals_in_words(rt: HostRuntime) -> Result<(), Fail> {
    let heap = rt.alloc();
    let refusal = HoldRefusal::Number;
    let words = "check 5: the number is not 1 to 255, or a row has it";
    assert!(rt; shown(heap, &refusal, words)?);
    let refusal = HoldRefusal::Priority;
    let words = "check 6: the priority is not 1 to 255, or a row has it";
    assert!(rt; shown(heap, &refusal, words)?);
    let refusal = HoldRefusal::Suspension;
    let words =
        "check 7: the suspension is above 1000000 ticks, or there are more than 63, or just one of the two is 0";
    assert!(rt; shown(heap, &refusal, words)?);
    let refusal = HoldRefusal::Deadline;
    let words = "check 8: the deadline is 0 or above the spacing";
    assert!(rt; shown(heap, &refusal, words)?);
    let refusal = HoldRefusal::Section;
    let words = "check 9: a section is longer than the longest job";
    assert!(rt; shown(heap, &refusal, words)?);
    let refusal = HoldRefusal::NoPlace;
    let words = "check 10: there is no place for one more row";
    assert!(rt; shown(heap, &refusal, words)?);
    let refusal = HoldRefusal::Late(3);
    let words = "check 11: row 3 would be late";
    assert!(rt; shown(heap, &refusal, words)?);
    let refusal = SpendRefusal::NotHeld(Hold { table: 2, row: 3 });
    let words = "check 12: the hold on row 3 of table 2 is not one that this table waits for";
    let is_shown = shown(heap, &refusal, words);
    let SpendRefusal::NotHeld(Hold { table: _, row: _ }) = refusal;
    assert!(rt; is_shown?);
    let refusal = WithdrawRefusal::NotKept;
    assert!(rt; shown(heap, &refusal, "check 14: the row is held")?);
    let refusal = BoundRefusal::NoSuchRow;
    assert!(rt; shown(heap, &refusal, "check 13: no row has the number")?);
    Ok(())
}
