//! Worked examples of each public call, run on the code.
use super::*;
use demand::Every;
use std::test::Fail;

fn task(
    number: u32,
    priority: u32,
    suspension: u32,
    deadline: u32,
    lock: u32,
    job: u32,
    period: u32,
) -> Option<Task<Every>> {
    let row = Row {
        number,
        priority,
        suspension,
        suspensions: suspension.min(1),
        deadline,
        sections: [lock, 0, 0, 0, 0, 0, 0, 0],
    };
    let kind = Every { job, period };
    Some(Task { row, kind })
}

fn answer(number: u32, bound: u32, vector: u32, blocking: u64) -> Answer {
    Answer {
        number,
        bound,
        vector,
        blocking,
    }
}

#[test]
fn a_garage_in_any_order(rt: HostRuntime) -> Result<(), Fail> {
    let places = [
        task(3, 10, 0, 40, 2, 5, 40),
        None,
        task(1, 30, 3, 10, 1, 2, 10),
        task(2, 20, 0, 15, 0, 3, 16),
    ];
    let answers = judge(&places, &None)?;
    assert_eq!(rt;
        answers.rows(),
        [answer(1, 9, 0, 4), answer(2, 9, 0, 2), answer(3, 14, 2, 0)].as_slice()
    );
    Ok(())
}

#[test]
fn a_newcomer_is_late_at_13_and_in_time_at_14(rt: HostRuntime) -> Result<(), Fail> {
    let places = [task(1, 30, 3, 10, 1, 2, 10), task(2, 20, 0, 15, 0, 3, 16)];
    let late = task(3, 10, 0, 13, 2, 5, 40);
    assert_eq!(rt; judge(&places, &late).err(), Some(JudgeRefusal::Late(3)));
    let in_time = task(3, 10, 0, 14, 2, 5, 40);
    let answers = judge(&places, &in_time)?;
    assert_eq!(rt; answers.rows().get(2), Some(&answer(3, 14, 2, 0)));
    Ok(())
}

#[test]
fn suspensions_alone(rt: HostRuntime) -> Result<(), Fail> {
    let places = [
        task(1, 3, 5, 10, 0, 4, 10),
        task(2, 2, 1, 19, 0, 6, 19),
        task(3, 1, 0, 50, 0, 4, 50),
    ];
    let answers = judge(&places, &None)?;
    let rows = answers.rows();
    assert_eq!(rt; rows.get(0), Some(&answer(1, 9, 0, 0)));
    assert_eq!(rt; rows.get(1).map(|row| row.bound), Some(15));
    assert_eq!(rt; rows.get(2).map(|row| row.bound), Some(32));
    Ok(())
}

#[test]
fn thirteen_rows_are_too_many(rt: HostRuntime) {
    let places = [task(1, 1, 0, 900, 0, 1, 1000); MOST_ROWS];
    assert!(rt; judge(&places, &None).is_ok());
    assert_eq!(rt;
        judge(&places, &places[0]).err(),
        Some(JudgeRefusal::TooMany)
    );
    let late = JudgeRefusal::Late(3);
    assert_eq!(rt; [JudgeRefusal::TooMany.number(), late.number()], [10, 11]);
}

// Rows 1 and 3 use lock 0, and row 2 alone uses lock 5. No row uses the others.
#[test]
fn ceilings_of_three_rows(rt: HostRuntime) {
    let rank = |priority, lock_0, lock_5| Rank {
        row: Row {
            priority,
            sections: [lock_0, 0, 0, 0, 0, lock_5, 0, 0],
            ..Row::default()
        },
        place: 0,
    };
    let ceilings = ceilings_of(&[rank(30, 1, 0), rank(20, 0, 4), rank(10, 2, 0)]);
    let mut expected = [None; LOCKS];
    expected[0] = Some(30);
    expected[5] = Some(20);
    assert_eq!(rt; ceilings, expected);
}

#[test]
fn refusals_in_words(rt: HostRuntime) -> Result<(), Fail> {
    let many = format!(in rt.alloc(); "{}", JudgeRefusal::TooMany)?;
    assert_eq!(rt; many.as_str(), "check 10: there are more than 12 rows");
    let late = format!(in rt.alloc(); "{}", JudgeRefusal::Late(3))?;
    assert_eq!(rt; late.as_str(), "check 11: row 3 can miss its deadline");
    Ok(())
}
