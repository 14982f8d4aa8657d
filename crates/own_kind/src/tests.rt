//! The kind asked by itself, and judged without a table.
use super::*;
use analysis::{JudgeRefusal, judge};
use demand::Kind;
use std::test::Fail;

#[test]
fn one_job_in_any_window(rt: HostRuntime) {
    let kind = Once { job: 4 };
    assert_eq!(rt;
        [kind.work(0), kind.work(1), kind.work(u32::MAX)],
        [0, 4, 4]
    );
    assert_eq!(rt;
        [kind.spacing(), kind.own(), kind.least()],
        [1_000_000, 4, 4]
    );
}

// A test of 6 makes the meters late, which wait for 3 and need 2 more; with one of 4 they end within 9.
#[test]
fn judged_with_rows_of_the_library(rt: HostRuntime) -> Result<(), Fail> {
    let places = [Some(meters()), Some(car())];
    let long = Some(contactor_test(6));
    assert_eq!(rt; judge(&places, &long).err(), Some(JudgeRefusal::Late(1)));
    let short = Some(contactor_test(4));
    let answers = judge(&places, &short)?;
    let highest = answers.rows().get(0);
    assert_eq!(rt; highest.map(|row| (row.number, row.bound)), Some((3, 4)));
    Ok(())
}
