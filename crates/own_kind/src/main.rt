//! A kind of demand of this program's own, beside one of the library: its rows are judged, and held and kept in a table. Neither
//! `analysis` nor `table` knows the kind; all that they promise is for every kind that keeps the laws.
//!
//! Begin with `once`, which has the kind: what a value means, and the proof that it keeps the laws. Times are in ticks of 100
//! microseconds.
#![tactic(auto)]

mod once;
#[cfg(test)]
mod tests;

use analysis::{Row, Task};
use demand::{Either, Every, Left, Right};
use once::Once;
use runs::Register;
use std::io;
use table::HoldRefusal;

// The kind of a row: jobs that come again and again, or a job that comes once.
type Jobs = Either<Every, Once>;

// A row without locks.
fn task(number: u32, priority: u32, deadline: u32, kind: Jobs) -> Task<Jobs> {
    let row = Row {
        number,
        priority,
        deadline,
        ..Row::default()
    };
    Task { row, kind }
}

// Row 1, which waits for the bus once a job.
fn meters() -> Task<Jobs> {
    let mut meters = task(1, 30, 10, Left(Every { job: 2, period: 10 }));
    meters.row.suspension = 3;
    meters.row.suspensions = 1;
    meters
}

// Row 2.
fn car() -> Task<Jobs> {
    task(2, 10, 40, Left(Every { job: 5, period: 40 }))
}

// Row 3, the highest: the contactor is tested once, and the test takes so long.
fn contactor_test(job: u32) -> Task<Jobs> {
    task(3, 40, 20, Right(Once { job }))
}

// Asks for a row, and tells what comes of it.
fn ask(rt: &HostRuntime, register: &mut Register<Jobs>, task: Task<Jobs>) -> io::Result<()> {
    let number = task.row.number;
    match register.take_in(task.row, task.kind) {
        Ok(_) => println!(rt; "Row {number} is kept."),
        Err(HoldRefusal::Late(late)) => println!(rt;
            "Row {number} is refused: row {late} would be late."
        ),
        Err(refusal) => println!(rt; "Row {number} is refused with number {}.", refusal.number()),
    }
}

// What is found for each row, highest first.
fn tell_rows(rt: &HostRuntime, register: &Register<Jobs>) -> io::Result<()> {
    for answer in register.answers().rows() {
        println!(rt;
            "  row {}: bound {}, vector {}, blocking {}",
            answer.number, answer.bound, answer.vector, answer.blocking
        )?;
    }
    Ok(())
}

fn main(rt: HostRuntime) -> io::Result<()> {
    let mut places = [None; 3];
    let mut register = Register::new(1, &mut places);
    ask(&rt, &mut register, meters())?;
    ask(&rt, &mut register, car())?;
    println!(rt; "A test of 6 ticks asks:")?;
    ask(&rt, &mut register, contactor_test(6))?;
    println!(rt; "A test of 4 ticks asks:")?;
    ask(&rt, &mut register, contactor_test(4))?;
    tell_rows(&rt, &register)
}
