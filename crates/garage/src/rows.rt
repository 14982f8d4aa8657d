//! The rows of the evening.
use analysis::{Row, Task};
use demand::Every;

// The charging of a car that charges slowly, of one that charges fast, and of one that stays overnight.
pub(crate) const SLOW: Every = Every { job: 5, period: 40 };

pub(crate) const FAST: Every = Every {
    job: 12,
    period: 30,
};

pub(crate) const NIGHT: Every = Every {
    job: 5,
    period: 100,
};

// A row without suspensions that uses at most lock 0.
fn row(number: u32, priority: u32, deadline: u32, lock: u32) -> Row {
    Row {
        number,
        priority,
        deadline,
        sections: [lock, 0, 0, 0, 0, 0, 0, 0],
        ..Row::default()
    }
}

// Row 1, which waits for the bus once a job.
pub(crate) fn meters() -> Task<Every> {
    let row = Row {
        suspension: 3,
        suspensions: 1,
        ..row(1, 30, 10, 1)
    };
    Task {
        row,
        kind: Every { job: 2, period: 10 },
    }
}

// Row 2.
pub(crate) fn card_reader() -> Task<Every> {
    Task {
        row: row(2, 20, 15, 0),
        kind: Every { job: 3, period: 16 },
    }
}

// A car, whose jobs may each last until the next one comes.
pub(crate) fn car(number: u32, priority: u32, charging: Every) -> Task<Every> {
    Task {
        row: row(number, priority, charging.period, 2),
        kind: charging,
    }
}
