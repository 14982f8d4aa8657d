//! The response-time analysis of fixed-priority tasks that suspend themselves and share locks, on one processor.
//!
//! [`judge`] is the function to begin with: it takes rows with their kinds of demand, and says of each by when its jobs are
//! done at the latest, or which row can be late. A [`Row`] has the numbers of a task, a [`Task`] is a row with its kind, and
//! an [`Answer`] is what is worked out for a row. [`ceilings_of`] gives the ceilings of the locks under the Stack Resource
//! Policy. The words of the contracts stand in `specs/`; `specs/Judge.antt` is the one to begin with.
//!
//! All times are whole numbers of ticks, a tick being 100 microseconds.
#![tactic(auto)]

mod answers;
mod candidates;
mod cover;
mod higher;
mod judgement;
mod locks;
mod ranking;
mod search;
#[cfg(test)]
mod tests;

pub use answers::Answers;
pub use judgement::{JudgeRefusal, judge};
pub use locks::ceilings_of;

/// The most rows that are judged together.
pub const MOST_ROWS: usize = 12;

/// How many locks there are. They are numbered from 0.
pub const LOCKS: usize = 8;

/// The numbers of a task, but for what its jobs ask of the processor, which its kind says.
///
/// Any numbers are judged: what a table or a plan file refuses of them, it refuses by itself.
#[derive(Clone, Copy, Debug, Default, PartialEq, Eq)]
pub struct Row {
    /// A name. Nothing is worked out from it.
    pub number: u32,
    /// A larger priority is higher. Rows with the same one are ranked one after the other, in an order that depends on the
    /// order in which they are given.
    pub priority: u32,
    /// How long a job suspends itself in all, in ticks.
    pub suspension: u32,
    /// How often a job suspends itself. It can be blocked each time that it comes back.
    pub suspensions: u32,
    /// How long after its release a job may take, in ticks.
    pub deadline: u32,
    /// The longest section on each lock, in ticks; 0 says that the row does not use the lock.
    pub sections: [u32; LOCKS],
}

/// A row with its kind of demand.
#[derive(Clone, Copy, Debug, PartialEq, Eq, Drop)]
pub struct Task<K> {
    /// The numbers of the task.
    pub row: Row,
    /// What its jobs ask of the processor.
    pub kind: K,
}

/// A row among ranked rows, highest priority first, and the place that it was found at.
#[derive(Clone, Copy, Debug, Default, PartialEq, Eq)]
pub struct Rank {
    /// The numbers of the task.
    pub row: Row,
    /// The index of its task among those that were given.
    pub place: usize,
}

/// What is answered for a row.
#[derive(Clone, Copy, Debug, Default, PartialEq, Eq)]
pub struct Answer {
    /// The number of the row.
    pub number: u32,
    /// How long after its release a job takes at most, in ticks: at least 1, and at most the row's deadline.
    pub bound: u32,
    /// The smallest vector that gives the bound. It has a bit for each row above this one, the lowest bit for the highest row:
    /// with a 1 the suspension and the blocking of that row lengthen the window, with a 0 the jitter of that row does.
    pub vector: u32,
    /// How long a job of the row can be blocked by the rows below it in all, in ticks. It is part of the bound.
    pub blocking: u64,
}
