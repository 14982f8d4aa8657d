//! Calls on a table and what they answer, as data.
ghost use Rattle.std.specs.Prelude.{◌≡◌};
ghost use Rattle.runs.specs.Calls.{call_row, not_held_number, reply_number};

use analysis::Task;
use std::error::Error;
use std::fmt;
use table::{BoundRefusal, HoldRefusal, WithdrawRefusal};

/// The two numbers that a hold bears. A call names a hold by them.
#[derive(Clone, Copy, PartialEq, Eq, Debug)]
pub struct HoldId {
    /// The number of the table that gave it.
    pub table: u8,
    /// The number of the row that it is on.
    pub row: u32,
}

/// A call on a table, of rows whose demand is of the kind `K`.
#[derive(Debug, PartialEq, Eq, Drop)]
pub enum Call<K> {
    /// Holds a row, if all rows are in time with it. The hold comes to hand.
    Hold(Task<K>),
    /// Spends the hold that bears these numbers, and keeps its row.
    Keep(HoldId),
    /// Spends the hold that bears these numbers, and takes its row out.
    Release(HoldId),
    /// Takes the row of this number out, which is kept and not held.
    Withdraw(u32),
    /// Asks for the bound and the vector of the row of this number.
    Bound(u32),
}

/// Why a hold is not spent, by check 12: it is another table's, or its row is not held here. A hold that was handed in is where
/// it was.
#[derive(Clone, Copy, PartialEq, Eq, Debug)]
pub struct NotHeld;

// The two ways in which a hold is spent: its row is kept, or given up.
#[derive(Clone, Copy)]
pub(crate) enum Way {
    KeepRow,
    GiveUp,
}

/// What a call answered. Each case answers the call of its name, and a refusal changes nothing.
#[derive(Clone, Copy, PartialEq, Eq, Debug)]
pub enum Reply {
    /// The row is held, or it is refused by one of the checks 5 to 11.
    Hold(Result<(), HoldRefusal>),
    /// The row is kept, or the hold is refused by check 12.
    Keep(Result<(), NotHeld>),
    /// The row is out, or the hold is refused by check 12.
    Release(Result<(), NotHeld>),
    /// The row is out, or it is refused by check 13 where there is none, and by check 14 where it is held.
    Withdraw(Result<(), WithdrawRefusal>),
    /// The bound in ticks, and the vector; or refused by check 13 where there is no such row.
    Bound(Result<(u32, u32), BoundRefusal>),
}

impl<K> Call<K> {
    /// The number of the row that it is about. There need be no such row.
    pub fn row(&self) -> u32
        ensures { result ≡ call_row self.now }
    {
        match self {
            Call::Hold(task) => task.row.number,
            Call::Keep(id) | Call::Release(id) => id.row,
            Call::Withdraw(number) | Call::Bound(number) => *number,
        }
    }
}

impl NotHeld {
    /// The number of the check, which is 12.
    pub fn number(self) -> u32
        ensures { result ≡ not_held_number self }
    {
        12
    }
}

impl fmt::Display for NotHeld {
    fn fmt<W: fmt::Write>(&self, f: &mut fmt::Formatter<W>) -> fmt::Result {
        f.write_str("check 12: the hold is another table's, or its row is not held here")
    }
}

impl Error for NotHeld {}

impl Reply {
    /// The number of the check by which the call is refused; 0 where it was accepted.
    pub fn number(&self) -> u32
        ensures { result ≡ reply_number self.now }
    {
        match self {
            Reply::Hold(Err(refusal)) => refusal.number(),
            Reply::Keep(Err(refusal)) | Reply::Release(Err(refusal)) => refusal.number(),
            Reply::Withdraw(Err(refusal)) => refusal.number(),
            Reply::Bound(Err(refusal)) => refusal.number(),
            _ => 0,
        }
    }
}
