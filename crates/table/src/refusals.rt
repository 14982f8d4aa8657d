//! Why a call is refused.
ghost use Rattle.std.specs.Prelude.{◌≡◌};
ghost use Rattle.analysis.specs.Judge.{judge_number, judge_late};
ghost use Rattle.table.specs.Account.{bound_number, hold_late, hold_number, spend_number, withdraw_number};

use super::{Hold, LARGEST_NUMBER, LARGEST_PRIORITY, LONGEST_SUSPENSION, MOST_SUSPENSIONS};
use analysis::JudgeRefusal;
use std::error::Error;
use std::fmt;

/// Why a row is not taken. The checks are made in the order of their numbers, and the first that applies is answered.
#[derive(Clone, Copy, PartialEq, Eq, Debug)]
pub enum HoldRefusal {
    /// Check 5: the number is not 1 to [`LARGEST_NUMBER`], or a row of the table has it.
    Number,
    /// Check 6: the priority is not 1 to [`LARGEST_PRIORITY`], or a row of the table has it.
    Priority,
    /// Check 7: the suspension is above [`LONGEST_SUSPENSION`], or there are more than [`MOST_SUSPENSIONS`], or just one of the
    /// two numbers is 0.
    Suspension,
    /// Check 8: the deadline is 0, or above the spacing of the kind.
    Deadline,
    /// Check 9: a section is longer than the longest job of the kind.
    Section,
    /// Check 10: the table has no place for one more row.
    NoPlace,
    /// Check 11: with the row some row would be late. The number is that of the first late row, highest first, which need not
    /// be the new one.
    Late(u32),
}

/// Why a hold is not spent. The hold comes back inside, and has to be spent still. `Error` is not implemented, since an error
/// may be let go.
#[derive(PartialEq, Eq, Debug)]
pub enum SpendRefusal {
    /// Check 12: the hold is another table's, or its row is not held here.
    NotHeld(Hold),
}

/// Why a row is not withdrawn.
#[derive(Clone, Copy, PartialEq, Eq, Debug)]
pub enum WithdrawRefusal {
    /// Check 13: no row of the table has the number.
    NoSuchRow = 13,
    /// Check 14: the row is held. It goes out by its hold.
    NotKept = 14,
}

/// Why no bound is answered.
#[derive(Clone, Copy, PartialEq, Eq, Debug)]
pub enum BoundRefusal {
    /// Check 13: no row of the table has the number.
    NoSuchRow,
}

// A judgement that goes against a newcomer.
impl From<JudgeRefusal> for HoldRefusal {
    ghost from_gives = { λ j r. (hold_number r ≡ judge_number j) × (hold_late r ≡ judge_late j) };

    fn from(refusal: JudgeRefusal) -> HoldRefusal {
        match refusal {
            JudgeRefusal::TooMany => HoldRefusal::NoPlace,
            JudgeRefusal::Late(number) => HoldRefusal::Late(number),
        }
    }
}

// The numbers of refusals are those that the formats lay down. Where a refusal has a value in it a cast gives none, and a
// match says it.
impl HoldRefusal {
    /// The number of the check, 5 to 11.
    pub fn number(self) -> u32
        ensures { result ≡ hold_number self }
    {
        match self {
            HoldRefusal::Number => 5,
            HoldRefusal::Priority => 6,
            HoldRefusal::Suspension => 7,
            HoldRefusal::Deadline => 8,
            HoldRefusal::Section => 9,
            HoldRefusal::NoPlace => 10,
            HoldRefusal::Late(_) => 11,
        }
    }
}

impl SpendRefusal {
    /// The number of the check, 12.
    pub fn number(&self) -> u32
        ensures { result ≡ spend_number self.now }
    {
        match self {
            SpendRefusal::NotHeld(_) => 12,
        }
    }
}

impl WithdrawRefusal {
    /// The number of the check, 13 or 14.
    pub fn number(self) -> u32
        ensures { result ≡ withdraw_number self }
    {
        self as u32
    }
}

impl BoundRefusal {
    /// The number of the check, 13.
    pub fn number(self) -> u32
        ensures { result ≡ bound_number self }
    {
        match self {
            BoundRefusal::NoSuchRow => WithdrawRefusal::NoSuchRow.number(),
        }
    }
}

impl fmt::Display for HoldRefusal {
    fn fmt<W: fmt::Write>(&self, f: &mut fmt::Formatter<W>) -> fmt::Result {
        write!(f, "check {}: ", self.number())?;
        match self {
            HoldRefusal::Number => {
                write!(
                    f,
                    "the number is not 1 to {LARGEST_NUMBER}, or a row has it"
                )
            }
            HoldRefusal::Priority => {
                write!(
                    f,
                    "the priority is not 1 to {LARGEST_PRIORITY}, or a row has it"
                )
            }
            HoldRefusal::Suspension => write!(
                f,
                "the suspension is above {LONGEST_SUSPENSION} ticks, or there are more than {MOST_SUSPENSIONS}, or just one of the two is 0"
            ),
            HoldRefusal::Deadline => f.write_str("the deadline is 0 or above the spacing"),
            HoldRefusal::Section => f.write_str("a section is longer than the longest job"),
            HoldRefusal::NoPlace => f.write_str("there is no place for one more row"),
            HoldRefusal::Late(number) => write!(f, "row {number} would be late"),
        }
    }
}

impl Error for HoldRefusal {}

impl fmt::Display for SpendRefusal {
    fn fmt<W: fmt::Write>(&self, f: &mut fmt::Formatter<W>) -> fmt::Result {
        let SpendRefusal::NotHeld(hold) = self;
        write!(
            f,
            "check {}: the hold on row {} of table {} is not one that this table waits for",
            self.number(),
            hold.row(),
            hold.table()
        )
    }
}

impl fmt::Display for WithdrawRefusal {
    fn fmt<W: fmt::Write>(&self, f: &mut fmt::Formatter<W>) -> fmt::Result {
        write!(f, "check {}: ", self.number())?;
        f.write_str(match self {
            WithdrawRefusal::NoSuchRow => "no row has the number",
            WithdrawRefusal::NotKept => "the row is held",
        })
    }
}

impl Error for WithdrawRefusal {}

impl fmt::Display for BoundRefusal {
    fn fmt<W: fmt::Write>(&self, f: &mut fmt::Formatter<W>) -> fmt::Result {
        match self {
            BoundRefusal::NoSuchRow => fmt::Display::fmt(&WithdrawRefusal::NoSuchRow, f),
        }
    }
}

impl Error for BoundRefusal {}
