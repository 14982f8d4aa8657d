//! What is wrong with a plan file, by layers: a field, a line, the file. Of a log it is a field or a line.
ghost use Rattle.std.specs.Prelude.{◌≡◌};
ghost use Rattle.table.specs.Account.{hold_late};
ghost use Rattle.planfile.specs.Fault.{field_number, by_number, blame, line_blame};
ghost use Rattle.planfile.specs.declared.fault.LineFault.TheVariants.{Kind as OfKind, Hold as OfHold};

use super::{LONGEST_FILE, LONGEST_LINE, REPORT_MEMORY};
use demand::KindRefusal;
use std::error::Error;
use std::fmt;
use table::HoldRefusal;

/// What is wrong with a field, by the number of the check that applies.
#[derive(Clone, Copy, PartialEq, Eq, Debug)]
pub enum FieldFault {
    /// It is no number: it is empty, or has other bytes than digits, or is above 4,294,967,295.
    NotNumber = 16,
}

impl fmt::Display for FieldFault {
    fn fmt<W: fmt::Write>(&self, f: &mut fmt::Formatter<W>) -> fmt::Result {
        write!(f, "check 16: the field is not a number up to {}", u32::MAX)
    }
}

impl Error for FieldFault {}

impl FieldFault {
    /// The number of the check.
    pub fn number(self) -> u32
        ensures { result ≡ field_number self }
    {
        self as u32
    }
}

/// What is wrong with a line of a plan file or of a log. A field is named by its number, from 1.
#[derive(Clone, Copy, PartialEq, Eq, Debug)]
pub enum LineFault {
    /// The field of this number is not a word that is due there: check 17.
    Word(u32),
    /// The line of a log has more than [`LONGEST_LINE`] bytes, or no newline at its end: check 18.
    Length,
    /// There are too few fields, or too many: check 15.
    Count,
    /// The field of this number is not a number, or is one above the limit that stands there: check 16.
    Number(u32),
    /// The numbers of a kind are refused, or those of the clock's factor: checks 1 to 4.
    Kind(KindRefusal),
    /// The row of a plan file is not taken into the table: checks 5 to 11.
    Hold(HoldRefusal),
}

impl fmt::Display for LineFault {
    fn fmt<W: fmt::Write>(&self, f: &mut fmt::Formatter<W>) -> fmt::Result {
        match self {
            LineFault::Word(field) => {
                write!(f, "check 17: field {field} is not a word that is due there")
            }
            LineFault::Length => write!(
                f,
                "check 18: the line has more than {LONGEST_LINE} bytes, or no newline at its end"
            ),
            LineFault::Count => f.write_str("check 15: there are too few fields, or too many"),
            LineFault::Number(field) => {
                write!(
                    f,
                    "check 16: field {field} is not a number that can stand there"
                )
            }
            LineFault::Kind(refusal) => write!(f, "{refusal}"),
            LineFault::Hold(refusal) => write!(f, "{refusal}"),
        }
    }
}

impl Error for LineFault {}

/// What is wrong with a file, or with the memory that is lent for its report.
#[derive(Clone, Copy, PartialEq, Eq, Debug)]
pub enum Fault {
    /// The memory for the text that is to be written has fewer than [`REPORT_MEMORY`] bytes: check 19.
    ReportMemory,
    /// The file has more than [`LONGEST_FILE`] bytes, or its last byte is no newline: check 18.
    File,
    /// Something is wrong with the line of this number, from 1.
    Line(u32, LineFault),
}

impl fmt::Display for Fault {
    fn fmt<W: fmt::Write>(&self, f: &mut fmt::Formatter<W>) -> fmt::Result {
        match self {
            Fault::ReportMemory => write!(
                f,
                "check 19: the memory for the report has fewer than {REPORT_MEMORY} bytes"
            ),
            Fault::File => write!(
                f,
                "check 18: the file has more than {LONGEST_FILE} bytes, or no newline at its end"
            ),
            Fault::Line(line, fault) => write!(f, "line {line}: {fault}"),
        }
    }
}

impl Error for Fault {}

/// What a fault says, in the numbers of a refusal line.
#[derive(Clone, Copy, Default, PartialEq, Eq, Debug)]
pub struct Blame {
    /// The number of the check that applies.
    pub number: u32,
    /// The line that is to blame, from 1; 0 where it is the whole file, or where the line is not known yet.
    pub line: u32,
    /// The field that is to blame, from 1; 0 where it is none, or no single one.
    pub field: u32,
    /// The number of the first row that would be late; 0 where lateness is not the fault.
    pub late: u32,
}

// By hand, here and below: a derived `From` does not say what it gives.
impl From<KindRefusal> for LineFault {
    ghost from_gives = { λ e r. r ≡ OfKind e };

    fn from(refusal: KindRefusal) -> LineFault {
        LineFault::Kind(refusal)
    }
}

impl From<HoldRefusal> for LineFault {
    ghost from_gives = { λ e r. r ≡ OfHold e };

    fn from(refusal: HoldRefusal) -> LineFault {
        LineFault::Hold(refusal)
    }
}

// A check that names nothing but its number.
fn by_number(number: u32) -> Blame
    ensures { result ≡ by_number number }
{
    Blame {
        number,
        ..Blame::default()
    }
}

// The row that would be late, and 0 where lateness is not why a row is not taken.
pub(crate) fn late_row(refusal: HoldRefusal) -> u32
    ensures { result ≡ hold_late refusal }
{
    match refusal {
        HoldRefusal::Late(number) => number,
        _ => 0,
    }
}

impl LineFault {
    /// What it says before its line is known, so the line is 0.
    pub fn blame(self) -> Blame
        ensures { result ≡ line_blame self }
    {
        match self {
            LineFault::Word(field) => Blame {
                field,
                ..by_number(17)
            },
            LineFault::Length => by_number(18),
            LineFault::Count => by_number(15),
            LineFault::Number(field) => Blame {
                field,
                ..by_number(16)
            },
            LineFault::Kind(refusal) => by_number(refusal.number()),
            LineFault::Hold(refusal) => Blame {
                late: late_row(refusal),
                ..by_number(refusal.number())
            },
        }
    }
}

impl Fault {
    /// All that it says.
    pub fn blame(self) -> Blame
        ensures { result ≡ blame self }
    {
        match self {
            Fault::ReportMemory => by_number(19),
            Fault::File => by_number(18),
            Fault::Line(line, fault) => Blame {
                line,
                ..fault.blame()
            },
        }
    }

    /// The number of the check that applies.
    pub fn number(self) -> u32
        ensures { result ≡ (blame self).number }
    {
        self.blame().number
    }

    /// The line that is to blame, from 1; 0 where none is.
    pub fn line(self) -> u32
        ensures { result ≡ (blame self).line }
    {
        self.blame().line
    }

    /// The field that is to blame, from 1; 0 where none is.
    pub fn field(self) -> u32
        ensures { result ≡ (blame self).field }
    {
        self.blame().field
    }

    /// The number of the first row that would be late; 0 where lateness is not the fault.
    pub fn late(self) -> u32
        ensures { result ≡ (blame self).late }
    {
        self.blame().late
    }
}
