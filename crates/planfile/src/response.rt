//! What is written for the lines of a log.
ghost use Rattle.std.specs.Prelude.{◌≡◌};
ghost use Rattle.planfile.specs.Responses.{reply_late};

use super::LineFault;
use super::fault::late_row;
use analysis::Answer;
use runs::Reply;
use std::fmt;

/// What is written for a line of a log. `Display` writes the line, with its newline; tabs part its fields. Rows go by their
/// numbers.
#[derive(Clone, Copy, PartialEq, Eq, Debug)]
pub enum Response {
    /// The row of this number is held.
    Held(u32),
    /// It is kept.
    Kept(u32),
    /// Its hold was released, and it is out.
    Released(u32),
    /// It was kept, and is out.
    Withdrawn(u32),
    /// A row has a bound.
    Bounded {
        /// The row.
        row: u32,
        /// Its bound, in ticks.
        bound: u32,
        /// The vector that gives the bound.
        vector: u32,
    },
    /// What stands in a table, a line for each row.
    Row {
        /// What is answered for the row.
        answer: Answer,
        /// Whether it is held; else it is kept.
        held: bool,
    },
    /// A line of the log is refused.
    Refused {
        /// The line, counted from 1 over the whole log; 0 where a line that is due does not come.
        line: u64,
        /// The field that is to blame, from 1; 0 where it is none, or no single one.
        field: u32,
        /// The number of the check that applies.
        number: u32,
        /// The number of the first row that would be late; 0 where lateness is not the fault.
        late: u32,
    },
}

// The row that would be late where a hold is refused for it, and else 0.
fn reply_late(reply: Reply) -> u32
    ensures { result ≡ reply_late reply }
{
    match reply {
        Reply::Hold(Err(refusal)) => late_row(refusal),
        _ => 0,
    }
}

impl Response {
    ghost use Rattle.planfile.specs.Fault.{line_blame};
    ghost use Rattle.planfile.specs.Responses.{refusal_of, response_of};

    /// What a reply comes to, where the call is about this row and stands in this line.
    pub fn of(line: u64, row: u32, reply: Reply) -> Response
        ensures { result ≡ response_of line row reply }
    {
        match reply {
            Reply::Hold(Ok(())) => Response::Held(row),
            Reply::Keep(Ok(())) => Response::Kept(row),
            Reply::Release(Ok(())) => Response::Released(row),
            Reply::Withdraw(Ok(())) => Response::Withdrawn(row),
            Reply::Bound(Ok((bound, vector))) => Response::Bounded { row, bound, vector },
            _ => Response::Refused {
                line,
                field: 0,
                number: reply.number(),
                late: reply_late(reply),
            },
        }
    }

    /// What the fault of this line comes to.
    pub fn refusal(line: u64, fault: LineFault) -> Response
        ensures { result ≡ refusal_of line (line_blame fault) }
    {
        let blame = fault.blame();
        Response::Refused {
            line,
            field: blame.field,
            number: blame.number,
            late: blame.late,
        }
    }
}

impl fmt::Display for Response {
    ghost use Rattle.std.specs.Prelude.{Some};
    ghost use Rattle.planfile.specs.Responses.{response_line};

    ghost output = { λ r. Some (response_line r) };

    fn fmt<W: fmt::Write>(&self, f: &mut fmt::Formatter<W>) -> fmt::Result {
        match self {
            Response::Held(row) => write!(f, "held\t{row}\n"),
            Response::Kept(row) => write!(f, "kept\t{row}\n"),
            Response::Released(row) => write!(f, "released\t{row}\n"),
            Response::Withdrawn(row) => write!(f, "withdrawn\t{row}\n"),
            Response::Bounded { row, bound, vector } => {
                write!(f, "bound\t{row}\t{bound}\t{vector}\n")
            }
            Response::Row { answer, held } => {
                let Answer {
                    number,
                    bound,
                    vector,
                    blocking,
                } = answer;
                let standing = if *held { "held" } else { "kept" };
                write!(
                    f,
                    "row\t{number}\t{bound}\t{vector}\t{blocking}\t{standing}\n"
                )
            }
            Response::Refused {
                line,
                field,
                number,
                late,
            } => write!(f, "refused\t{line}\t{field}\t{number}\t{late}\n"),
        }
    }
}
