//! Plan files and lines of logs, from their bytes to what they say, and what is written for them.
//!
//! A plan file has the rows of one cabinet. Begin at [`answer`], which writes the report of a file or the line of its refusal
//! into memory that is lent; [`load`] leaves the refusal to the caller as a [`Fault`], and [`write_refusal`] writes its line.
//! Nothing is allocated.
//!
//! A log has calls on a table, a line each. [`read_opening`], [`read_clock_line`] and [`read_request`] read what a line asks,
//! and a [`Response`] is what is written for it.
//!
//! Times are in ticks of 100 microseconds. Lines and fields count from 1. A check is known by its number, as a refusal line
//! has it.
#![tactic(auto)]

ghost use Rattle.std.specs.Prelude.{◌≡◌, true};
ghost use Rattle.planfile.specs.Figures.{WorkedFigures};

mod fault;
mod loading;
mod number;
mod reader;
mod request;
mod response;
mod row;
mod word;
mod writing;

pub use fault::{Blame, Fault, FieldFault, LineFault};
pub use loading::{answer, load};
pub use number::read_number;
pub use request::{Opening, Request, read_clock_line, read_opening, read_request};
pub use response::Response;
pub use row::RowKind;
pub use writing::write_refusal;

/// The most bytes that a plan file has. A longer one is refused by check 18.
pub const LONGEST_FILE: usize = 4096;

/// The most bytes that a line of a log has, with its newline. A longer one is refused by check 18.
pub const LONGEST_LINE: usize = 4096;

/// The bytes of memory that a report or the line of a refusal has to be lent. Every report fits. Less memory is refused by
/// check 19.
pub const REPORT_MEMORY: usize = 512;

/// The figures worked out by hand follow from the definitions: of the kinds, of a plan file of three rows, and of calls with
/// its rows. With them stand the limits as numbers. The answer is always `true`, and no more is computed: the figures are the
/// contract.
#[tactic(auto, using(crate::proofs::WorkedFigures::worked_figures))]
pub fn worked_figures_hold() -> bool
    ensures always { result ≡ true }
    ensures figures { WorkedFigures }
{
    true
}
