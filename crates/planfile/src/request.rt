//! The lines of a log of calls: from their bytes to what each asks.
ghost use Rattle.std.specs.Prelude.{◌≤◌, IfOk};
ghost use Rattle.planfile.specs.Checks.{clock_of, number_in, Reads};
ghost use Rattle.planfile.specs.Cut.{Keeps};
ghost use Rattle.planfile.specs.Reading.{first_fields};
ghost use Rattle.planfile.specs.Requests.{clock_line_checks, count_checks, end_checks, limit_checks, opening_checks, opening_of, RequestRead, hold_in, single_checks, table_checks};

use super::reader::{Line, Reader};
use super::row::{RowKind, number_at, read_clock, read_row};
use super::word::{Verb, read_verb};
use super::{LONGEST_LINE, LineFault};
use analysis::MOST_ROWS;
use demand::Factor;
use runs::{Call, HoldId};

/// The table that a table line asks for.
#[derive(Clone, Copy, PartialEq, Eq, Debug)]
pub struct Opening {
    /// The table's number, 0 to 255.
    pub number: u8,
    /// How many places it is to have, 0 to [`MOST_ROWS`](analysis::MOST_ROWS).
    pub places: usize,
}

/// What a line of an evening asks. An evening is what a log has from one table line to the next.
#[derive(Debug, PartialEq, Eq, Drop)]
pub enum Request {
    /// The evening is over: the line begins with the word of a table line, and [`read_opening`] reads what else it says.
    Table,
    /// A call on the table.
    Call(Call<RowKind>),
    /// The bounds of all rows that stand in the table.
    Rows,
}

// Checks that a line has its newline and is not too long.
fn check_end(text: &[u8]) -> Result<(), LineFault>
    ensures { Reads (end_checks text.now) tt result }
{
    if LONGEST_LINE < text.len() || !text.ends_with(b"\n") {
        return Err(LineFault::Length);
    }
    Ok(())
}

// The fields of a line that has its newline.
fn cut(text: &[u8]) -> Result<Line<'_>, LineFault>
    ensures { Reads (end_checks text.now) (first_fields text.now) result }
{
    check_end(text)?;
    Ok(Reader::new(text).next().unwrap())
}

// Checks how many fields there are.
fn check_count(line: &Line, due: usize) -> Result<(), LineFault>
    ensures { Reads (count_checks line.now due) tt result }
{
    if line.count() != due {
        return Err(LineFault::Count);
    }
    Ok(())
}

// The number in the field of this index, or the fault that names the field. A number above the limit is refused as one that is
// none.
fn number_up_to(line: &Line, index: usize, limit: u32) -> Result<u32, LineFault>
    requires { Keeps line.now index 1 }
    ensures number { Reads (limit_checks line.now index limit) (number_in line.now index) result }
    ensures within { IfOk result (λ n. n ≤ limit) }
{
    let number = number_at(line, index)?;
    if limit < number {
        return Err(LineFault::Number(index as u32));
    }
    Ok(number)
}

// The one number behind the first word.
fn read_number_behind(line: &Line) -> Result<u32, LineFault>
    ensures { Reads (single_checks line.now) (number_in line.now 2) result }
{
    check_count(line, 2)?;
    number_at(line, 2)
}

// The table of a table line, by the numbers behind its first word.
fn read_table(line: &Line) -> Result<Opening, LineFault>
    ensures table { Reads (table_checks line.now) (opening_of line.now) result }
    ensures few { IfOk result (λ table. table.places ≤ MOST_ROWS) }
{
    check_count(line, 3)?;
    let number = number_up_to(line, 2, u32::from(u8::MAX))? as u8;
    let places = number_up_to(line, 3, MOST_ROWS as u32)? as usize;
    Ok(Opening { number, places })
}

// The hold of this table that a line names.
fn read_hold(line: &Line, table: u8) -> Result<HoldId, LineFault>
    ensures { Reads (single_checks line.now) (hold_in table line.now) result }
{
    let row = read_number_behind(line)?;
    Ok(HoldId { table, row })
}

/// Reads a line that has to be a table line, with its newline; what follows the newline is not looked at. An `Err` is the first
/// check that applies: 18 for the length or the newline of the line, 17 for its word, 15 for the number of its fields, 16 for a
/// number.
pub fn read_opening(text: &[u8]) -> Result<Opening, LineFault>
    ensures table { Reads (opening_checks text.now) (opening_of (first_fields text.now)) result }
    ensures few { IfOk result (λ table. table.places ≤ MOST_ROWS) }
{
    let line = cut(text)?;
    let Verb::Table = read_verb(line.first()) else {
        return Err(LineFault::Word(1));
    };
    read_table(&line)
}

/// Reads a line that has to be a clock line, with its newline; what follows the newline is not looked at. The answer is the
/// factor by which all jobs are slowed. An `Err` is the first check that applies: 18, 17, 15 or 16 as for a table line, or 4 for
/// a factor that no clock can have.
pub fn read_clock_line(text: &[u8]) -> Result<Factor, LineFault>
    ensures { Reads (clock_line_checks text.now) (clock_of (first_fields text.now)) result }
{
    read_clock(&cut(text)?)
}

/// Reads a line of an evening, with its newline: what it asks of the table of this number, whose clock has this factor. What
/// follows the newline is not looked at. An `Err` is the first check that applies: 18, 17 for the first word, 15, 16, and
/// behind `hold` those of a row line of a plan file up to 3, in the same order. Whether the table accepts the call is not looked at.
pub fn read_request(text: &[u8], clock: Factor, table: u8) -> Result<Request, LineFault>
    ensures { RequestRead clock table text.now result }
{
    let line = cut(text)?;
    let call = match read_verb(line.first()) {
        Verb::Table => return Ok(Request::Table),
        Verb::Rows => {
            check_count(&line, 1)?;
            return Ok(Request::Rows);
        }
        Verb::Hold => Call::Hold(read_row(&line, clock)?),
        Verb::Keep => Call::Keep(read_hold(&line, table)?),
        Verb::Release => Call::Release(read_hold(&line, table)?),
        Verb::Withdraw => Call::Withdraw(read_number_behind(&line)?),
        Verb::Bound => Call::Bound(read_number_behind(&line)?),
        Verb::Other => return Err(LineFault::Word(1)),
    };
    Ok(Request::Call(call))
}
