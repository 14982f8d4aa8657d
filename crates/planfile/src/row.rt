//! Clock lines and row lines, from fields to a clock and to rows of a table.
ghost use Rattle.std.specs.Prelude.{◌≡◌, ◌<◌, ◌≤◌, List, length};
ghost use Rattle.analysis.specs.Ranks.{Claim};
ghost use Rattle.table.specs.Agreement.{AgreesWith};
ghost use Rattle.planfile.specs.Text.{field, word_of};
ghost use Rattle.planfile.specs.Checks.{clock_checks, clock_of, shape_checks, number_checks, number_in, numbers_in, fields_due, row_of, jobs_in, behind_word_checks, line_checks, row_checks, task_of, row_demand, Reads};
ghost use Rattle.planfile.specs.Reading.{account_with, RowLineAnswered};
ghost use Rattle.planfile.specs.Cut.{Keeps};

use super::LineFault;
use super::number::read_number;
use super::reader::Line;
use super::word::{Word, read_word};
use analysis::{Answers, LOCKS, Row, Task};
use demand::{Delayed, Either, Every, Factor, Heavy, Left, Right, Slowed};
use runs::Register;

// The jobs of a row.
type Jobs = Either<Every, Heavy>;

/// The kind of a row of a plan file: its jobs, each late by up to the delay, and all slowed by the clock's factor.
pub type RowKind = Slowed<Delayed<Jobs>>;

// The number in the field of this index, from 1, or the fault that names the field.
pub(crate) fn number_at(line: &Line, index: usize) -> Result<u32, LineFault>
    requires { Keeps line.now index 1 }
    ensures { Reads (number_checks line.now index 1) (number_in line.now index) result }
{
    read_number(line.field(index)).map_err(|_| LineFault::Number(index as u32))
}

// The numbers in N fields, the first of which has the index `start`, or the fault that names the leftmost that is none.
fn read_numbers<const N: usize>(line: &Line, start: usize) -> Result<[u32; N], LineFault>
    requires { Keeps line.now start N }
    ensures { Reads (number_checks line.now start N) (numbers_in line.now start N) result }
{
    // A loop, since `try_from_fn` does not say of a fault that it is the first.
    let mut numbers = [0; N];
    for (i, number) in numbers.iter_mut().enumerate() {
        *number = number_at(line, start + i)?;
    }
    Ok(numbers)
}

// The factor that a clock line gives.
pub(crate) fn read_clock(line: &Line) -> Result<Factor, LineFault>
    ensures { Reads (clock_checks line.now) (clock_of line.now) result }
{
    let Word::Clock = read_word(line.first()) else {
        return Err(LineFault::Word(1));
    };
    if line.count() != 3 {
        return Err(LineFault::Count);
    }
    let [numerator, denominator] = read_numbers::<2>(line, 2)?;
    Ok(Factor::new(numerator, denominator)?)
}

// Checks how many fields a row line has, and the word that names the kind, which is the answer.
fn check_shape(line: &Line) -> Result<Word, LineFault>
    ensures { Reads (shape_checks line.now) (word_of (field 16 line.now)) result }
{
    if line.count() < 16 {
        return Err(LineFault::Count);
    }
    let kind = read_word(line.field(16));
    let due = match kind {
        Word::Every => 18,
        Word::Heavy => 20,
        _ => return Err(LineFault::Word(16)),
    };
    if line.count() != due {
        return Err(LineFault::Count);
    }
    Ok(kind)
}

// A row and its delay, from the numbers in fields 2 to 15.
fn read_plain(line: &Line) -> Result<(Row, u32), LineFault>
    requires { 15 ≤ length line.now }
    ensures { Reads (number_checks line.now 2 14) (row_of line.now, number_in line.now 7) result }
{
    let [number, priority, suspension, suspensions, deadline, delay] = read_numbers::<6>(line, 2)?;
    let sections = read_numbers::<LOCKS>(line, 8)?;
    let row = Row {
        number,
        priority,
        suspension,
        suspensions,
        deadline,
        sections,
    };
    Ok((row, delay))
}

// The jobs of a row, from the numbers behind the word that names their kind. The word itself is passed on, since what is due
// goes by it.
fn read_jobs(line: &Line, kind: Word) -> Result<Jobs, LineFault>
    requires named { 0 < fields_due kind }
    requires due { length line.now ≡ fields_due kind }
    ensures { Reads (behind_word_checks line.now kind) (jobs_in line.now kind) result }
{
    match kind {
        Word::Heavy => {
            let [job, heavy, among, period] = read_numbers::<4>(line, 17)?;
            Ok(Right(Heavy::new(job, heavy, among, period)?))
        }
        _ => {
            let [job, period] = read_numbers::<2>(line, 17)?;
            Ok(Left(Every::new(job, period)?))
        }
    }
}

// What stands behind the first word of a row line: the row, with its kind, which the clock slows.
pub(crate) fn read_row(line: &Line, clock: Factor) -> Result<Task<RowKind>, LineFault>
    ensures { Reads (row_checks line.now) (task_of clock line.now) result }
{
    let word = check_shape(line)?;
    let (row, delay) = read_plain(line)?;
    let jobs = read_jobs(line, word)?;
    let kind = Delayed::new(jobs, delay)?;
    let kind = Slowed {
        kind,
        factor: clock,
    };
    Ok(Task { row, kind })
}

// The row of a row line, with its kind, which the clock slows.
fn read_row_line(line: &Line, clock: Factor) -> Result<Task<RowKind>, LineFault>
    ensures { Reads (line_checks line.now) (task_of clock line.now) result }
{
    let Word::Row = read_word(line.first()) else {
        return Err(LineFault::Word(1));
    };
    read_row(line, clock)
}

// Takes in the row of a row line. The answers are those of all rows in the table then.
pub(crate) fn take_row(
    line: &Line,
    clock: Factor,
    register: &mut Register<RowKind>,
) -> Result<Answers, LineFault>
    ensures { (rows : List Claim) → AgreesWith row_demand (account_with rows) register.old.table
        → RowLineAnswered clock rows line.now result register.new.table }
{
    let Task { row, kind } = read_row_line(line, clock)?;
    Ok(register.take_in(row, kind)?)
}
