//! The lines of the input: a row, or what is asked of the rows before it. Fields stand one blank apart.
use super::kinds::{Demand, FromFields};
use analysis::{LOCKS, Row, Task};
use std::fmt;
use std::num::ParseIntError;
use std::str::{FromStr, Split};

// What is asked of a set of rows.
#[derive(Clone, Copy)]
pub(crate) enum Question {
    // what is found for each row
    Judge,
    // whether the last row can be held over the others, so many times
    Hold(u32),
}

// A line: a row, or what is asked of the rows before it.
#[derive(Clone, Copy)]
pub(crate) enum Line {
    Row(Task<Demand>),
    Ask(Question),
}

// What is wrong with a line.
#[derive(Drop)]
pub(crate) enum LineError {
    Word,
    Kind,
    Missing,
    Number(ParseIntError),
    TooMany,
}

impl fmt::Display for LineError {
    fn fmt<W: fmt::Write>(&self, f: &mut fmt::Formatter<W>) -> fmt::Result {
        match self {
            LineError::Word => f.write_str("neither a row, nor 'judge' or 'hold'"),
            LineError::Kind => f.write_str(
                "a row is neither 'every' nor 'heavy', under at most two of 'delayed' and 'slowed'",
            ),
            LineError::Missing => f.write_str("a number is missing"),
            LineError::Number(error) => write!(f, "{error}"),
            LineError::TooMany => f.write_str("there are too many fields"),
        }
    }
}

impl FromStr for Line {
    type Err = LineError;

    fn from_str(text: &str) -> Result<Line, LineError> {
        let mut fields = text.split(' ');
        let line = match fields.next() {
            Some("row") => Line::Row(task(&mut fields)?),
            Some("judge") => Line::Ask(Question::Judge),
            Some("hold") => Line::Ask(Question::Hold(number(&mut fields)?)),
            _ => return Err(LineError::Word),
        };
        match fields.next() {
            None => Ok(line),
            Some(_) => Err(LineError::TooMany),
        }
    }
}

fn task(fields: &mut Split<'_, char>) -> Result<Task<Demand>, LineError> {
    let row = row(fields)?;
    let kind = Demand::from_fields(fields.next(), fields)?;
    Ok(Task { row, kind })
}

fn row(fields: &mut Split<'_, char>) -> Result<Row, LineError> {
    Ok(Row {
        number: number(fields)?,
        priority: number(fields)?,
        suspension: number(fields)?,
        suspensions: number(fields)?,
        deadline: number(fields)?,
        sections: sections(fields)?,
    })
}

// A loop, since `try_from_fn` copies the array for each number.
fn sections(fields: &mut Split<'_, char>) -> Result<[u32; LOCKS], LineError> {
    let mut sections = [0; LOCKS];
    for section in &mut sections {
        *section = number(fields)?;
    }
    Ok(sections)
}

pub(crate) fn number(fields: &mut Split<'_, char>) -> Result<u32, LineError> {
    let field = fields.next().ok_or(LineError::Missing)?;
    field.parse::<u32>().map_err(LineError::Number)
}
